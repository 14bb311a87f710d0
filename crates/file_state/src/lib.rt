//! What was read so far of a process file, and what a line that has a form makes of it: declarations, lines of a type, lines
//! of a phase, operations of a group. Each call gives the place of the next line, or why this one is refused.
#![tactic(auto)]

mod contents;
mod declaring;
mod operating;
mod scripting;
mod texts;
mod typing;

pub use contents::{no_contents, refusal};
pub use declaring::{declared, end_phase, headed};
pub use file_model::{Contents, FileRefusal, Group, Lines, Phases, Section, Stop, Why};
pub use operating::operated;
pub use scripting::scripted;
pub use typing::{fits_in, typed};
pub use wsm_lists::NoMemory;
