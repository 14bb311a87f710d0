//! A process file of format 3 that grows by units: a line, a type, or a group of operations, each taken whole or not at all.
//!
//! A unit is read by the reader's definition, going on from where the file so far ends. Of its calls the line that it says is
//! handed on; of a unit that is refused nothing is left, and no name has a number for its sake. A unit that was taken can be
//! taken back: then nothing is left of it either.
#![tactic(auto)]

mod held;
mod limits;
mod reading;
mod shown;

pub use held::{HeldFile, Said, UnitRefusal};
pub use limits::{MAX_HELD_ACTORS, MAX_HELD_CASES, MAX_HELD_TYPES};
pub use reading::Marks;
pub use wsm_lists::NoMemory;
