//! What a server holds: a file of units, the run of its lines, and the bytes of the units. It takes a unit behind the others
//! and answers it, and it answers questions, which change nothing: a unit that is tried is taken back.
#![tactic(auto)]

mod answers;
mod holding;
mod limits;
mod questions;
mod states;
mod taking;
mod telling;
mod texts;
mod trials;
mod trying;
mod working;

pub use adept_io::NoMemory;
pub use limits::MAX_ANSWER;
pub use states::TalkState;
