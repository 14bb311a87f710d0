//! Says whether a report can have come from a legal run of a process file, and which line is the first that none has.
//!
//! The report is gone along once. The types come first, one after another, since they tell which versions their callers
//! were told; the cases are judged in threads. Each line of a journal tells its caller, and so whose next call it is: the
//! call is made of the type's or the case's machine, and the line that is printed of it must be the one that stands there.
#![tactic(auto)]

mod asked;
mod callers;
mod cases;
mod dividing;
mod inputs;
mod kinds;
mod owed;
mod pieces;
mod reports;
mod sections;
mod told;
mod turns;
mod unaudited;

pub use inputs::audit_input;
pub use reports::{Verdict, audit};
pub use unaudited::{Unaudited, end_status};
pub use wsm_lists::NoMemory;
