//! A server that stays: the items of a talk are answered one after another over what a disk holds, and what is accepted is on
//! the disk before its answer is written. What the disk holds is worked again where the server is opened.
#![tactic(auto)]

mod beginning;
mod faults;
mod fronts;
mod opening;
mod responding;
mod serving;
mod taking;

pub use adept_io::NoMemory;
pub use faults::{ServeFault, status};
pub use serving::serve;
