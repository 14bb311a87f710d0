//! The work of a process file over a store that was begun before: what the store holds already is compared with the
//! calls of the file, and the calls behind it are stored.
#![tactic(auto)]

mod adding;
mod faults;
mod finding;
mod keeping;

pub use faults::KeepFault;
pub use keeping::keep;
