//! The words of a fault of a schema, or of the operations that were to change one. The refusal of a file and the journals
//! of a report say them alike.
#![tactic(auto)]

mod faults;
mod words;

pub use faults::fault_words;
pub use words::{FaultWord, FaultWords};
