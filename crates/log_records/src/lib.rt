//! The records of an event log: a log is a text of comma-separated fields, and its records are read one after another.
#![tactic(auto)]

mod cells;
mod faults;
mod places;
mod readers;
mod records;

pub use cells::{is_head, record_of};
pub use faults::{RecordFault, WrongRecord};
pub use places::NamePlaces;
pub use readers::LogReader;
pub use records::{LogEvent, LogRecord};
pub use std::alloc::AllocError as NoMemory;
