// Where the bytes of a program come from and go to.
//
// A `Source` gives bytes and a `Sink` takes them, piece by piece, and either may fail at any call. What a contract
// says of them rests on two meanings: the bytes that are left or were written, where the object tells them, and a count
// of faults that never falls. A call answers `Failed` only where that count rose, and a read that is answered leaves it.
#![tactic(auto)]

use std::alloc::AllocError;
use thiserror::Error;

pub mod gathering;
mod held;
pub mod lists;
pub mod memory;
pub mod reading;
pub mod sinks;
pub mod sources;
pub mod standard;
pub mod sure;
pub mod writing;

pub use gathering::{Text, write_gathered};
pub use lists::{Bytes, Calls};
pub use memory::{MemorySink, MemorySource};
pub use reading::{ReadRefusal, read_to_limit};
pub use sinks::Sink;
pub use sources::Source;
pub use standard::{StdSink, StdSource};
pub use sure::{SureSink, SureSource};
pub use writing::{put, put_integer, put_line, put_number, put_pieces, write_all};

/// There was not enough memory.
pub type NoMemory = AllocError;

/// A read of a source or a write to a sink failed. The object's count of faults rose in that call.
#[derive(Clone, Copy, Debug, PartialEq, Eq, Error)]
#[error("a read or a write failed")]
pub struct Failed;
