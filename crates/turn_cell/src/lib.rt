//! A cell: a lock with a history, under which each call is one entry of one legal journal.
#![tactic(auto)]

mod calls;
mod cell;
mod faults;
mod gate;
mod guarded;
mod hold_gate;
mod journal;
mod limits;
mod machine;
mod pass;
mod passes;
mod rule;
mod seat_view;
mod steps;

pub use cell::Cell;
pub use faults::{CallFault, TryFault};
pub use gate::{Gate, OpenGate, Side};
pub use hold_gate::{HoldGate, Place};
pub use journal::{Closed, Entry, Journal};
pub use limits::{MAX_AGE, MAX_ENTRIES, MAX_OPENING_AGE, MAX_WEIGHT};
pub use machine::{Machine, NoMemory};
pub use pass::Pass;
