// Calls of types and cases as they are stored: the bytes of each, and the call that bytes are of.
#![tactic(auto)]

mod events;
mod fields;
mod limits;
mod lists;
mod operations;
mod schemas;
mod stored;
mod trees;
mod values;

pub use events::{payload, read_payload};
pub use limits::{has_short_lists, is_shallow};
pub use stored::{Recorded, Stored};
