//! Calls that are to be stored, and the room that an image has for them: the payload of a call, or those of several as a
//! group of records, where they find room.
#![tactic(auto)]

mod faults;
mod groups;
mod payloads;

pub use faults::RoomFault;
pub use groups::{first_group, next_end};
pub use payloads::{group_within, payload_within};
