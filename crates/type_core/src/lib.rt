//! Process types: their versions, and the events that they answer.
#![tactic(auto)]

mod events;
mod kinds;
mod replies;

pub use events::KindEvent;
pub use kinds::{Kind, MAX_VERSIONS};
pub use replies::KindReply;
