//! A talk in turns: bytes come from a source, what is whole of them is worked as items, the accepted ones are put on a disk
//! as one group, and then the answers are written to a sink.
#![tactic(auto)]

mod begun;
mod faults;
mod limits;
mod lines;
mod responders;
mod serving;
mod turns;
mod waiting;
mod working;

pub use begun::Begun;
pub use faults::{TalkFault, status};
pub use limits::{MAX_ANSWERS, MAX_INPUT, MAX_ITEM, MAX_READ};
pub use lines::PlusLines;
pub use responders::Responder;
pub use serving::serve_turns;
