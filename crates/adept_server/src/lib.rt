//! The server: a cell for each process type and for each case, and desks from which actors call them.
//!
//! A desk is one actor's right to call: it has a pass of each cell. Each call of the server is one entry in the journal
//! of each cell that it calls.
#![tactic(auto)]

mod all_rows;
mod batches;
mod call_flags;
mod calls;
mod closing;
mod desks;
mod ending;
mod flags;
mod joining;
mod offering;
mod one_call;
mod opening;
mod rooms;
mod servers;
mod worklists;

pub use call_flags::CallFlags;
pub use closing::ClosedServer;
pub use desks::Desk;
pub use rooms::Rooms;
pub use servers::Server;
pub use worklists::{Offer, Offers};
