//! What a talk is over: units that are held one behind another, and whoever holds them.
#![tactic(auto)]

mod headers;
mod holders;

pub use headers::header;
pub use holders::Holder;
