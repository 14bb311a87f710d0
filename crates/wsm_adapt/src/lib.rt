//! Marks of a trail on a changed schema, found by a look at what the change reaches.
#![tactic(auto)]

mod adapting;
mod begins;
mod border;
mod fits;
mod known;
mod misfits;
mod walks;

pub use adapting::{Adapted, adapt};
