//! The program as one call: what it reads, what it works, and what it writes.
#![tactic(auto)]

mod commands;
mod outcomes;
mod reading;
mod words;
mod working;

pub use commands::{adept, check_only, play};
pub use outcomes::Outcome;
