//! The calls that the lines of a process file make, one after another, as a store keeps them.
#![tactic(auto)]

mod telling;

pub use telling::{FileCalls, calls};
