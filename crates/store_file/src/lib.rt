//! The store at a path: the file is found, or made so that no stop leaves a part of its mark under its name.
#![tactic(auto)]

mod making;
mod opening;
mod paths;

pub use opening::open_disk;
