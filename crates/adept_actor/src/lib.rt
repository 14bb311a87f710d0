//! An actor at work: the calls of its lines, one after another, from its desk.
#![tactic(auto)]

mod calls;
mod working;

pub use working::{work, work_line};
