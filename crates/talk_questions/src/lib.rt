//! The questions of a talk, by the words of their line: which there are, which names they ask for, and what they try. What is
//! answered to them is not known here.
#![tactic(auto)]

mod asking;
mod questions;
mod trials;

pub use asking::{Asking, asking_in};
pub use questions::{Question, question_in};
pub use trials::{Trial, install_unit, migrate_unit, trial_in};
