//! The types and cases of a file that grows: the calls of each line are made at once, and their entries join the journals.
#![tactic(auto)]

mod runs;
mod tries;

pub use runs::UnitRun;
pub use tries::KindBefore;
pub use wsm_lists::NoMemory;
