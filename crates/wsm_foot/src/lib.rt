//! What lists of operations change and use, and what two lists share.
#![tactic(auto)]

mod footprints;
mod names;
mod overlaps;

pub use footprints::{all_changes, all_touched};
pub use names::Name;
pub use overlaps::overlap;
