//! Trails: what was started and ended in a case, by position.
#![tactic(auto)]

mod cuts;
mod entries;
mod keeps;
mod last_writes;
mod late;
mod lookups;
mod reads;
mod trails;
mod withdrawals;

pub use entries::written_by;
pub use keeps::TrailKeep;
pub use last_writes::LastWrites;
pub use reads::{CountedTrail, TrailReads};
pub use trails::Trail;
pub use wsm_schema::Entry;
