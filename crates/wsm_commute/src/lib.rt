//! Lists of operations that do not overlap make one schema, in whatever order they are applied.
#![tactic(auto)]

mod many;
mod merges;
mod ordered;
mod refusals;
mod sweeps;

pub use many::{OpsLists, merge_many};
pub use merges::merge;
pub use refusals::{ManyRefusal, MergeRefusal};
