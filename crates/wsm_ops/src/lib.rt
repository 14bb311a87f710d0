//! Operations that change a schema: each with its refusals and its effect.
#![tactic(auto)]

mod applications;
mod drafts;
mod effects;
mod faults;
mod insertions;
mod operations;
mod outlines;
mod pieces;
mod places;
mod readers;
mod refusals;
mod removals;
mod runs;
mod walks;
mod wraps;

pub use applications::apply;
pub use faults::{ApplyRefusal, OpFault, OpWhy};
pub use operations::{Gap, Op, Ops};
