//! The item of a talk that is being taken: where it ends, what it is, and its bytes as far as they have to be kept.
#![tactic(auto)]

mod intakes;

pub use intakes::Intake;
