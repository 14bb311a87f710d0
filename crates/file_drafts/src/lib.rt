//! A process type while its lines are read: open blocks with what stands before them, and the schema's lists.
#![tactic(auto)]

mod drafts;
mod frames;
mod growing;
mod sequences;

pub use drafts::{Around, Draft};
pub use frames::{Frame, Frames, GateKind, OpenGate, OpenLoop};
pub use growing::GrowingSchema;
pub use sequences::{ClosedBranches, Sequence};
