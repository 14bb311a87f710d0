//! A text that is gone along piece by piece, as long as each piece is what stands there, and a sink whose memory grows, in
//! which a piece is put together.
#![tactic(auto)]

mod follower;
mod growing;

pub use adept_io::NoMemory;
pub use follower::{Follower, behind_lines};
pub use growing::GrowingSink;
