//! What is done with a row: one pass of each of many cells. Nothing here waits.
#![tactic(auto)]

mod closing;
mod joining;
mod meeting;
mod opening;
mod splitting;

pub use closing::close_into;
pub use joining::join_row;
pub use meeting::{meet_called, meet_rows};
pub use opening::open_row;
pub use splitting::split_into;
