//! How far each case of a logged history goes on a version of its type.
//!
//! The records of a case are taken as events, in their order, from the state of a case that was just created. The first
//! event that is refused ends what fits of it.
#![tactic(auto)]

mod asking;
mod fits;
mod fitting;
mod inputs;
mod parts;
mod progress;
mod tables;
mod unfit;
mod versions;
mod writing;

pub use fits::{CaseFit, FitRefusal, Fits};
pub use fitting::fit;
pub use inputs::fit_input;
pub use log_records::{RecordFault, WrongRecord};
pub use unfit::Unfit;
