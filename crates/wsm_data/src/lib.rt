//! The check of a schema's data: that each read and write is of a known node and element, that no mandatory read can miss its value, and that no two nodes write one element side by side.
#![tactic(auto)]

mod checks;
mod merges;
mod missing;
mod parallels;
mod refusals;
mod sets;
mod tables;
mod unknowns;

pub use checks::check_data;
pub use refusals::DataRefusal;
pub use wsm_schema::DataFault;
