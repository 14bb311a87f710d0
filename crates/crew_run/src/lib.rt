//! A file's script, worked by a crew: the first desk of a server, and a desk for each actor.
//!
//! The one call works a file phase after phase. That its run is legal, whatever way the actors' turns fall, is shown in
//! `proofs/RunEnds`: `legal-of` for a run that ends well, and `never-overfull` for one in which a journal would be full, which there is not.
#![tactic(auto)]

mod closing;
mod counting;
mod crews;
mod definitions;
mod hiring;
mod in_order;
mod meeting;
mod naming;
mod phases;
mod rooms;
mod workers;

pub use crews::crew_run;
