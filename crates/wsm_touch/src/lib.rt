//! The nodes that differ between two schemas.
#![tactic(auto)]

mod changed_nodes;
mod same_cards;

pub use changed_nodes::touched;
