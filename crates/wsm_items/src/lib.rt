//! The work items of a case, kept by node.
#![tactic(auto)]

mod kept_items;
mod work_items;

pub use kept_items::Items;
pub use work_items::{Item, ItemList};
