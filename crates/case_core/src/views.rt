// What a case shows.
use wsm_items::ItemList;
use wsm_schema::{Marking, Writes};

/// What a case shows.
#[derive(Drop)]
pub enum View {
    /// The case is not created.
    None,
    /// The version that it stands on, the number of its own operations, whether it is finished, the states of its
    /// nodes, the elements that have a value, and its work items.
    Live {
        version: u32,
        own: u32,
        finished: bool,
        marking: Marking,
        values: Writes,
        items: ItemList,
    },
}
