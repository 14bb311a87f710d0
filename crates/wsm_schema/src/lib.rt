//! Process schemas: a tree of blocks with sync edges, data and roles, and its flat form.
#![tactic(auto)]

mod blocks;
mod card_lists;
mod cards;
mod enclosures;
mod entries;
mod faults;
mod few;
mod flats;
mod groups;
mod marks;
mod places;
mod ranks;
mod schemas;
mod states;

pub use blocks::{Block, Branch, Branches, Items, copy_items};
pub use cards::{Card, CardNumbers, CardReads, End, Ends, NodeKind};
pub use enclosures::Enclosures;
pub use entries::Entry;
pub use faults::{BlockFault, DataFault, LimitKind};
pub use few::Few;
pub use flats::Flat;
pub use groups::Groups;
pub use marks::Mark;
pub use ranks::Rank;
pub use schemas::Schema;
pub use states::{BySpot, Flow, Marking, Spot, State, Verdict};
pub use wsm_lists::{
    ByEdge, ByElement, ByNode, ByRead, ElementKind, Elements, Keys, Listing, NoMemory, Nodes,
    ReadValues, Reads, RoleList, Roles, ShortText, Syncs, Table, Value, WriteEdges, Writes,
};
