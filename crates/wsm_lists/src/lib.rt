//! Lists, ordered tables and values: the small types that schemas, trails and files are made of.
#![tactic(auto)]

mod growing;
mod keys;
mod listings;
mod reserved;
mod roles;
mod steps;
mod tables;
mod taking;
mod values;

pub use growing::{GrowingRoles, GrowingTable};
pub use keys::{ByEdge, ByElement, ByFirst, ByNode, ByRead, Keys};
pub use listings::Listing;
pub use reserved::NumberedRows;
pub use roles::Roles;
pub use std::alloc::AllocError as NoMemory;
pub use steps::Steps;
pub use tables::Table;
pub use values::{ElementKind, ReadValues, ShortText, Value, Writes, copy_option};

/// Numbers of nodes, or of elements where it says so.
pub type Nodes = Listing<u32>;

/// Numbers of roles, in the order given.
pub type RoleList = Listing<u32>;

/// Sync edges: source and target.
pub type Syncs = Table<ByEdge>;

/// Write edges: node and element.
pub type WriteEdges = Table<ByEdge>;

/// Data elements: number and kind.
pub type Elements = Table<ByElement>;

/// Read edges: node, element, and whether a value must be there before the node is started.
pub type Reads = Table<ByRead>;
