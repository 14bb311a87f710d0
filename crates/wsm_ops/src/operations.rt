// Operations on schemas.
ghost use Rattle.std.specs.Prelude.{◌≡◌};
ghost use Rattle.wsm_ops.specs.Edit.{is_behind, head_code, is_code};

use wsm_schema::{ElementKind, Listing};

/// A place in a schema where something may be put.
#[derive(Clone, Copy, PartialEq, Eq, Debug)]
pub enum Gap {
    /// Directly behind the node: behind the whole block where it is a block's last node, at the head of the body where it
    /// starts a loop, and at the head of the schema where it is the start node.
    After(u32),
    /// The head of a split's first branch with this code.
    Head(u32, u16),
}

impl Gap {
    /// Whether it is the place directly behind the node.
    pub fn is_behind(self, node: u32) -> bool
        ensures { result ≡ is_behind self node }
    {
        match self {
            Gap::After(n) => node == n,
            Gap::Head(..) => false,
        }
    }

    // The code of the branch at whose head it is, where it is in a branch of this split.
    pub fn head_code(self, split: u32) -> Option<u16>
        ensures { result ≡ head_code self split }
    {
        match self {
            Gap::After(_) => None,
            Gap::Head(s, code) => { if split == s { Some(code) } else { None } }
        }
    }
}

// Whether a code is the one that is looked for.
pub fn is_code(wanted: Option<u16>, code: u16) -> bool
    ensures { result ≡ is_code wanted code }
{
    match wanted {
        None => false,
        Some(other) => other == code,
    }
}

/// An operation on a schema. Role 0 stands for no role.
#[derive(Clone, Copy, PartialEq, Eq, Debug)]
pub enum Op {
    /// A new activity at a gap.
    InsertSerial {
        node: u32,
        role: u32,
        gap: Gap,
    },
    /// A new activity beside the item from `first` to `last`, in a new AND block round both.
    InsertParallel {
        node: u32,
        role: u32,
        split: u32,
        join: u32,
        first: u32,
        last: u32,
    },
    /// A new XOR block at a gap, whose branch 0 is empty and whose branch 1 holds the new activity.
    InsertConditional {
        node: u32,
        role: u32,
        split: u32,
        join: u32,
        gap: Gap,
    },
    /// The activity goes, with its reads, its writes, its role and every sync edge that it ends.
    DeleteActivity {
        node: u32,
    },
    /// The activity moves to a gap, and keeps its edges, its data and its role.
    MoveActivity {
        node: u32,
        gap: Gap,
    },
    /// A new sync edge between two activities.
    InsertSync {
        source: u32,
        target: u32,
    },
    /// The sync edge goes.
    DeleteSync {
        source: u32,
        target: u32,
    },
    /// A new element.
    AddElement {
        element: u32,
        kind: ElementKind,
    },
    /// The node then reads the element.
    AddRead {
        node: u32,
        element: u32,
        mandatory: bool,
    },
    /// The node then reads the element no more.
    RemoveRead {
        node: u32,
        element: u32,
    },
    /// The node then writes the element.
    AddWrite {
        node: u32,
        element: u32,
    },
    /// The node then writes the element no more.
    RemoveWrite {
        node: u32,
        element: u32,
    },
    /// The node then has this role.
    SetRole {
        node: u32,
        role: u32,
    },
}

/// Operations in order.
pub type Ops = Listing<Op>;
