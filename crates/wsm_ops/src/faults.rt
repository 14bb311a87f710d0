// Why an operation is refused.
use wsm_schema::NoMemory;

/// The first operation of a list that is refused, counted from 1, and why.
#[derive(Clone, Copy, PartialEq, Eq, Debug)]
pub struct OpFault {
    pub index: u32,
    pub why: OpWhy,
}

/// Why an operation is refused.
#[derive(Clone, Copy, PartialEq, Eq, Debug)]
pub enum OpWhy {
    /// The schema has no such node.
    NoNode(u32),
    /// The number of a new node is taken.
    NodeThere(u32),
    /// The node is of a kind that the operation does not take.
    WrongKind(u32),
    /// The node would move behind itself.
    SelfTarget(u32),
    /// The schema has no such sync edge.
    NoSync,
    /// The sync edge is there.
    SyncThere,
    /// The node has no such read, or no such write.
    NoEdge,
    /// The read, or the write, is there.
    EdgeThere,
    /// The element is there.
    ElementThere,
}

/// Why operations give no schema.
#[derive(Clone, Copy, PartialEq, Eq, Debug)]
pub enum ApplyRefusal {
    /// An operation is refused.
    Fault(OpFault),
    /// There is too little memory.
    NoMemory,
}

impl From<NoMemory> for ApplyRefusal {
    ghost use Rattle.std.specs.Prelude.{◌≡◌};
    ghost use Rattle.wsm_ops.specs.declared.faults.ApplyRefusal.TheVariants as refusal;

    ghost from_gives = { λ _ e. e ≡ refusal.NoMemory };

    fn from(_error: NoMemory) -> ApplyRefusal {
        ApplyRefusal::NoMemory
    }
}
