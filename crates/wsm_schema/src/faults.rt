// Faults of a schema.

/// What is counted against a limit.
#[derive(Clone, Copy, PartialEq, Eq, Debug)]
pub enum LimitKind {
    Nodes,
    Depth,
    Syncs,
    Elements,
    Reads,
    Writes,
}

/// A fault of the tree or of the sync edges.
#[derive(Clone, Copy, PartialEq, Eq, Debug)]
pub enum BlockFault {
    /// Too many of these.
    Limit(LimitKind),
    /// The number of the node stood earlier.
    Twice(u32),
    /// The split has fewer than two branches.
    FewBranches(u32),
    /// The split has two branches with the code.
    CodeTwice(u32, u16),
    /// An end of the sync edge is no activity of the schema.
    SyncEnd(u32, u32),
    /// The ends of the sync edge are not in different branches of an AND block that is the smallest block round both.
    SyncPlace(u32, u32),
    /// The ends of the sync edge have different innermost loops.
    SyncLoop(u32, u32),
    /// The sync edge closes a cycle.
    SyncCycle(u32, u32),
}

/// A fault of the data.
#[derive(Clone, Copy, PartialEq, Eq, Debug)]
pub enum DataFault {
    /// A read or write of the node, which is not worked on, or of the element, which is not listed.
    Unknown(u32, u32),
    /// The node reads the element, which may have no value then.
    Missing(u32, u32),
    /// Both nodes write the element, in different branches of an AND block and with no sync edge between them.
    ParallelWrite(u32, u32, u32),
}
