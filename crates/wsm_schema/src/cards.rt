// What stands at a node, and around it.
ghost use Rattle.std.specs.Prelude.{◌≡◌};
ghost use Rattle.wsm_schema.specs.Places.{labelled, plain_end};

use crate::few::Few;

/// The kinds of node. Activity, XorSplit and LoopEnd are worked on: an actor starts and ends them. The others are silent.
#[derive(Clone, Copy, PartialEq, Eq, Debug)]
pub enum NodeKind {
    Start,
    Finish,
    Activity,
    AndSplit,
    AndJoin,
    XorSplit,
    XorJoin,
    LoopStart,
    LoopEnd,
}

/// The other node of an edge, and the edge's label: the branch's code where the edge leaves a split.
#[derive(Clone, Copy, PartialEq, Eq, Debug)]
pub struct End {
    pub node: u32,
    pub label: Option<u16>,
}

/// Control edges into a node, or out of it, in the order of branches.
pub type Ends = Few<End>;

/// The elements that a node reads, and whether each read is mandatory, ascending by element.
pub type CardReads = Few<(u32, bool)>;

/// The nodes at the other ends of a node's sync edges, or the elements that it writes, ascending.
pub type CardNumbers = Few<u32>;

/// A node with its edges, its data and its role. The partner of a split is its join, that of a loop's start its end, and the other way round.
#[derive(Drop)]
pub struct Card {
    pub node: u32,
    pub kind: NodeKind,
    pub partner: Option<u32>,
    pub ins: Ends,
    pub outs: Ends,
    pub syncs_in: CardNumbers,
    pub syncs_out: CardNumbers,
    pub reads: CardReads,
    pub writes: CardNumbers,
    pub role: u32,
}

impl End {
    /// The end of an edge that has no label.
    pub fn plain(node: u32) -> End
        ensures { result ≡ plain_end node }
    {
        End { node, label: None }
    }

    /// The end of an edge that has a branch's code.
    pub fn labelled(node: u32, code: u16) -> End
        ensures { result ≡ labelled node code }
    {
        End {
            node,
            label: Some(code),
        }
    }
}
