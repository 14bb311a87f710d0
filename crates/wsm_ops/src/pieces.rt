// The pieces of a schema's tree: its nodes, and the heads of its branches.
ghost use Rattle.std.specs.Prelude.{◌≡◌, true};
ghost use Rattle.wsm_schema.specs.declared.cards.NodeKind.TheVariants.{Activity};
ghost use Rattle.wsm_ops.specs.declared.pieces.Piece.TheVariants.{Node, Head};
ghost use Rattle.wsm_ops.specs.Outline.{is_head, at_gap, seat_on, ends_with};

use crate::operations::{Gap, is_code};
use wsm_schema::NodeKind;

/// A piece of a tree.
#[derive(Clone, Copy, PartialEq, Eq, Debug)]
pub enum Piece {
    /// A node, what it is, and the other end of its block.
    Node {
        node: u32,
        kind: NodeKind,
        partner: Option<u32>,
    },
    /// The head of a branch, and whether it is the first of its block with this code.
    Head {
        split: u32,
        code: u16,
        first: bool,
    },
}

/// What a piece says of its node.
#[derive(Clone, Copy, PartialEq, Eq, Debug)]
pub struct Seat {
    pub kind: NodeKind,
    pub partner: Option<u32>,
}

impl Seat {
    /// Whether the item that begins with the node there ends with the last one.
    pub fn ends_with(self, node: u32, last: u32) -> bool
        ensures { result ≡ ends_with self.kind node self.partner last }
    {
        if self.kind == NodeKind::Activity {
            node == last
        } else {
            self.partner == Some(last)
        }
    }
}

impl Piece {
    /// An activity.
    pub fn activity(node: u32) -> Piece
        ensures { result ≡ Node node Activity None }
    {
        Piece::Node {
            node,
            kind: NodeKind::Activity,
            partner: None,
        }
    }

    /// The first or the last node of a block.
    pub fn end_of_block(node: u32, kind: NodeKind, partner: u32) -> Piece
        ensures { result ≡ Node node kind (Some partner) }
    {
        Piece::Node {
            node,
            kind,
            partner: Some(partner),
        }
    }

    /// The head of the first branch with a code.
    pub fn first_head(split: u32, code: u16) -> Piece
        ensures { result ≡ Head split code true }
    {
        Piece::Head {
            split,
            code,
            first: true,
        }
    }

    /// Whether the gap is directly behind it.
    pub fn is_at(self, gap: Gap) -> bool
        ensures { result ≡ at_gap gap self }
    {
        match self {
            Piece::Node { node, .. } => gap.is_behind(node),
            Piece::Head { split, code, first } => is_code(gap.head_code(split), code) && first,
        }
    }

    /// Whether it is the head of the split's first branch with this code.
    pub fn is_head(self, split: u32, code: u16) -> bool
        ensures { result ≡ is_head split code self }
    {
        match self {
            Piece::Node { .. } => false,
            Piece::Head {
                split: s,
                code: c,
                first,
            } => s == split && c == code && first,
        }
    }

    /// What it says of the node, where it is the node.
    pub fn seat(self, node: u32) -> Option<Seat>
        ensures { result ≡ seat_on node self }
    {
        match self {
            Piece::Node {
                node: n,
                kind,
                partner,
            } => {
                if n == node {
                    Some(Seat { kind, partner })
                } else {
                    None
                }
            }
            Piece::Head { .. } => None,
        }
    }
}
