// What operations put at gaps.
ghost use Rattle.std.specs.Prelude.{◌≡◌, IfOk};
ghost use Rattle.wsm_ops.specs.{Edit.new_part, Outline.{part_pieces, at_gap, behind, IsOnce}};

use crate::operations::Gap;
use crate::outlines::Outline;
use crate::pieces::Piece;
use wsm_schema::{NoMemory, NodeKind};

/// What an operation puts at a gap.
#[derive(Clone, Copy)]
pub enum New {
    Activity(u32),
    /// A block of nothing and an activity.
    Choice { node: u32, split: u32, join: u32 },
}

impl New {
    /// The outline with it at the gap.
    pub fn put(self, outline: Outline, gap: Gap) -> Result<Outline, NoMemory>
        requires { IsOnce (at_gap gap) outline }
        ensures { IfOk result (λ new. new ≡ behind (at_gap gap) (part_pieces (new_part self)) outline) }
    {
        match self {
            New::Activity(node) => outline.put_behind(gap, &[Piece::activity(node)]),
            New::Choice { node, split, join } => outline.put_behind(
                gap,
                &[
                    Piece::end_of_block(split, NodeKind::XorSplit, join),
                    Piece::first_head(split, 0),
                    Piece::first_head(split, 1),
                    Piece::activity(node),
                    Piece::end_of_block(join, NodeKind::XorJoin, split),
                ],
            ),
        }
    }
}
