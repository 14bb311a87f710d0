// An AND block round an item.
ghost use Rattle.std.specs.Prelude.{◌≡◌, IfOk};
ghost use Rattle.wsm_ops.specs.{Outline.{at_gap, IsOnce}, Wrapped.{opened, wrapped, closed}};
ghost use Rattle.wsm_ops.specs.declared.operations.Gap.TheVariants.{After};

use crate::operations::Gap;
use crate::outlines::Outline;
use crate::pieces::Piece;
use wsm_schema::{NoMemory, NodeKind};

/// A new AND block round the item from `first` to `last`, with an activity beside it.
#[derive(Clone, Copy)]
pub struct Wrap {
    pub node: u32,
    pub split: u32,
    pub join: u32,
    pub first: u32,
    pub last: u32,
}

impl Wrap {
    /// The outline with the block round the item.
    pub fn put(&self, outline: Outline) -> Result<Outline, NoMemory>
        requires first { IsOnce (at_gap (After self.now.first)) outline }
        requires last { IsOnce (at_gap (After self.now.last)) (opened self.now outline) }
        ensures { IfOk result (λ new. new ≡ wrapped self.now outline) }
    {
        self.put_behind(self.put_before(outline)?)
    }

    // What stands before the item.
    fn put_before(&self, outline: Outline) -> Result<Outline, NoMemory>
        requires { IsOnce (at_gap (After self.now.first)) outline }
        ensures { IfOk result (λ new. new ≡ opened self.now outline) }
    {
        outline.put_before(
            self.first,
            &[
                Piece::end_of_block(self.split, NodeKind::AndSplit, self.join),
                Piece::first_head(self.split, 0),
            ],
        )
    }

    // What stands behind the item.
    fn put_behind(&self, outline: Outline) -> Result<Outline, NoMemory>
        requires { IsOnce (at_gap (After self.now.last)) outline }
        ensures { IfOk result (λ new. new ≡ closed self.now outline) }
    {
        outline.put_behind(
            Gap::After(self.last),
            &[
                Piece::first_head(self.split, 1),
                Piece::activity(self.node),
                Piece::end_of_block(self.join, NodeKind::AndJoin, self.split),
            ],
        )
    }
}
