// Marks as changes have them, over marks that are kept.
ghost use Rattle.std.specs.{Prelude.{◌≡◌, ◌+◌, ◌≤◌, ℕ, List, Option}, Option.option_copied};
ghost use Rattle.wsm_lists.specs.ByNumber.{item_at};
ghost use Rattle.wsm_schema.specs.declared.marks.Mark.{Mark};
ghost use Rattle.wsm_walk.specs.{Kept.mark_or, Listed.{said, seen}};

use wsm_lists::{ByFirst, GrowingTable};
use wsm_rules::{Mark, MarkReads};

/// Changes while they are found.
pub type Overlay = GrowingTable<ByFirst<Option<Mark>>>;

/// What is told of the marks of some nodes: that a node has a mark, or that it has none.
pub trait MarkRows {
    // A row for each of these nodes.
    ghost rows: { Self → List (ℕ × Option Mark) };

    /// The row of a node, where it has one.
    fn row(&self, node: u32) -> Option<&Option<Mark>>
        ensures { option_copied result ≡ item_at node (rows self.now) };
}

impl MarkRows for Overlay {
    ghost rows = { λ rows. rows };

    fn row(&self, node: u32) -> Option<&Option<Mark>> {
        match self.find((node, 0)) {
            Some(row) => Some(&row.1),
            None => None,
        }
    }
}

/// The mark of a node as the changes have it, else as it is kept.
pub fn mark_at<M: MarkReads, R: MarkRows>(marks: &mut M, changes: &R, node: u32) -> Mark
    ensures mark { result ≡ seen (M.kept marks.old) (R.rows changes.now) node }
    ensures same { M.kept marks.new ≡ M.kept marks.old }
    ensures rises { M.reads marks.old ≤ M.reads marks.new }
    ensures count { M.reads marks.new ≤ M.reads marks.old + 1 }
{
    match changes.row(node) {
        Some(mark) => or_blank(*mark),
        None => or_blank(marks.get(node)),
    }
}

/// The mark, or one with nothing in it.
pub fn or_blank(mark: Option<Mark>) -> Mark
    ensures { result ≡ mark_or mark }
{
    match mark {
        Some(mark) => mark,
        None => Mark {
            ready_at: None,
            skipped_at: None,
            started: None,
            ended: None,
            choice: None,
            again: None,
        },
    }
}

/// The mark, where it says something.
pub fn said(mark: Mark) -> Option<Mark>
    ensures { result ≡ said mark }
{
    let timed = mark.ready_at.is_some() || mark.skipped_at.is_some();
    let told = mark.started.is_some() || mark.ended.is_some();
    if timed || told || mark.choice.is_some() || mark.again.is_some() {
        Some(mark)
    } else {
        None
    }
}
