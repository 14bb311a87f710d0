// The marks of nodes, and readers of them that count.
ghost use Rattle.std.specs.Prelude.{◌≡◌, ℕ, List, ◌+◌, ◌≤◌};
ghost use Rattle.wsm_lists.specs.ByNumber.{item_at};
ghost use Rattle.wsm_schema.specs.declared.marks.Mark.{Mark};

use std::sync::ledger::Ledger;
use wsm_lists::{ByFirst, NumberedRows, Steps, Table};
use wsm_schema::Mark;

/// The marks of nodes, ascending by node, in reserved room.
pub type Marks = NumberedRows<Mark>;

/// What becomes of the marks of some nodes, ascending by node: each gets a mark, or has none any more.
pub type Changes = Table<ByFirst<Option<Mark>>>;

/// What can be read of marks, and counts it.
pub trait MarkReads {
    // The marks that are read.
    ghost kept: { Self → List (ℕ × Mark) };

    // How many marks were read.
    ghost reads: { Self → ℕ };

    /// The mark of a node. It is at most one read more.
    fn get(&mut self, node: u32) -> Option<Mark>
        ensures mark { result ≡ item_at node (kept self.old) }
        ensures same { kept self.new ≡ kept self.old }
        ensures rises { reads self.old ≤ reads self.new }
        ensures count { reads self.new ≤ reads self.old + 1 };
}

/// Marks, of which each read is a step.
#[derive(Drop)]
pub struct CountedMarks<'a, L: Ledger> {
    pub marks: &'a Marks,
    pub steps: &'a mut Steps<L>,
}

impl<'a, L: Ledger> MarkReads for CountedMarks<'a, L> {
    ghost kept = { λ m. m.marks.now.rows };

    ghost reads = { λ m. m.steps.now };

    fn get(&mut self, node: u32) -> Option<Mark>
        ensures mark { result ≡ item_at node self.old.marks.now.rows }
        ensures same { self.new.marks.now.rows ≡ self.old.marks.now.rows }
        ensures rises { self.old.steps.now ≤ self.new.steps.now }
        ensures count { self.new.steps.now ≤ self.old.steps.now + 1 }
        ensures step { self.new.steps.now ≡ self.old.steps.now + 1 }
    {
        self.steps.tick();
        self.marks.get(node).copied()
    }
}
