// Trails of which the reads are counted.
ghost use Rattle.std.specs.{Prelude.{◌≡◌, ℕ, ◌+◌, ◌≤◌, []}, Borrow.sem, Io.BufRead.Rests, Option.option_copied};
ghost use Rattle.wsm_schema.specs.Trail.{TrailModel};
ghost use Rattle.wsm_trail.specs.{EntryAt.entry_at, contracts.reads.CountedTrail.the_row};
ghost use mir.Syntax.{named};

use crate::trails::Trail;
use std::sync::ledger::Ledger;
use wsm_lists::Steps;
use wsm_schema::Entry;

/// A trail of which entries are read, one read at a time. Who has no other way to a trail reads no more of it than its count
/// says.
pub trait TrailReads {
    // The trail that is read.
    ghost kept: { Self → TrailModel };

    // How many entries were read.
    ghost reads: { Self → ℕ };

    /// The entry at that position.
    fn entry(&mut self, position: u32) -> Option<&Entry>
        ensures entry { option_copied result ≡ entry_at position (kept self.old).entries }
        ensures* after { sem 𝓛 (Rests Self.row self.entry (λ new. (kept new ≡ kept self.old) × (reads self.old ≤ reads new) × (reads new ≤ reads self.old + 1))) };
}

impl TrailReads for Trail {
    ghost kept = { λ t. t.trail };

    ghost reads = { λ t. 0 };

    fn entry(&mut self, position: u32) -> Option<&Entry> {
        Trail::entry(self, position)
    }
}

/// A trail, of which each read is a step.
#[derive(Drop)]
pub struct CountedTrail<'a, L: Ledger> {
    pub trail: &'a Trail,
    pub steps: &'a mut Steps<L>,
}

impl<'a, L: Ledger> TrailReads for CountedTrail<'a, L> {
    ghost kept = { λ t. t.trail.now.trail };

    ghost reads = { λ t. t.steps.now };

    fn entry(&mut self, position: u32) -> Option<&Entry>
        ensures entry { option_copied result ≡ entry_at position self.old.trail.now.trail.entries }
        ensures* after { sem 𝓛 (Rests (the_row (record { mir = named 0; lft = [] }) L.row L.Ledger) self.entry (λ new. (new.trail.now.trail ≡ self.old.trail.now.trail) × (new.steps.now ≡ self.old.steps.now + 1))) }
    {
        self.steps.tick();
        self.trail.entry(position)
    }
}
