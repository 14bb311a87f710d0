// Trails that are kept.
ghost use Rattle.std.specs.{Prelude.{◌≡◌, ℕ, ◌+◌, ◌<◌, ◌≤◌, ◌^◌, OnOk, IfOk, length}, Option.option_copied};
ghost use Rattle.wsm_lists.specs.{Keys.first, Rows.Ascends, Values.value_in};
ghost use Rattle.wsm_schema.specs.Trail.{pushed, value_below, cut_by};
ghost use Rattle.wsm_trail.specs.{Cuts.StaysBelow, LastWrites.{noted_entries, values_at}, TrailWithRoom.Rises, Withdrawn.{starts_of, withdrawn}};

use crate::reads::TrailReads;
use crate::trails::Trail;
use std::alloc::Global;
use wsm_schema::{Entry, NoMemory, Nodes, Value, Writes};

/// A trail that grows, and of which only a look at an entry raises the count of reads.
pub trait TrailKeep: TrailReads + Drop {
    // How many entries may come before memory is taken.
    ghost spare: { Self → ℕ };

    /// The position of the entry that is pushed next, above those of all entries.
    fn next(&self) -> u32
        ensures next { result ≡ (Self.kept self.now).next }
        ensures rises { Rises 1 result (Self.kept self.now).entries };

    /// Room for so many more entries.
    fn reserve(&mut self, more: usize) -> Result<(), NoMemory>
        ensures same { Self.kept self.new ≡ Self.kept self.old }
        ensures room { OnOk result (more ≤ spare self.new) }
        ensures kept { spare self.old ≤ spare self.new }
        ensures count { Self.reads self.new ≡ Self.reads self.old };

    /// One more entry, at the next position. Takes no memory.
    fn push(&mut self, entry: Entry)
        requires room { 0 < spare self.old }
        requires position { (Self.kept self.old).next + 1 < 2 ^ 32 }
        ensures trail { Self.kept self.new ≡ pushed entry (Self.kept self.old) }
        ensures spare { spare self.new + 1 ≡ spare self.old }
        ensures count { Self.reads self.new ≡ Self.reads self.old };

    /// The trail without what was started and ended in a loop with these nodes: of that only the writes stay, at their positions. Takes no memory.
    fn cut(&mut self, body: &Nodes)
        ensures trail { Self.kept self.new ≡ cut_by body.now (Self.kept self.old) }
        ensures spare { spare self.old ≤ spare self.new }
        ensures count { Self.reads self.new ≡ Self.reads self.old };

    /// The same cut, where no entry below the position is of the loop. Takes no memory.
    fn cut_from(&mut self, position: u32, body: &Nodes)
        requires { StaysBelow position body.now (Self.kept self.old).entries }
        ensures trail { Self.kept self.new ≡ cut_by body.now (Self.kept self.old) }
        ensures spare { spare self.old ≤ spare self.new }
        ensures count { Self.reads self.new ≡ Self.reads self.old }
    {
        let _ = position;
        self.cut(body);
    }

    /// The trail without the start of that node. Takes no memory.
    fn drop_start(&mut self, node: u32)
        requires one { length (starts_of node (Self.kept self.old).entries) ≡ 1 }
        ensures trail { Self.kept self.new ≡ withdrawn node (Self.kept self.old) }
        ensures spare { spare self.old ≤ spare self.new }
        ensures count { Self.reads self.new ≡ Self.reads self.old };

    /// The value of the element's last write.
    fn value(&self, element: u32) -> Option<&Value>
        ensures { option_copied result ≡ value_below element (Self.kept self.now).next (Self.kept self.now).entries };

    /// The value of the last write of each element that was written.
    fn values(&self, alloc: Global) -> Result<Writes, NoMemory>
        ensures rows { IfOk result (λ values. values ≡ values_at (Self.kept self.now).entries (noted_entries (Self.kept self.now).entries)) }
        ensures ascends { IfOk result (Ascends first) }
        ensures values { IfOk result (λ values. (element : ℕ) → value_in element values ≡ value_below element (Self.kept self.now).next (Self.kept self.now).entries) };
}

impl TrailKeep for Trail {
    ghost spare = { λ t. t.spare };

    fn next(&self) -> u32 {
        Trail::next(self)
    }

    fn reserve(&mut self, more: usize) -> Result<(), NoMemory> {
        Trail::reserve(self, more)
    }

    fn push(&mut self, entry: Entry) {
        Trail::push(self, entry);
    }

    fn cut(&mut self, body: &Nodes) {
        Trail::cut(self, body);
    }

    fn cut_from(&mut self, position: u32, body: &Nodes) {
        Trail::cut_from(self, position, body);
    }

    fn drop_start(&mut self, node: u32) {
        Trail::drop_start(self, node);
    }

    fn value(&self, element: u32) -> Option<&Value> {
        Trail::value(self, element)
    }

    fn values(&self, alloc: Global) -> Result<Writes, NoMemory> {
        Trail::values(self, alloc)
    }
}
