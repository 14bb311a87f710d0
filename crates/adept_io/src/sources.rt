// What gives bytes.
ghost use Rattle.std.specs.{Prelude.{◌≡◌, ℕ, List, ◌≤◌, Option, OnErr, OnOk}, Io.ReadsAtMost, Io.KnownBytes.ReadConsumes};
ghost use Rattle.adept_io.specs.Counts.{Rose};

use crate::Failed;

/// Gives bytes, in pieces of its own choice.
pub trait Source {
    // The bytes that reads will give from here on, where they are known.
    ghost left: { Self → Option (List ℕ) };

    // How many calls failed, up to u64's greatest.
    ghost faults: { Self → ℕ };

    /// Moves bytes from the front of what is left to the front of `buf`, and answers how many. 0 is the end of the
    /// bytes, unless `buf` is empty. A call that fails takes none of what is left, and may write anything into `buf`.
    fn read(&mut self, buf: &mut [u8]) -> Result<usize, Failed>
        ensures bound { ReadsAtMost result buf.new }
        ensures bytes { ReadConsumes (left self.old) (left self.new) result buf.new }
        ensures rose { OnErr result (Rose (faults self.old) (faults self.new)) }
        ensures steady { OnOk result (faults self.new ≡ faults self.old) }
        ensures never_falls { faults self.old ≤ faults self.new };
}
