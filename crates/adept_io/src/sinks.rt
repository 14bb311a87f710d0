// What takes bytes.
ghost use Rattle.std.specs.{Prelude.{◌≡◌, ℕ, List, ◌≤◌, ◌<◌, length, Option, OnErr, IfOk}, Io.WritesAtMost, Io.KnownBytes.WriteAppends};
ghost use Rattle.adept_io.specs.Counts.{Rose};

use crate::Failed;

/// Takes bytes, in pieces of its own choice.
pub trait Sink {
    // The bytes that were written, where they are known.
    ghost written: { Self → Option (List ℕ) };

    // How many calls failed, up to u64's greatest.
    ghost faults: { Self → ℕ };

    /// Takes bytes from the front of `bytes`, at least one where there is one, and answers how many. A call that fails
    /// takes none.
    fn write(&mut self, bytes: &[u8]) -> Result<usize, Failed>
        ensures bound { WritesAtMost result bytes.now }
        ensures bytes { WriteAppends (written self.old) (written self.new) result bytes.now }
        ensures progress { IfOk result (λ n. 0 < length bytes.now → 0 < n) }
        ensures rose { OnErr result (Rose (faults self.old) (faults self.new)) }
        ensures never_falls { faults self.old ≤ faults self.new };
}
