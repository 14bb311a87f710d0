// What was read and not yet worked.
ghost use Rattle.std.specs.{Prelude.{◌≡◌, ◌≢◌, ◌⊎◌, ◌==◌, ◌<◌, ◌≤◌, [], length, drop, IfOk, IfErr, OnOk, OnErr, IsErrOf}, Io.KnownBytes.Consumes};
ghost use Rattle.adept_io.specs.Counts.{Rose};
ghost use Rattle.turn_loop.specs.Waiting.{Filled, Unworked};

use crate::faults::TalkFault;
use crate::limits::{MAX_INPUT, MAX_READ};
use adept_io::{NoMemory, Source};
use std::alloc::Global;
use std::marker::Model;

// What was read and not yet worked: at most the bytes of one read.
#[derive(Drop)]
pub(crate) struct Waiting {
    bytes: Vec<u8>,
    from: usize,
    to: usize,
    read: u64,
}

impl Model for Waiting {
    ghost use Rattle.std.specs.Prelude.{◌≡◌, ◌+◌, ◌^◌, ◌≤◌, take, drop, length};
    ghost use Rattle.turn_loop.specs.Waiting.{Unworked};

    ghost Value = { Unworked };

    ghost view = { λ a. record { bytes = drop a.from (take a.to a.bytes.items); read = a.read } };

    ghost invariant = { λ a. (a.from ≤ a.to) × (a.to ≤ length a.bytes.items) × (length a.bytes.items ≡ 65536) × (a.read ≤ 2 ^ 63 + 65536) };
}

// Zeros, as room for what a read gives.
fn zeros(alloc: Global, len: usize) -> Result<Vec<u8>, NoMemory>
    ensures { IfOk result (λ zeros. length zeros.items ≡ len) }
{
    vec![in alloc; 0; len]
}

impl Waiting {
    pub(crate) fn new(alloc: Global) -> Result<Waiting, NoMemory>
        ensures { IfOk result (λ waiting. waiting ≡ record { bytes = []; read = 0 }) }
    {
        let bytes = zeros(alloc, MAX_READ)?;
        Ok(Waiting {
            bytes,
            from: 0,
            to: 0,
            read: 0,
        })
    }

    pub(crate) fn is_empty(&self) -> bool
        ensures { result ≡ (length self.now.bytes == 0) }
    {
        self.from == self.to
    }

    pub(crate) fn as_slice(&self) -> &[u8]
        ensures { result.now ≡ self.now.bytes }
    {
        let (front, _) = self.bytes.split_at(self.to);
        let (_, waiting) = front.split_at(self.from);
        waiting
    }

    // Takes the first bytes away.
    pub(crate) fn remove(&mut self, count: usize)
        requires { count ≤ length self.old.bytes }
        ensures bytes { self.new.bytes ≡ drop count self.old.bytes }
        ensures read { self.new.read ≡ self.old.read }
    {
        self.from += count;
    }

    // Reads a piece where nothing waits, unless more bytes were read than a talk may have.
    pub(crate) fn fill<S: Source>(&mut self, source: &mut S) -> Result<(), TalkFault>
        ensures filled { OnOk result (Filled (S.left source.old) (S.left source.new) self.old self.new) }
        ensures none { OnErr result (self.old.bytes ≡ []) }
        ensures nothing { OnErr result (Consumes (S.left source.old) (S.left source.new) []) }
        ensures causes { IfErr result (λ e. (e ≡ TalkFault.Unread) ⊎ (e ≡ TalkFault.TooLong)) }
        ensures too_long { IsErrOf result TalkFault.TooLong → MAX_INPUT < self.old.read }
        ensures rose { IsErrOf result TalkFault.Unread → Rose (S.faults source.old) (S.faults source.new) }
        ensures never_falls { S.faults source.old ≤ S.faults source.new }
    {
        if self.from < self.to {
            return Ok(());
        }
        if self.read > MAX_INPUT {
            return Err(TalkFault::TooLong);
        }
        match source.read(&mut self.bytes) {
            Err(_) => Err(TalkFault::Unread),
            Ok(count) => {
                self.from = 0;
                self.to = count;
                self.read += count as u64;
                Ok(())
            }
        }
    }
}
