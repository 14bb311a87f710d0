// A source and a sink in memory that fail at the calls that they are told.
ghost use Rattle.std.specs.{Prelude.{◌≡◌, ℕ, List, [], ◌<◌, ◌≤◌, length, IfOk, OnOk, OnErr, IsOk, Some, is_err}, Io.{ReadsAtMost, WritesAtMost}, Io.KnownBytes.{ReadConsumes, WriteAppends}};
ghost use Rattle.adept_io.specs.{Counts.Rose, Memory.{SureBytes, FailingBytes, HeldBytes, filled, read_fails, read_count, after_read, write_fails, write_count, after_write}};

use crate::{Bytes, Calls, Failed, NoMemory, Sink, Source, SureSource};
use std::alloc::Global;
use std::marker::Model;

/// Bytes in memory, as a source that fails at the calls whose numbers are listed and at no other. Its first call has
/// number 1, and a number stays at u64's greatest once it is there.
#[derive(Drop)]
pub struct MemorySource {
    source: SureSource,
    fails: Calls,
    calls: u64,
    faults: u64,
}

impl Model for MemorySource {
    ghost use Rattle.adept_io.specs.Memory.{FailingBytes};

    ghost Value = { FailingBytes };

    ghost view = { λ a. record { left = a.source.left; piece = a.source.piece; fails = a.fails; calls = a.calls; faults = a.faults } };
}

impl MemorySource {
    /// A source of these bytes that hands over at most `piece` of them at each call. Takes no memory.
    pub fn new(bytes: Bytes, piece: usize, fails: Calls) -> MemorySource
        requires { 0 < piece }
        ensures { result ≡ record { left = bytes; piece = piece; fails = fails; calls = 0; faults = 0 } }
    {
        MemorySource {
            source: SureSource::new(bytes, piece),
            fails,
            calls: 0,
            faults: 0,
        }
    }

    /// How many reads failed, up to u64's greatest.
    pub fn faults(&self) -> u64
        ensures { result ≡ self.now.faults }
    {
        self.faults
    }
}

impl Source for MemorySource {
    ghost left = { λ s. Some s.left };

    ghost faults = { λ s. s.faults };

    /// As many bytes as the piece, the buffer and what is left allow, where the call's number is not listed.
    fn read(&mut self, buf: &mut [u8]) -> Result<usize, Failed>
        ensures bound { ReadsAtMost result buf.new }
        ensures bytes { ReadConsumes (Some self.old.left) (Some self.new.left) result buf.new }
        ensures rose { OnErr result (Rose self.old.faults self.new.faults) }
        ensures steady { OnOk result (self.new.faults ≡ self.old.faults) }
        ensures never_falls { self.old.faults ≤ self.new.faults }
        ensures fails { is_err result ≡ read_fails self.old }
        ensures count { IfOk result (λ n. n ≡ read_count self.old (length buf.old)) }
        ensures buffer { IfOk result (λ n. buf.new ≡ filled n self.old.left buf.old) }
        ensures untouched { OnErr result (buf.new ≡ buf.old) }
        ensures sure { self.old.fails ≡ [] → IsOk result × (self.new.faults ≡ self.old.faults) }
        ensures state { self.new ≡ after_read self.old (length buf.old) }
    {
        self.calls = self.calls.saturating_add(1);
        if self.fails.contains(self.calls) {
            self.faults = self.faults.saturating_add(1);
            return Err(Failed);
        }
        self.source.read(buf)
    }
}

/// A sink that keeps what it takes in memory of its own, up to a number of bytes. It fails at the calls whose numbers
/// are listed, where bytes find no room, and nowhere else. Its first call has number 1, and a number stays at u64's
/// greatest once it is there.
#[derive(Drop)]
pub struct MemorySink {
    bytes: Vec<u8>,
    room: usize,
    piece: usize,
    fails: Calls,
    calls: u64,
    faults: u64,
}

impl Model for MemorySink {
    ghost use Rattle.std.specs.Prelude.{◌+◌, ◌<◌, ◌≤◌, vec_len, vec_capacity};
    ghost use Rattle.adept_io.specs.Memory.{HeldBytes};

    ghost Value = { HeldBytes };

    ghost view = { λ a. record { written = a.bytes.items; room = a.room; piece = a.piece; fails = a.fails; calls = a.calls; faults = a.faults } };

    ghost invariant = { λ a. (vec_len a.bytes + a.room ≤ vec_capacity a.bytes) × (0 < a.piece) };
}

impl MemorySink {
    /// A sink with room for this many bytes that takes at most `piece` of them at each call. It takes its memory here.
    pub fn new(
        alloc: Global,
        room: usize,
        piece: usize,
        fails: Calls,
    ) -> Result<MemorySink, NoMemory>
        requires { 0 < piece }
        ensures { IfOk result (λ sink. sink ≡ record { written = []; room = room; piece = piece; fails = fails; calls = 0; faults = 0 }) }
    {
        Ok(MemorySink {
            bytes: Vec::with_capacity(alloc, room)?,
            room,
            piece,
            fails,
            calls: 0,
            faults: 0,
        })
    }

    /// What was written.
    pub fn bytes(&self) -> &[u8]
        ensures { result.now ≡ self.now.written }
    {
        self.bytes.as_slice()
    }

    /// How many writes failed, up to u64's greatest.
    pub fn faults(&self) -> u64
        ensures { result ≡ self.now.faults }
    {
        self.faults
    }
}

impl Sink for MemorySink {
    ghost written = { λ s. Some s.written };

    ghost faults = { λ s. s.faults };

    /// As many bytes as the piece and the room allow, where the call's number is not listed and some fit.
    fn write(&mut self, bytes: &[u8]) -> Result<usize, Failed>
        ensures bound { WritesAtMost result bytes.now }
        ensures bytes { WriteAppends (Some self.old.written) (Some self.new.written) result bytes.now }
        ensures progress { IfOk result (λ n. 0 < length bytes.now → 0 < n) }
        ensures rose { OnErr result (Rose self.old.faults self.new.faults) }
        ensures never_falls { self.old.faults ≤ self.new.faults }
        ensures fails { is_err result ≡ write_fails self.old (length bytes.now) }
        ensures count { IfOk result (λ n. n ≡ write_count self.old (length bytes.now)) }
        ensures sure { self.old.fails ≡ [] → length bytes.now ≤ self.old.room → IsOk result × (self.new.faults ≡ self.old.faults) }
        ensures state { self.new ≡ after_write self.old bytes.now }
    {
        self.calls = self.calls.saturating_add(1);
        if self.fails.contains(self.calls) || (!bytes.is_empty() && self.room == 0) {
            self.faults = self.faults.saturating_add(1);
            return Err(Failed);
        }
        let count = self.piece.min(bytes.len()).min(self.room);
        let (front, _) = bytes.split_at(count);
        self.bytes.extend_from_slice(front).unwrap();
        self.room -= count;
        Ok(count)
    }
}
