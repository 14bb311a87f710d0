// A source and a sink that never fail.
ghost use Rattle.std.specs.{Prelude.{◌≡◌, ℕ, List, ◌+◌, ◌<◌, ◌≤◌, ◌^◌, ◌-◌, length, min, OnErr, IfOk, Ok, Some, None}, Io.{ReadsAtMost, WritesAtMost}, Io.KnownBytes.{ReadConsumes, WriteAppends}};
ghost use Rattle.adept_io.specs.{Counts.Rose, Memory.{SureBytes, sure_count, after_sure_read, filled}};

use crate::{Bytes, Failed, Sink, Source};
use std::marker::Model;

/// Bytes in memory, as a source that never fails.
#[derive(Drop)]
pub struct SureSource {
    bytes: Bytes,
    at: usize,
    piece: usize,
}

impl Model for SureSource {
    ghost use Rattle.std.specs.Prelude.{◌≤◌, ◌<◌, drop, length};
    ghost use Rattle.adept_io.specs.Memory.{SureBytes};

    ghost Value = { SureBytes };

    ghost view = { λ a. record { left = drop a.at a.bytes; piece = a.piece } };

    ghost invariant = { λ a. (a.at ≤ length a.bytes) × (0 < a.piece) };
}

impl SureSource {
    /// A source of these bytes that hands over at most `piece` of them at each call. Takes no memory.
    pub fn new(bytes: Bytes, piece: usize) -> SureSource
        requires { 0 < piece }
        ensures { result ≡ record { left = bytes; piece = piece } }
    {
        SureSource {
            bytes,
            at: 0,
            piece,
        }
    }
}

impl Source for SureSource {
    ghost left = { λ s. Some s.left };

    ghost faults = { λ _. 0 };

    /// As many bytes as the piece, the buffer and what is left allow.
    fn read(&mut self, buf: &mut [u8]) -> Result<usize, Failed>
        ensures bound { ReadsAtMost result buf.new }
        ensures bytes { ReadConsumes (Some self.old.left) (Some self.new.left) result buf.new }
        ensures exact { result ≡ Ok (sure_count self.old (length buf.old)) }
        ensures state { self.new ≡ after_sure_read self.old (length buf.old) }
        ensures buffer { buf.new ≡ filled (sure_count self.old (length buf.old)) self.old.left buf.old }
    {
        let (_, left) = self.bytes.as_slice().split_at(self.at);
        let count = self.piece.min(buf.len()).min(left.len());
        let (front, _) = left.split_at(count);
        buf[..count].copy_from_slice(front);
        self.at += count;
        Ok(count)
    }
}

/// A sink that never fails. It counts the bytes that it takes and keeps none.
#[derive(Drop)]
pub struct SureSink {
    count: u64,
}

impl Model for SureSink {
    ghost use Rattle.std.specs.Prelude.{ℕ};

    ghost Value = { ℕ };

    ghost view = { λ a. a.count };
}

impl SureSink {
    /// A sink that has taken nothing. Takes no memory.
    pub fn new() -> SureSink
        ensures { result ≡ 0 }
    {
        SureSink { count: 0 }
    }

    /// How many bytes were taken, up to u64's greatest.
    pub fn count(&self) -> u64
        ensures { result ≡ self.now }
    {
        self.count
    }
}

impl Sink for SureSink {
    ghost written = { λ _. None };

    ghost faults = { λ _. 0 };

    /// All of the bytes.
    fn write(&mut self, bytes: &[u8]) -> Result<usize, Failed>
        ensures exact { result ≡ Ok (length bytes.now) }
        ensures state { self.new ≡ min (self.old + length bytes.now) (2 ^ 64 - 1) }
    {
        self.count = self.count.saturating_add(bytes.len() as u64);
        Ok(bytes.len())
    }
}
