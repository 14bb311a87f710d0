// A sink in memory that grows.
ghost use Rattle.std.specs.{Prelude.{◌≡◌, ◌≤◌, List, ℕ, [], ◌++◌, length, OnErr, OnOk, IfOk, Ok, Some}, Io.WritesAtMost, Io.KnownBytes.WriteAppends};
ghost use Rattle.adept_io.specs.Counts.{Rose};
ghost use Rattle.text_follower.specs.Grown.{Grown};

use adept_io::{Failed, Sink};
use std::alloc::Global;
use std::marker::Model;

/// A sink that keeps what it takes in memory, and takes more where it needs it. It fails only where there is none.
#[derive(Drop)]
pub struct GrowingSink {
    bytes: Vec<u8>,
    faults: u64,
}

impl Model for GrowingSink {
    ghost use Rattle.text_follower.specs.Grown.{Grown};

    ghost Value = { Grown };

    ghost view = { λ a. record { bytes = a.bytes.items; faults = a.faults } };
}

impl GrowingSink {
    /// A sink that has taken nothing. Takes no memory.
    pub fn new(alloc: Global) -> GrowingSink
        ensures { result ≡ record { bytes = []; faults = 0 } }
    {
        GrowingSink {
            bytes: Vec::new(alloc),
            faults: 0,
        }
    }

    /// What was taken.
    pub fn as_slice(&self) -> &[u8]
        ensures { result.now ≡ self.now.bytes }
    {
        self.bytes.as_slice()
    }
}

impl Sink for GrowingSink {
    ghost written = { λ s. Some s.bytes };

    ghost faults = { λ s. s.faults };

    /// All of the bytes, or none where there is no memory for them.
    fn write(&mut self, bytes: &[u8]) -> Result<usize, Failed>
        ensures all { IfOk result (λ n. n ≡ length bytes.now) }
        ensures bound { WritesAtMost result bytes.now }
        ensures bytes { WriteAppends (Some self.old.bytes) (Some self.new.bytes) result bytes.now }
        ensures rose { OnErr result (Rose self.old.faults self.new.faults) }
        ensures never_falls { self.old.faults ≤ self.new.faults }
    {
        match self.bytes.extend_from_slice(bytes) {
            Ok(()) => Ok(bytes.len()),
            Err(_) => {
                self.faults = self.faults.saturating_add(1);
                Err(Failed)
            }
        }
    }
}
