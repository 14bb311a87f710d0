// A text, as a sink.
ghost use Rattle.std.specs.{Prelude.{◌≡◌, ◌≤◌, length, OnErr, IfOk, Some}, Io.WritesAtMost, Io.KnownBytes.WriteAppends};
ghost use Rattle.adept_io.specs.Counts.{Rose};
ghost use Rattle.text_follower.specs.Grown.{Grown};

use adept_io::{Failed, Sink};
use std::marker::Model;

// A text that gets all that is put behind it. It fails only where there is not enough memory.
#[derive(Drop)]
pub(crate) struct TextSink {
    text: Vec<u8>,
    faults: u64,
}

impl Model for TextSink {
    ghost use Rattle.text_follower.specs.Grown.{Grown};

    ghost Value = { Grown };

    ghost view = { λ a. record { bytes = a.text.items; faults = a.faults } };
}

impl TextSink {
    // What is put goes behind the text. Takes no memory.
    pub(crate) fn behind(text: Vec<u8>) -> TextSink
        ensures { result ≡ record { bytes = text.items; faults = 0 } }
    {
        TextSink { text, faults: 0 }
    }

    // The text with what was put.
    pub(crate) fn into_text(self) -> Vec<u8>
        ensures { result.items ≡ self.bytes }
    {
        self.text
    }
}

impl Sink for TextSink {
    ghost use Rattle.std.specs.Prelude.{Some};

    ghost written = { λ s. Some s.bytes };

    ghost faults = { λ s. s.faults };

    // All of the bytes, or none where there is no memory for them.
    fn write(&mut self, bytes: &[u8]) -> Result<usize, Failed>
        ensures all { IfOk result (λ n. n ≡ length bytes.now) }
        ensures bound { WritesAtMost result bytes.now }
        ensures bytes { WriteAppends (Some self.old.bytes) (Some self.new.bytes) result bytes.now }
        ensures rose { OnErr result (Rose self.old.faults self.new.faults) }
        ensures never_falls { self.old.faults ≤ self.new.faults }
    {
        match self.text.extend_from_slice(bytes) {
            Ok(()) => Ok(bytes.len()),
            Err(_) => {
                self.faults = self.faults.saturating_add(1);
                Err(Failed)
            }
        }
    }
}
