// The bytes of a file with their history, which is there for proofs alone: it takes no memory.
ghost use Rattle.std.specs.Prelude.{◌≡◌, [], ◌∷◌, map};
ghost use Rattle.store_disk.specs.{History.{wrote, synced}, Entries.IsHeld};

use crate::history::Note;
use http_server::Log;
use std::marker::Model;

// Bytes that are held until something is written over them, and what was done to them.
#[derive(Drop)]
pub(crate) struct LoggedBytes {
    bytes: Option<Vec<u8>>,
    began: Log<Vec<u8>, Note>,
    changes: Log<Log<u8, ()>, Note>,
}

impl Model for LoggedBytes {
    ghost use Rattle.std.specs.Prelude.{map};
    ghost use Rattle.store_disk.specs.Entries.{IsHeld, LoggedHistory, first_of, past_of};

    ghost Value = { LoggedHistory };

    ghost view = { λ a. record {
      first = first_of (λ v. v.items) a.began.items;
      past = past_of (λ v. map (λ e. e.0) v.items) a.changes.items;
    } };

    ghost invariant = { λ a. IsHeld (λ v. v.items) a.bytes (first_of (λ v. v.items) a.began.items) (past_of (λ v. map (λ e. e.0) v.items) a.changes.items) };
}

impl LoggedBytes {
    // These bytes, which nothing changed yet.
    pub(crate) fn new(bytes: Vec<u8>) -> LoggedBytes
        ensures first { result.first ≡ bytes.items }
        ensures past { result.past ≡ [] }
    {
        LoggedBytes {
            began: Log::new().and(&bytes, &Note::Synced),
            changes: Log::new(),
            bytes: Some(bytes),
        }
    }

    // The bytes, where nothing was written yet.
    pub(crate) fn as_slice(&self) -> Option<&[u8]>
        ensures { IsHeld (λ bytes. bytes.now) result self.now.first self.now.past }
    {
        match &self.bytes {
            Some(bytes) => Some(bytes.as_slice()),
            None => None,
        }
    }

    // Lets go of the bytes, which others are written over.
    pub(crate) fn write(&mut self, at: u64, bytes: &[u8])
        ensures first { self.new.first ≡ self.old.first }
        ensures past { self.new.past ≡ wrote at bytes.now ∷ self.old.past }
    {
        self.bytes = None;
        let len = bytes.len();
        self.changes = self.changes.and(&noted(bytes), &Note::Wrote { at, len });
    }

    // Notes a sync.
    pub(crate) fn sync(&mut self)
        ensures first { self.new.first ≡ self.old.first }
        ensures past { self.new.past ≡ synced ∷ self.old.past }
    {
        self.changes = self.changes.and(&Log::new(), &Note::Synced);
    }
}

// The bytes as proofs see them. It does nothing.
fn noted(bytes: &[u8]) -> Log<u8, ()>
    ensures { map (λ e. e.0) result.items ≡ bytes.now }
{
    let mut noted = Log::new();
    for byte in bytes {
        noted = noted.and(byte, &());
    }
    noted
}
