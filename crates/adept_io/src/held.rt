// A small store of bytes, which takes no memory.
ghost use Rattle.std.specs.Prelude.{◌≡◌, List, [], ◌++◌, ◌<◌, ◌≤◌, length, take, drop};

use std::marker::Model;

// How many bytes a store has room for.
const ROOM: usize = 4096;

// Bytes in their order: the first are taken away, and others are put behind the last.
#[derive(Drop)]
pub(crate) struct Held {
    bytes: [u8; ROOM],
    start: usize,
    end: usize,
}

impl Model for Held {
    ghost use Rattle.std.specs.Prelude.{◌≡◌, ℕ, List, ◌≤◌, take, drop};
    ghost use Rattle.adept_io.specs.declared.held.TheConstants.{ROOM};

    ghost Value = { List ℕ };

    ghost view = { λ a. drop a.start (take a.end a.bytes) };

    ghost invariant = { λ a. (a.start ≤ a.end) × (a.end ≤ ROOM) × (a.start ≡ a.end → a.end ≡ 0) };
}

impl Held {
    pub(crate) fn new() -> Held
        ensures { result ≡ [] }
    {
        Held {
            bytes: [0; ROOM],
            start: 0,
            end: 0,
        }
    }

    pub(crate) fn as_slice(&self) -> &[u8]
        ensures { result.now ≡ self.now }
    {
        let (held, _) = self.bytes.split_at(self.end);
        let (_, held) = held.split_at(self.start);
        held
    }

    // Takes the first bytes away.
    pub(crate) fn remove(&mut self, count: usize)
        requires { count ≤ length self.old }
        ensures { self.new ≡ drop count self.old }
    {
        self.start += count;
        if self.start == self.end {
            self.start = 0;
            self.end = 0;
        }
    }

    // Puts as many of the bytes behind the last as there is room for, and answers how many.
    pub(crate) fn add(&mut self, bytes: &[u8]) -> usize
        ensures bound { result ≤ length bytes.now }
        ensures added { self.new ≡ self.old ++ take result bytes.now }
        ensures progress { self.old ≡ [] → 0 < length bytes.now → 0 < result }
    {
        let count = bytes.len().min(ROOM - self.end);
        let (front, _) = bytes.split_at(count);
        self.bytes[self.end..self.end + count].copy_from_slice(front);
        self.end += count;
        count
    }
}
