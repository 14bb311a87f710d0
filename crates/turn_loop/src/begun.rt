// The bytes with which an item has begun, up to a limit.
ghost use Rattle.std.specs.Prelude.{◌≡◌, ◌+◌, ◌≤◌, ◌++◌, [], length, take, OnOk, IsTrue, ◌↔◌, ◌<◌};

use crate::limits::MAX_ITEM;
use adept_io::NoMemory;
use std::alloc::Global;
use std::marker::Model;

/// The bytes with which an item has begun, as far as they have to be kept: of more than an item may have there is one more.
#[derive(Drop)]
pub struct Begun {
    bytes: Vec<u8>,
}

impl Model for Begun {
    ghost use Rattle.std.specs.Prelude.{ℕ, List, length, ◌≤◌, ◌+◌};

    ghost Value = { List ℕ };

    ghost view = { λ a. a.bytes.items };

    ghost invariant = { λ a. length a.bytes.items ≤ 8388609 };
}

impl Begun {
    /// No bytes. Takes no memory.
    pub fn new(alloc: Global) -> Begun
        ensures { result ≡ [] }
    {
        Begun {
            bytes: Vec::new(alloc),
        }
    }

    /// More bytes of the item.
    pub fn extend(&mut self, bytes: &[u8]) -> Result<(), NoMemory>
        ensures { OnOk result (self.new ≡ take (MAX_ITEM + 1) (self.old ++ bytes.now)) }
    {
        let room = MAX_ITEM + 1 - self.bytes.len();
        let (front, _) = bytes.split_at(room.min(bytes.len()));
        self.bytes.extend_from_slice(front)?;
        Ok(())
    }

    /// What is kept.
    pub fn as_slice(&self) -> &[u8]
        ensures { result.now ≡ self.now }
    {
        &self.bytes
    }

    /// Whether the item has more bytes than it may have.
    pub fn is_too_long(&self) -> bool
        ensures { IsTrue result ↔ (MAX_ITEM < length self.now) }
    {
        self.bytes.len() > MAX_ITEM
    }

    /// The item is done: the next one begins with no bytes.
    pub fn clear(&mut self)
        ensures { self.new ≡ [] }
    {
        self.bytes.clear();
    }
}
