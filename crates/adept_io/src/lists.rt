// Lists of bytes and of call numbers.
ghost use Rattle.std.specs.{Prelude.{◌≡◌, List, [], ◌∷◌, ◌++◌, ◌==◌, ◌↔◌, ℕ, length, slice_get, IfOk, OnOk, OnErr, IsTrue, Contains}, Slice.Iter.iter_rest};
ghost use Rattle.adept_io.specs.Counts.{is_listed};

use crate::NoMemory;
use std::alloc::Global;
use std::marker::Model;
use std::slice::Iter;

/// A list of bytes.
#[derive(Drop)]
pub struct Bytes {
    items: Vec<u8>,
}

impl Model for Bytes {
    ghost Value = { List ℕ };

    ghost view = { λ a. a.items.items };
}

impl Bytes {
    /// No bytes. Takes no memory.
    pub fn new(alloc: Global) -> Bytes
        ensures { result ≡ [] }
    {
        Bytes {
            items: Vec::new(alloc),
        }
    }

    /// The bytes of a vector. Takes no memory.
    pub fn from_vec(items: Vec<u8>) -> Bytes
        ensures { result ≡ items.items }
    {
        Bytes { items }
    }

    /// The bytes as a vector. Takes no memory.
    pub fn into_vec(self) -> Vec<u8>
        ensures { result.items ≡ self }
    {
        let Bytes { items } = self;
        items
    }

    pub fn len(&self) -> usize
        ensures { result ≡ length self.now }
    {
        self.items.len()
    }

    pub fn is_empty(&self) -> bool
        ensures { result ≡ (length self.now == 0) }
    {
        self.items.is_empty()
    }

    /// The byte at an index, from 0.
    pub fn get(&self, index: usize) -> Option<u8>
        ensures { result ≡ slice_get self.now index }
    {
        self.items.get(index).copied()
    }

    pub fn iter(&self) -> Iter<'_, u8>
        ensures { iter_rest result ≡ self.now }
    {
        self.items.iter()
    }

    pub fn as_slice(&self) -> &[u8]
        ensures { result.now ≡ self.now }
    {
        self.items.as_slice()
    }

    /// Puts a byte at the end.
    pub fn push(&mut self, byte: u8) -> Result<(), NoMemory>
        ensures ok { OnOk result (self.new ≡ self.old ++ byte ∷ []) }
        ensures err { OnErr result (self.new ≡ self.old) }
    {
        self.items.push(byte)?;
        Ok(())
    }
}

/// A list of call numbers. An object's first call has number 1.
#[derive(Drop)]
pub struct Calls {
    items: Vec<u64>,
}

impl Model for Calls {
    ghost Value = { List ℕ };

    ghost view = { λ a. a.items.items };
}

impl Calls {
    /// No calls. Takes no memory.
    pub fn new(alloc: Global) -> Calls
        ensures { result ≡ [] }
    {
        Calls {
            items: Vec::new(alloc),
        }
    }

    /// The call numbers of a vector. Takes no memory.
    pub fn from_vec(items: Vec<u64>) -> Calls
        ensures { result ≡ items.items }
    {
        Calls { items }
    }

    /// The call numbers as a vector. Takes no memory.
    pub fn into_vec(self) -> Vec<u64>
        ensures { result.items ≡ self }
    {
        let Calls { items } = self;
        items
    }

    pub fn len(&self) -> usize
        ensures { result ≡ length self.now }
    {
        self.items.len()
    }

    pub fn is_empty(&self) -> bool
        ensures { result ≡ (length self.now == 0) }
    {
        self.items.is_empty()
    }

    /// The call number at an index, from 0.
    pub fn get(&self, index: usize) -> Option<u64>
        ensures { result ≡ slice_get self.now index }
    {
        self.items.get(index).copied()
    }

    pub fn iter(&self) -> Iter<'_, u64>
        ensures { iter_rest result ≡ self.now }
    {
        self.items.iter()
    }

    pub fn as_slice(&self) -> &[u64]
        ensures { result.now ≡ self.now }
    {
        self.items.as_slice()
    }

    /// Whether a call number is listed.
    pub fn contains(&self, call: u64) -> bool
        ensures { result ≡ is_listed self.now call }
    {
        self.items.contains(&call)
    }

    /// Puts a call number at the end.
    pub fn push(&mut self, call: u64) -> Result<(), NoMemory>
        ensures ok { OnOk result (self.new ≡ self.old ++ call ∷ []) }
        ensures err { OnErr result (self.new ≡ self.old) }
    {
        self.items.push(call)?;
        Ok(())
    }
}
