// Names with their numbers.
ghost use Rattle.std.specs.{Prelude.{◌≡◌, ◌<◌, ◌^◌, ◌+◌, [], ◌∷◌, ◌++◌, length, take, slice_get, true, false, OnOk, IfOk, IfSome, codes}, Option.option_copied};
ghost use Rattle.file_names.specs.{Names.{is_listed, noted, number_of, place_of}, ShortNames.is_short_name};

use crate::names::{Name64, Names};
use file_words::{NameWord, NoMemory};
use indexmap::IndexSet;
use std::alloc::Global;
use std::marker::Model;

/// Names in order of first occurrence, found by their bytes.
#[derive(Drop)]
pub struct NameTable {
    set: IndexSet<Vec<u8>>,
}

impl Model for NameTable {
    ghost use Rattle.std.specs.Prelude.{◌≡◌, ◌<◌, ◌^◌, ℕ, List, length, map, true};
    ghost use Rattle.std.specs.List.{list_all};
    ghost use Rattle.file_names.specs.ShortNames.{is_short_name};

    ghost Value = { List (List ℕ) };

    ghost view = { λ a. map (λ v. v.items) a.set.keys };

    ghost invariant = { λ a. (list_all is_short_name (map (λ v. v.items) a.set.keys) ≡ true) × (length a.set.keys < 2 ^ 32) };
}

impl NameTable {
    /// No names.
    pub fn new(alloc: Global) -> NameTable
        ensures { result ≡ [] }
    {
        NameTable {
            set: IndexSet::new(alloc),
        }
    }

    /// The names `start` and `finish`, with the numbers 0 and 1.
    pub fn start_and_finish(alloc: Global) -> Result<NameTable, NoMemory>
        ensures { IfOk result (λ names. names ≡ codes "start" ∷ codes "finish" ∷ []) }
    {
        let mut set = IndexSet::new(alloc);
        set.insert(Vec::from_slice(alloc, b"start".as_slice())?)?;
        set.insert(Vec::from_slice(alloc, b"finish".as_slice())?)?;
        Ok(NameTable { set })
    }

    /// How many names there are.
    pub fn len(&self) -> usize
        ensures len { result ≡ length self.now }
        ensures small { result < 2 ^ 32 }
    {
        self.set.len()
    }

    /// Whether the name has a number.
    pub fn has(&self, name: NameWord<'_>) -> bool
        ensures { result ≡ is_listed name.entry.bytes.now self.now }
    {
        self.set.contains(name.bytes)
    }

    /// The number of a name, where it has one.
    pub fn find(&self, name: NameWord<'_>) -> Option<u32>
        ensures found { result ≡ place_of self.now name.entry.bytes.now }
        ensures small { IfSome result (λ number. number + 1 < 2 ^ 32) }
    {
        match self.set.get_index_of(name.bytes) {
            Some(index) => Some(index as u32),
            None => None,
        }
    }

    /// The number of a name, which gets the next one where it has none.
    pub fn note(&mut self, alloc: Global, name: NameWord<'_>) -> Result<u32, NoMemory>
        requires short { is_short_name name.bytes.now ≡ true }
        requires room { length self.old + 1 < 2 ^ 32 }
        ensures noted { OnOk result (self.new ≡ noted self.old name.entry.bytes.now) }
        ensures number { IfOk result (λ n. n ≡ number_of (noted self.old name.entry.bytes.now) name.entry.bytes.now) }
    {
        match self.set.get_index_of(name.bytes) {
            Some(index) => Ok(index as u32),
            None => self.add(alloc, name),
        }
    }

    // The number of a name that had none.
    fn add(&mut self, alloc: Global, name: NameWord<'_>) -> Result<u32, NoMemory>
        requires new { is_listed name.bytes.now self.old ≡ false }
        requires short { is_short_name name.bytes.now ≡ true }
        requires room { length self.old + 1 < 2 ^ 32 }
        ensures added { OnOk result (self.new ≡ self.old ++ name.entry.bytes.now ∷ []) }
        ensures number { IfOk result (λ n. n ≡ length self.old) }
    {
        let number = self.set.len() as u32;
        let name = Name64::of_word(alloc, name)?;
        self.set.insert(name.into_bytes())?;
        Ok(number)
    }

    /// The name with a number.
    pub fn get(&self, number: u32) -> Option<&[u8]>
        ensures { option_copied result ≡ slice_get self.now number }
    {
        match self.set.get_index(number as usize) {
            None => None,
            Some(bytes) => Some(bytes.as_slice()),
        }
    }

    /// Keeps the first so many names alone, each with its number.
    pub fn truncate(&mut self, len: usize)
        ensures { self.new ≡ take len self.old }
    {
        self.set.truncate(len);
    }

    /// The names in order.
    pub fn into_names(self, alloc: Global) -> Result<Names, NoMemory>
        ensures { IfOk result (λ names. names ≡ self) }
    {
        let mut names = Names::new(alloc);
        for bytes in self.set {
            names.push(Name64::from_bytes(bytes))?;
        }
        Ok(names)
    }
}
