// The entry that speaks against another schema.
ghost use Rattle.std.specs.Prelude.{◌≡◌, IfOk};

use std::alloc::Global;
use std::marker::Model;
use wsm_schema::{Entry, NoMemory};

/// An entry of a trail, kept behind a pointer: a reply that names one is no larger than the others, of which each journal
/// keeps many.
#[derive(Drop)]
pub struct FailingEntry {
    entry: Box<Entry>,
}

impl Model for FailingEntry {
    ghost use Rattle.wsm_schema.specs.declared.entries.Entry.{Entry};

    ghost Value = { Entry };

    ghost view = { λ a. a.entry.value };
}

impl FailingEntry {
    /// The entry, behind a pointer.
    pub fn of(alloc: Global, entry: Entry) -> Result<FailingEntry, NoMemory>
        ensures { IfOk result (λ new. new ≡ entry) }
    {
        Ok(FailingEntry {
            entry: Box::new(alloc, entry)?,
        })
    }

    /// The entry.
    pub fn as_entry(&self) -> &Entry
        ensures { result.now ≡ self.now }
    {
        &self.entry
    }

    /// An equal entry.
    pub fn copy(&self, alloc: Global) -> Result<FailingEntry, NoMemory>
        ensures { IfOk result (λ new. new ≡ self.now) }
    {
        FailingEntry::of(alloc, self.entry.copy(alloc)?)
    }
}
