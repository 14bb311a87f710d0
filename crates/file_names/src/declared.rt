// What a file declares, by name.
ghost use Rattle.std.specs.Prelude.{◌≡◌, ◌<◌, ◌^◌, ◌+◌, [], ◌∷◌, ◌++◌, length, take, true, OnOk, IfOk};
ghost use Rattle.file_names.specs.{Names.noted, ShortNames.is_short_name};

use crate::name_tables::NameTable;
use file_words::{NameWord, NoMemory};
use std::alloc::Global;
use std::mem::replace;
use wsm_lists::Listing;

/// Names with what they were declared as, both in order of declaration.
#[derive(Drop)]
pub struct DeclaredList<T: Drop> {
    pub names: NameTable,
    pub items: Listing<T>,
}

impl<T: Drop> DeclaredList<T> {
    /// Nothing is declared.
    pub fn new(alloc: Global) -> Self
        ensures { result ≡ record { names = []; items = [] } }
    {
        DeclaredList {
            names: NameTable::new(alloc),
            items: Listing::new(alloc),
        }
    }

    /// One more declaration.
    pub fn push(&mut self, alloc: Global, name: NameWord<'_>, item: T) -> Result<(), NoMemory>
        requires short { is_short_name name.bytes.now ≡ true }
        requires room { length self.old.names + 1 < 2 ^ 32 }
        ensures { OnOk result (self.new ≡ record { names = noted self.old.names name.entry.bytes.now; items = self.old.items ++ item ∷ [] }) }
    {
        self.names.note(alloc, name)?;
        self.items.push(item)
    }

    /// Keeps the first so many declarations alone.
    pub fn truncate(&mut self, alloc: Global, len: usize)
        ensures { self.new ≡ record { names = take len self.old.names; items = take len self.old.items } }
    {
        self.names.truncate(len);
        let mut items = replace(&mut self.items, Listing::new(alloc)).into_vec();
        items.truncate(len);
        self.items = Listing::from_vec(items);
    }
}
