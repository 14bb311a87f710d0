// Where names stand in a list.
ghost use Rattle.std.specs.Prelude.{◌≡◌, ◌<◌, ◌^◌, length, IfOk};
ghost use Rattle.file_names.specs.Names.{place_of};

use file_names::Names;
use indexmap::IndexMap;
use std::alloc::Global;
use std::marker::Model;
use wsm_lists::NoMemory;

/// Names in their order, found by their bytes. Where a name stands twice, it is found where it stands first.
#[derive(Drop)]
pub struct NamePlaces<'a> {
    names: &'a Names,
    places: IndexMap<Vec<u8>, u32>,
}

impl<'a> Model for NamePlaces<'a> {
    ghost use Rattle.std.specs.Prelude.{ℕ, List};
    ghost use Rattle.log_records.specs.Places.{ArePlaces};

    ghost Value = { List (List ℕ) };

    ghost view = { λ a. a.names.now };

    ghost invariant = { λ a. ArePlaces a.places.entries a.names.now };
}

impl<'a> NamePlaces<'a> {
    /// The names of the list.
    pub fn new(alloc: Global, names: &'a Names) -> Result<NamePlaces<'a>, NoMemory>
        requires { length names.now < 2 ^ 32 }
        ensures { IfOk result (λ places. places ≡ names.now) }
    {
        let mut places = IndexMap::new(alloc);
        for index in (0..names.len()).rev() {
            let name = Vec::from_slice(alloc, names.as_slice()[index].bytes())?;
            places.insert(name, index as u32)?;
        }
        Ok(NamePlaces { names, places })
    }

    /// The place of a name, where it is there.
    pub fn find(&self, name: &[u8]) -> Option<u32>
        ensures { result ≡ place_of self.now name.now }
    {
        self.places.get(name).copied()
    }
}
