// A file with what its lines are worked by.
ghost use Rattle.std.specs.Prelude.{◌≡◌, IfOk};
ghost use Rattle.line_calls.specs.{Files.{place_of, roles_of}, Places.Indexes};

use file_model::{CaseDecl, File};
use std::alloc::Global;
use std::collections::HashMap;
use wsm_lists::NoMemory;
use wsm_sound::CaseId;

/// A file, and an index of its cases by their types and their places there.
#[derive(Drop)]
pub struct Script<'a> {
    pub file: &'a File,
    places: HashMap<(u32, u32), usize>,
    ghost indexed: { Indexes places.entries file.now.cases },
}

impl<'a> Script<'a> {
    /// The file with its index.
    pub fn of(alloc: Global, file: &'a File) -> Result<Script<'a>, NoMemory>
        ensures { IfOk result (λ script. script.file.now ≡ file.now) }
    {
        Ok(Script {
            file,
            places: places_of(alloc, file.cases.as_slice())?,
        })
    }

    /// Where the case was declared.
    pub fn place_of(&self, id: CaseId) -> Option<usize>
        ensures { result ≡ place_of self.now.file.now id }
    {
        self.places.get(&(id.type_no, id.place)).copied()
    }
}

// The places of cases, from the last to the first.
fn places_of(alloc: Global, decls: &[CaseDecl]) -> Result<HashMap<(u32, u32), usize>, NoMemory>
    ensures { IfOk result (λ places. Indexes places.entries decls.now) }
{
    let mut places = HashMap::new(alloc);
    for place in (0..decls.len()).rev() {
        let id = decls[place].id;
        let _ = places.insert((id.type_no, id.place), place)?;
    }
    Ok(places)
}

/// The roles of the actor with a number, from 1.
pub fn roles_of(file: &File, actor: u32) -> &[u32]
    ensures { result.now ≡ roles_of file.now actor }
{
    let index = (actor as usize).saturating_sub(1);
    match file.actors.get(index) {
        None => &[],
        Some(decl) => decl.roles.as_slice(),
    }
}
