// The file that contents stand for, kept beside them for those who write of it.
ghost use Rattle.std.specs.Prelude.{◌≡◌, [], take, IsTrue, OnOk};
ghost use Rattle.wsm_lists.specs.Rows.{AllRows};
ghost use Rattle.file_model.specs.{Reading.file_of, ShortForms.IsShort};
ghost use Rattle.file_units.specs.{Facts.HasShortNames, Growing.{Begins, IsFrontOf, file_cut}, Units.{no_units, settled}};

use crate::limits::{MAX_HELD_ACTORS, MAX_HELD_CASES, MAX_HELD_TYPES};
use crate::reading::Marks;
use file_model::{
    ActorDecl, ActorDecls, CaseDecl, CaseDecls, CaseTable, Contents, Counts, File, Limits, Name64,
    Phases, TypeDecl, TypeDecls,
};
use file_names::{DeclaredList, NameTable, Names};
use file_words::NameWord;
use std::alloc::Global;
use std::mem::replace;
use wsm_lists::{Listing, NoMemory};

// Contents of format 3 in which nothing is named, not even `start` and `finish`. They take no memory.
pub(crate) fn nothing(alloc: Global) -> Contents
    ensures { result ≡ record no_units { nodes = [] } }
{
    Contents {
        limits: Limits {
            types: MAX_HELD_TYPES,
            actors: MAX_HELD_ACTORS,
            cases: MAX_HELD_CASES,
            migrations: MAX_HELD_CASES,
        },
        format: 3,
        nodes: NameTable::new(alloc),
        elements: NameTable::new(alloc),
        roles: NameTable::new(alloc),
        types: DeclaredList::new(alloc),
        actors: DeclaredList::new(alloc),
        cases: CaseTable::new(alloc),
        phases: Phases::new(alloc),
        current: None,
        counts: Counts {
            lines: 0,
            installs: 0,
            migrations: 0,
        },
    }
}

// The file of nothing. It takes no memory.
pub(crate) fn no_file(alloc: Global) -> File
    ensures { result ≡ record { format = 3; nodes = []; elements = []; roles = []; types = []; actors = []; cases = []; phases = [] } }
{
    File {
        format: 3,
        nodes: Names::new(alloc),
        elements: Names::new(alloc),
        roles: Names::new(alloc),
        types: Listing::new(alloc),
        actors: Listing::new(alloc),
        cases: Listing::new(alloc),
        phases: Phases::new(alloc),
    }
}

// Whether the file has all that was named and declared. So it is behind most units.
#[tactic(auto, using(crate::proofs::Mirror::all_shown))]
fn is_up(file: &File, contents: &Contents) -> bool
    requires { IsFrontOf file.now contents.now }
    ensures { IsTrue result → file.now ≡ file_of (settled contents.now) }
{
    file.nodes.len() == contents.nodes.len()
        && file.elements.len() == contents.elements.len()
        && file.roles.len() == contents.roles.len()
        && file.types.len() == contents.types.items.len()
        && file.actors.len() == contents.actors.items.len()
        && file.cases.len() == contents.cases.items().len()
}

// Brings the file up to the contents, which have only more of everything.
pub(crate) fn bring_up(file: &mut File, alloc: Global, contents: &Contents) -> Result<(), NoMemory>
    requires front { IsFrontOf file.old contents.now }
    requires short { HasShortNames contents.now }
    ensures { OnOk result (file.new ≡ file_of (settled contents.now)) }
{
    if is_up(file, contents) {
        return Ok(());
    }
    add_names(&mut file.nodes, alloc, &contents.nodes)?;
    add_names(&mut file.elements, alloc, &contents.elements)?;
    add_names(&mut file.roles, alloc, &contents.roles)?;
    add_types(&mut file.types, alloc, &contents.types.items)?;
    add_actors(&mut file.actors, alloc, &contents.actors.items)?;
    add_cases(&mut file.cases, alloc, contents.cases.items())
}

// The names of a table behind those that are there.
fn add_names(names: &mut Names, alloc: Global, table: &NameTable) -> Result<(), NoMemory>
    requires front { Begins names.old table.now }
    requires short { AllRows IsShort table.now }
    ensures { OnOk result (names.new ≡ table.now) }
{
    // (the length is only read for what its clause says of it)
    let _ = table.len();
    while let Some(name) = table.get(names.len() as u32) {
        names.push(Name64::of_word(alloc, NameWord { bytes: name })?)?;
    }
    Ok(())
}

// A type is added with a copy of its schema.
fn add_types(types: &mut TypeDecls, alloc: Global, all: &TypeDecls) -> Result<(), NoMemory>
    requires { Begins types.old all.now }
    ensures { OnOk result (types.new ≡ all.now) }
{
    while let Some(decl) = all.get(types.len()) {
        types.push(TypeDecl {
            name: Name64::of_word(alloc, decl.name.word())?,
            schema: decl.schema.copy(alloc)?,
        })?;
    }
    Ok(())
}

fn add_actors(actors: &mut ActorDecls, alloc: Global, all: &ActorDecls) -> Result<(), NoMemory>
    requires { Begins actors.old all.now }
    ensures { OnOk result (actors.new ≡ all.now) }
{
    while let Some(decl) = all.get(actors.len()) {
        actors.push(ActorDecl {
            name: Name64::of_word(alloc, decl.name.word())?,
            roles: decl.roles.copy(alloc)?,
        })?;
    }
    Ok(())
}

fn add_cases(cases: &mut CaseDecls, alloc: Global, all: &CaseDecls) -> Result<(), NoMemory>
    requires { Begins cases.old all.now }
    ensures { OnOk result (cases.new ≡ all.now) }
{
    while let Some(decl) = all.get(cases.len()) {
        cases.push(CaseDecl {
            name: Name64::of_word(alloc, decl.name.word())?,
            id: decl.id,
        })?;
    }
    Ok(())
}

// Keeps the first so many items of a list alone.
fn cut_list<T: Drop>(list: &mut Listing<T>, alloc: Global, len: usize)
    ensures { list.new ≡ take len list.old }
{
    let mut items = replace(list, Listing::new(alloc)).into_vec();
    items.truncate(len);
    *list = Listing::from_vec(items);
}

// Takes back what a file has more than was named and declared at the marks.
pub(crate) fn cut_file(file: &mut File, alloc: Global, marks: Marks)
    ensures { file.new ≡ file_cut marks file.old }
{
    cut_list(&mut file.nodes, alloc, marks.nodes);
    cut_list(&mut file.elements, alloc, marks.elements);
    cut_list(&mut file.roles, alloc, marks.roles);
    cut_list(&mut file.types, alloc, marks.types);
    cut_list(&mut file.actors, alloc, marks.actors);
    cut_list(&mut file.cases, alloc, marks.cases);
}
