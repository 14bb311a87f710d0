// The file, once all lines were read.
ghost use Rattle.std.specs.Prelude.{◌≡◌, ◌<◌, ◌^◌, [], length, IfOk};
ghost use Rattle.file_model.specs.{Reading.file_of, Sizes.HasNumbers};

use file_model::{ActorDecl, CaseTable, Contents, File, Phases, TypeDecl};
use file_names::{DeclaredList, NameTable, Names};
use file_state::end_phase;
use std::alloc::Global;
use wsm_lists::NoMemory;

/// The file of what was read.
pub fn file_of(contents: Contents, alloc: Global) -> Result<File, NoMemory>
    ensures same { IfOk result (λ file. file ≡ file_of contents) }
    ensures numbers { IfOk result (λ file. HasNumbers file) }
{
    let mut contents = contents;
    end_phase(&mut contents)?;
    let Contents {
        format,
        nodes,
        elements,
        roles,
        types,
        actors,
        cases,
        phases,
        ..
    } = contents;
    named(
        nameless(format, types, actors, cases, phases, alloc),
        nodes,
        elements,
        roles,
        alloc,
    )
}

// A file without the names of nodes, elements and roles. To make it takes no memory.
fn nameless(
    format: u32,
    types: DeclaredList<TypeDecl>,
    actors: DeclaredList<ActorDecl>,
    cases: CaseTable,
    phases: Phases,
    alloc: Global,
) -> File
    ensures { result ≡ record { format = format; nodes = []; elements = []; roles = []; types = types.items; actors = actors.items; cases = cases.items; phases = phases } }
{
    File {
        format,
        nodes: Names::new(alloc),
        elements: Names::new(alloc),
        roles: Names::new(alloc),
        types: types.items,
        actors: actors.items,
        cases: cases.into_items(),
        phases,
    }
}

fn named(
    file: File,
    nodes: NameTable,
    elements: NameTable,
    roles: NameTable,
    alloc: Global,
) -> Result<File, NoMemory>
    ensures same { IfOk result (λ read. read ≡ record file { nodes = nodes; elements = elements; roles = roles }) }
    ensures numbers { IfOk result (λ read. HasNumbers read) }
{
    let (nodes, elements, roles) = all_names(nodes, elements, roles, alloc)?;
    Ok(File {
        format: file.format,
        nodes,
        elements,
        roles,
        types: file.types,
        actors: file.actors,
        cases: file.cases,
        phases: file.phases,
    })
}

fn all_names(
    nodes: NameTable,
    elements: NameTable,
    roles: NameTable,
    alloc: Global,
) -> Result<(Names, Names, Names), NoMemory>
    ensures same { IfOk result (λ names. names ≡ (nodes, elements, roles)) }
    ensures numbers { IfOk result (λ names. (length names.0 < 2 ^ 32) × (length names.1 < 2 ^ 32) × (length names.2 < 2 ^ 32)) }
{
    // (each length is only read for what its clause says of it)
    let _ = nodes.len();
    let _ = elements.len();
    let _ = roles.len();
    let nodes = nodes.into_names(alloc)?;
    let elements = elements.into_names(alloc)?;
    Ok((nodes, elements, roles.into_names(alloc)?))
}
