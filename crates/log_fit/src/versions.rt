// The versions of a file's types.
ghost use Rattle.std.specs.Prelude.{◌≡◌, ◌≤◌, length, position, IfOk, OnOk};
ghost use Rattle.file_model.specs.Sizes.{IsBounded, line_effort, phase_effort};
ghost use Rattle.log_fit.specs.Versions.{installed_line, installed_lines, is_named, kind_of, version_of};
ghost use Rattle.wsm_schema.specs.Flat.{cards_of};

use file_model::{File, Line, TypeDecl};
use line_calls::installed;
use script_run::defined_kind;
use std::alloc::Global;
use turn_cell::Machine;
use type_core::{Kind, KindEvent};
use wsm_lists::NoMemory;
use wsm_sound::Version;

fn is_named(decl: &TypeDecl, name: &[u8]) -> bool
    ensures { result ≡ is_named name.now decl.now }
{
    name == decl.name.bytes()
}

// The place of the first type with a name.
fn place_of_type(types: &[TypeDecl], name: &[u8]) -> Option<usize>
    ensures { result ≡ position (is_named name.now) types.now }
{
    types.iter().position(|decl| is_named(decl, name))
}

// The type behind a line.
fn install_line(kind: &mut Kind, alloc: Global, number: u32, line: &Line) -> Result<(), NoMemory>
    requires { line_effort line.now ≤ 4000000000 }
    ensures { OnOk result (kind.new ≡ installed_line number kind.old line.now) }
{
    match installed(&line.act) {
        None => Ok(()),
        Some((type_no, ops)) => {
            if type_no == number {
                let _ = kind.step(alloc, &KindEvent::Install(ops.copy(alloc)?))?;
            }
            Ok(())
        }
    }
}

// The type behind the lines of a phase.
fn install_lines(
    kind: &mut Kind,
    alloc: Global,
    number: u32,
    lines: &[Line],
) -> Result<(), NoMemory>
    requires { phase_effort lines.now ≤ 4000000000 }
    ensures { OnOk result (kind.new ≡ installed_lines number kind.old lines.now) }
{
    for line in lines {
        install_line(kind, alloc, number, line)?;
    }
    Ok(())
}

// The type behind all lines.
fn kind_of(alloc: Global, file: &File, number: u32, decl: &TypeDecl) -> Result<Kind, NoMemory>
    requires bounded { IsBounded file.now }
    requires small { length (cards_of decl.now.schema) ≤ 1024 }
    ensures { IfOk result (λ kind. kind ≡ kind_of number file.now.phases decl.now) }
{
    let mut kind = defined_kind(alloc, number, decl)?;
    for lines in file.phases.as_slice() {
        install_lines(&mut kind, alloc, number, lines.as_slice())?;
    }
    Ok(kind)
}

/// The version with this number of the type with this name. None where there is no such type, or no such version of it.
pub(crate) fn version_of(
    alloc: Global,
    file: &File,
    name: &[u8],
    number: u32,
) -> Result<Option<Version>, NoMemory>
    requires { IsBounded file.now }
    ensures { IfOk result (λ found. found ≡ version_of file.now name.now number) }
{
    let Some(place) = place_of_type(file.types.as_slice(), name) else {
        return Ok(None);
    };
    let Some(decl) = file.types.get(place) else {
        return Ok(None);
    };
    let kind = kind_of(alloc, file, place as u32, decl)?;
    match kind.version(number) {
        None => Ok(None),
        Some(version) => Ok(Some(version.share()?)),
    }
}
