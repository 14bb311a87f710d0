// The script's lines with the versions that their actors were told.
ghost use Rattle.std.specs.Prelude.{◌≡◌, IfOk, OnOk};
ghost use Rattle.case_audit.specs.Common.{asked_by, asked_in, asked_phases, IsWorkable, left_by, script_of, telling, told_versions};

use crate::told::Told;
use file_model::{File, Line};
use line_calls::cells_of;
use script_run::ClosedKind;
use std::alloc::Global;
use wsm_lists::NoMemory;
use wsm_sound::Version;

/// A script line, and the version that its actor was told where it asked a type for the newest.
#[derive(Clone, Copy)]
pub struct AskedLine<'a> {
    pub line: &'a Line,
    pub version: Option<&'a Version>,
}

/// The script's lines, phase by phase, where the types told their callers what stands in these journals.
pub fn asked_phases<'a>(
    alloc: Global,
    file: &'a File,
    kinds: &'a [ClosedKind],
) -> Result<Vec<Vec<AskedLine<'a>>>, NoMemory>
    requires { IsWorkable file.now }
    ensures { IfOk result (λ phases. script_of phases.items ≡ asked_phases (telling kinds.now) file.now.phases) }
{
    let mut told = Told::of(alloc, file.actors.len(), kinds)?;
    let mut phases = Vec::new(alloc);
    for lines in file.phases.as_slice() {
        phases.push(asked_lines(alloc, &mut told, lines.as_slice())?)?;
    }
    Ok(phases)
}

fn asked_lines<'a>(
    alloc: Global,
    told: &mut Told<'a>,
    lines: &'a [Line],
) -> Result<Vec<AskedLine<'a>>, NoMemory>
    ensures lines { IfOk result (λ asked. asked_in asked.items ≡ asked_by (told_versions told.old) lines.now) }
    ensures told { OnOk result (told_versions told.new ≡ left_by (told_versions told.old) lines.now) }
{
    let mut asked = Vec::new(alloc);
    for line in lines {
        let version = told.next(line.actor, cells_of(&line.act).asked());
        asked.push(AskedLine { line, version })?;
    }
    Ok(asked)
}
