// What the installs of a file come to.
ghost use Rattle.std.specs.{Prelude.{◌≡◌, ◌+◌, ◌*◌, ◌≤◌, true, length, slice_get, IfOk, OnOk}, List.{list_all, list_any}};
ghost use Rattle.file_limits.specs.declared.TheConstants.{MAX_TYPES};
ghost use Rattle.file_model.specs.Sizes.{IsBounded, is_small, line_effort, phase_effort};
ghost use Rattle.script_run.specs.{Parts.checking_of, Verdicts.{defined_from, defined_kind, installs, judged, judged_line, judged_phase, some_install, verdicts}};
ghost use Rattle.type_core.specs.Machine.{weight};
ghost use Rattle.wsm_schema.specs.Flat.{cards_of};

use crate::runs::{Verdict, Verdicts};
use file_model::{Act, File, Line, TypeDecl};
use line_calls::installed;
use std::alloc::Global;
use turn_cell::Machine;
use type_core::{Kind, KindEvent};
use wsm_lists::NoMemory;
use wsm_ops::Ops;

/// The types, and what they answered so far.
#[derive(Drop)]
pub struct Judging {
    pub kinds: Vec<Kind>,
    pub verdicts: Verdicts,
}

/// What the types answer to the lines that install, in file order.
pub fn verdicts(alloc: Global, file: &File) -> Result<Verdicts, NoMemory>
    requires { IsBounded file.now }
    ensures { IfOk result (λ new. new ≡ verdicts file.now) }
{
    if !some_install(file) {
        return Ok(Verdicts::new(alloc));
    }
    let mut judging = Judging {
        kinds: defined_kinds(alloc, file.types.as_slice())?,
        verdicts: Verdicts::new(alloc),
    };
    for lines in file.phases.as_slice() {
        judging.judge_phase(alloc, lines.as_slice())?;
    }
    Ok(judging.verdicts)
}

// Whether a line of the file installs.
fn some_install(file: &File) -> bool
    ensures { result ≡ list_any some_install file.now.phases }
{
    file.phases
        .as_slice()
        .iter()
        .any(|lines| some_line_installs(lines.as_slice()))
}

fn some_line_installs(lines: &[Line]) -> bool
    ensures { result ≡ some_install lines.now }
{
    lines.iter().any(|line| installs(&line.act))
}

fn installs(act: &Act) -> bool
    ensures { result ≡ installs act.now }
{
    installed(act).is_some()
}

// The types behind their definitions, numbered from 0.
fn defined_kinds(alloc: Global, types: &[TypeDecl]) -> Result<Vec<Kind>, NoMemory>
    requires few { length types.now ≤ MAX_TYPES }
    requires small { list_all is_small types.now ≡ true }
    ensures { IfOk result (λ kinds. kinds.items ≡ defined_from 0 types.now) }
{
    let mut kinds = Vec::new(alloc);
    for (index, decl) in types.iter().enumerate() {
        kinds.push(defined_kind(alloc, index as u32, decl)?)?;
    }
    Ok(kinds)
}

/// A type behind its definition.
pub fn defined_kind(alloc: Global, number: u32, decl: &TypeDecl) -> Result<Kind, NoMemory>
    requires { length (cards_of decl.now.schema) ≤ 1024 }
    ensures { IfOk result (λ kind. kind ≡ defined_kind number decl.now) }
{
    let mut kind = Kind::new(alloc, number);
    let _ = kind.step(alloc, &KindEvent::Define(decl.schema.copy(alloc)?))?;
    Ok(kind)
}

impl Judging {
    // The lines of a phase that install.
    fn judge_phase(&mut self, alloc: Global, lines: &[Line]) -> Result<(), NoMemory>
        requires { phase_effort lines.now ≤ 4000000000 }
        ensures { OnOk result (checking_of self.new ≡ judged_phase (checking_of self.old) lines.now) }
    {
        for line in lines {
            self.judge(alloc, line)?;
        }
        Ok(())
    }

    // A line, where it installs.
    fn judge(&mut self, alloc: Global, line: &Line) -> Result<(), NoMemory>
        requires { line_effort line.now ≤ 4000000000 }
        ensures { OnOk result (checking_of self.new ≡ judged_line (checking_of self.old) line.now) }
    {
        match installed(&line.act) {
            None => Ok(()),
            Some((type_no, ops)) => self.install(alloc, line.at, type_no, ops),
        }
    }

    // What a type answers to the operations.
    fn install(&mut self, alloc: Global, at: u32, type_no: u32, ops: &Ops) -> Result<(), NoMemory>
        requires { 3 * length ops.now ≤ 4000000000 }
        ensures { OnOk result (checking_of self.new ≡ judged at type_no (KindEvent.Install ops.now) (checking_of self.old)) }
    {
        match self.kinds.get_mut(type_no as usize) {
            None => Ok(()),
            Some(kind) => {
                let (reply, _) = kind.step(alloc, &KindEvent::Install(ops.copy(alloc)?))?;
                self.verdicts.push(Verdict { at, type_no, reply })
            }
        }
    }
}
