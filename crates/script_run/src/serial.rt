// The serial run.
ghost use Rattle.std.specs.{Prelude.{◌≡◌, ◌+◌, ◌≤◌, true, map, length, IfOk, OnOk, Some}, List.list_all};
ghost use Rattle.file_limits.specs.declared.TheConstants.{MAX_TYPES};
ghost use Rattle.file_model.specs.Sizes.{IsBounded, is_small, line_effort, phase_effort};
ghost use Rattle.line_calls.specs.Calls.{call_weight};
ghost use Rattle.script_run.specs.{Calls.{called, told_to, worked}, Oldest.oldest, Parts.run_of, Serial.{defined, kinds_from, opening, phase_worked, serial, uncalled}};
ghost use Rattle.wsm_schema.specs.Flat.{cards_of};

use crate::call_counts::CallCounts;
use crate::calls::{Working, call_kind};
use crate::runs::{CaseJournal, ClosedCase, ClosedKind, KindJournal, Run};
use case_core::{Case, Event};
use file_model::{CaseDecl, File, Line, TypeDecl};
use line_calls::{Call, Script, Told, call_of, roles_of};
use std::alloc::Global;
use type_core::{Kind, KindEvent};
use wsm_lists::NoMemory;
use wsm_sound::Version;

/// The number of the program itself.
const PROGRAM: u32 = 0;

/// Makes the calls of all lines in file order, behind the definition of each type.
pub fn serial_run(alloc: Global, file: &File) -> Result<Run, NoMemory>
    requires { IsBounded file.now }
    ensures { IfOk result (λ run. run ≡ serial file.now) }
{
    let script = Script::of(alloc, file)?;
    let mut run = opening(alloc, file)?;
    for lines in file.phases.as_slice() {
        run.work_phase(alloc, &script, lines.as_slice())?;
    }
    Ok(run.into_run())
}

// The types with their definitions, and the cases before any line.
fn opening(alloc: Global, file: &File) -> Result<Working, NoMemory>
    requires { IsBounded file.now }
    ensures run { IfOk result (λ new. run_of new ≡ opening file.now) }
    ensures age { IfOk result (λ new. oldest new.cases.items ≡ 0) }
{
    let counts = CallCounts::of(alloc, file)?;
    Ok(Working {
        kinds: defined_kinds(alloc, file.types.as_slice(), &counts)?,
        cases: uncalled_cases(alloc, file.cases.as_slice(), &counts)?,
    })
}

// The types behind their definitions, numbered from 0.
fn defined_kinds(
    alloc: Global,
    types: &[TypeDecl],
    counts: &CallCounts,
) -> Result<Vec<ClosedKind>, NoMemory>
    requires few { length types.now ≤ MAX_TYPES }
    requires small { list_all is_small types.now ≡ true }
    ensures { IfOk result (λ kinds. kinds.items ≡ kinds_from 0 types.now) }
{
    let mut kinds = Vec::new(alloc);
    for (index, decl) in types.iter().enumerate() {
        let number = index as u32;
        kinds.push(defined(alloc, number, decl, counts.of_kind(number))?)?;
    }
    Ok(kinds)
}

/// A type behind its definition, with room for so many calls.
pub fn defined(
    alloc: Global,
    number: u32,
    decl: &TypeDecl,
    calls: usize,
) -> Result<ClosedKind, NoMemory>
    requires { length (cards_of decl.now.schema) ≤ 1024 }
    ensures { IfOk result (λ kind. kind ≡ defined number decl.now) }
{
    let mut kind = ClosedKind {
        machine: Kind::new(alloc, number),
        journal: KindJournal::from_vec(Vec::with_capacity(alloc, calls)?),
    };
    let definition = KindEvent::Define(decl.schema.copy(alloc)?);
    call_kind(alloc, &mut kind, PROGRAM, definition)?;
    Ok(kind)
}

// The cases before any line, with room for their calls.
fn uncalled_cases(
    alloc: Global,
    decls: &[CaseDecl],
    counts: &CallCounts,
) -> Result<Vec<ClosedCase>, NoMemory>
    ensures { IfOk result (λ cases. cases.items ≡ map uncalled decls.now) }
{
    let mut cases = Vec::new(alloc);
    for decl in decls {
        cases.push(ClosedCase {
            machine: Case::new(alloc, decl.id.type_no),
            journal: CaseJournal::from_vec(Vec::with_capacity(alloc, counts.of_case(decl.id))?),
        })?;
    }
    Ok(cases)
}

impl Working {
    // The calls of a phase, line by line.
    fn work_phase(
        &mut self,
        alloc: Global,
        script: &Script<'_>,
        lines: &[Line],
    ) -> Result<(), NoMemory>
        requires { oldest self.old.cases.items + phase_effort lines.now ≤ 4000000000 }
        ensures run { OnOk result (run_of self.new ≡ phase_worked script.now.file.now (run_of self.old) lines.now) }
        ensures age { OnOk result (oldest self.new.cases.items ≤ oldest self.old.cases.items + phase_effort lines.now) }
    {
        for line in lines {
            self.work(alloc, script, line)?;
        }
        Ok(())
    }

    // The calls of a line.
    fn work(&mut self, alloc: Global, script: &Script<'_>, line: &Line) -> Result<(), NoMemory>
        requires { oldest self.old.cases.items + line_effort line.now ≤ 4000000000 }
        ensures run { OnOk result (run_of self.new ≡ worked script.now.file.now (run_of self.old) line.now) }
        ensures age { OnOk result (oldest self.new.cases.items ≤ oldest self.old.cases.items + line_effort line.now) }
    {
        let caller = line.actor;
        let call = call_of(alloc, caller, roles_of(script.file, caller), &line.act)?;
        self.make(alloc, script, caller, call)
    }

    // Makes a call.
    fn make(
        &mut self,
        alloc: Global,
        script: &Script<'_>,
        caller: u32,
        call: Call,
    ) -> Result<(), NoMemory>
        requires { oldest self.old.cases.items + call_weight call ≤ 4000000000 }
        ensures run { OnOk result (run_of self.new ≡ called script.now.file.now caller call (run_of self.old)) }
        ensures age { OnOk result (oldest self.new.cases.items ≤ oldest self.old.cases.items + call_weight call) }
    {
        match call {
            Call::Kind { type_no, event } => self.on_kind(alloc, caller, type_no, event),
            Call::Case { id, event } => self.on_case(alloc, script, caller, id, event),
            Call::Newest { type_no, then } => match self.newest(alloc, caller, type_no)? {
                None => Ok(()),
                Some(version) => self.tell(alloc, script, caller, type_no, then, version),
            },
        }
    }

    // Tells the version that a type answered.
    fn tell(
        &mut self,
        alloc: Global,
        script: &Script<'_>,
        caller: u32,
        type_no: u32,
        then: Told,
        version: Version,
    ) -> Result<(), NoMemory>
        requires { oldest self.old.cases.items ≤ 4000000000 }
        ensures run { OnOk result (run_of self.new ≡ told_to script.now.file.now caller type_no then (Some version) (run_of self.old)) }
        ensures age { OnOk result (oldest self.new.cases.items ≤ oldest self.old.cases.items) }
    {
        match then {
            Told::Create(id) => self.on_case(alloc, script, caller, id, Event::Create(version)),
            Told::Migrate(many) => self.on_each(
                alloc,
                script,
                caller,
                type_no,
                many,
                &Event::Migrate(version),
            ),
        }
    }
}
