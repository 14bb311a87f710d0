// The calls of a file, line by line. What versions the types have decides which calls a line makes, and no case does.
ghost use Rattle.std.specs.{Prelude.{◌≡◌, ◌∷◌, ◌++◌, ◌≤◌, [], true, length, IfOk, OnOk}, List.{AllByRecursion, list_all}};
ghost use Rattle.file_facts.specs.Facts.{IsWorkable};
ghost use Rattle.file_model.specs.Sizes.{IsBounded, is_small, line_effort, phase_effort};
ghost use Rattle.script_run.specs.{Serial.program, Verdicts.defined_kind};
ghost use Rattle.store_calls.specs.Calls.{calls, by, migrations, newest_number, phase_ends, stored_kind, told_call, told_line, told_of, told_phase, told_types, with_call, with_calls};
ghost use Rattle.store_room.specs.Room.{IsPayable};
ghost use Rattle.type_core.specs.Machine.{weight as kind_weight};
ghost use Rattle.wsm_schema.specs.Flat.{cards_of};

use file_model::{CaseDecl, File, Line, TypeDecl};
use line_calls::{Call, Told, call_of, roles_of};
use script_run::defined_kind;
use std::alloc::Global;
use store_form::{Recorded, Stored};
use turn_cell::Machine;
use type_core::{Kind, KindEvent};
use wsm_lists::NoMemory;
use wsm_sound::CaseId;

/// The number of the program itself.
const PROGRAM: u32 = 0;

/// The calls of a file, and how many of them there are behind each phase.
#[derive(Drop)]
pub struct FileCalls {
    pub calls: Vec<Recorded>,
    pub ends: Vec<usize>,
}

/// The calls so far, and the types behind them.
#[derive(Drop)]
pub struct Telling {
    pub kinds: Vec<Kind>,
    pub calls: Vec<Recorded>,
}

/// The calls of all lines in file order, behind the definition of each type.
pub fn calls(alloc: Global, file: &File) -> Result<FileCalls, NoMemory>
    requires bounded { IsBounded file.now }
    requires workable { IsWorkable file.now }
    ensures calls { IfOk result (λ told. told.calls.items ≡ calls file.now) }
    ensures ends { IfOk result (λ told. told.ends.items ≡ phase_ends file.now) }
    ensures payable { IfOk result (λ told. AllByRecursion IsPayable told.calls.items) }
{
    let mut telling = Telling::opening(alloc, file.types.as_slice())?;
    let mut ends = Vec::new(alloc);
    for lines in file.phases.as_slice() {
        telling.tell_phase(alloc, file, lines.as_slice())?;
        ends.push(telling.calls.len())?;
    }
    Ok(FileCalls {
        calls: telling.calls,
        ends,
    })
}

impl Telling {
    // The types behind their definitions, numbered from 0.
    fn opening(alloc: Global, types: &[TypeDecl]) -> Result<Telling, NoMemory>
        requires few { length types.now ≤ 64 }
        requires small { list_all is_small types.now ≡ true }
        ensures { IfOk result (λ new. told_of new ≡ told_types types.now) }
    {
        let mut telling = Telling {
            kinds: Vec::new(alloc),
            calls: Vec::new(alloc),
        };
        for type_no in 0..types.len() as u32 {
            telling.define(alloc, type_no, &types[type_no as usize])?;
        }
        Ok(telling)
    }

    // A type and its definition.
    fn define(&mut self, alloc: Global, type_no: u32, decl: &TypeDecl) -> Result<(), NoMemory>
        requires { length (cards_of decl.now.schema) ≤ 1024 }
        ensures kinds { OnOk result (self.new.kinds.items ≡ self.old.kinds.items ++ defined_kind type_no decl.now ∷ []) }
        ensures calls { OnOk result (self.new.calls.items ≡ self.old.calls.items ++ by program (Stored.Define type_no decl.now.schema) ∷ []) }
    {
        self.kinds.push(defined_kind(alloc, type_no, decl)?)?;
        self.note(PROGRAM, Stored::Define(type_no, decl.schema.copy(alloc)?))
    }

    // One call more.
    fn note(&mut self, caller: u32, event: Stored) -> Result<(), NoMemory>
        ensures { OnOk result (told_of self.new ≡ with_call caller event (told_of self.old)) }
    {
        self.calls.push(Recorded { caller, event })?;
        Ok(())
    }

    // The calls of a phase, line by line.
    fn tell_phase(&mut self, alloc: Global, file: &File, lines: &[Line]) -> Result<(), NoMemory>
        requires { phase_effort lines.now ≤ 4000000000 }
        ensures { OnOk result (told_of self.new ≡ told_phase file.now (told_of self.old) lines.now) }
    {
        for line in lines {
            self.tell(alloc, file, line)?;
        }
        Ok(())
    }

    // The calls of a line: its own, and those that the answer to it brings.
    fn tell(&mut self, alloc: Global, file: &File, line: &Line) -> Result<(), NoMemory>
        requires { line_effort line.now ≤ 4000000000 }
        ensures { OnOk result (told_of self.new ≡ told_line file.now (told_of self.old) line.now) }
    {
        let caller = line.actor;
        match call_of(alloc, caller, roles_of(file, caller), &line.act)? {
            Call::Kind { type_no, event } => self.tell_kind(alloc, caller, type_no, event),
            Call::Case { id, event } => self.note(caller, Stored::Case(id, event)),
            Call::Newest { type_no, then } => {
                self.tell_newest(caller, type_no, then, file.cases.as_slice())
            }
        }
    }

    // A call of a type, which the type answers.
    fn tell_kind(
        &mut self,
        alloc: Global,
        caller: u32,
        type_no: u32,
        event: KindEvent,
    ) -> Result<(), NoMemory>
        requires { kind_weight event ≤ 4000000000 }
        ensures { OnOk result (told_of self.new ≡ told_call [] caller (Call.Kind type_no event) (told_of self.old)) }
    {
        if let Some(kind) = self.kinds.get_mut(type_no as usize) {
            let _ = kind.step(alloc, &event)?;
        }
        self.note(caller, stored_kind(type_no, event))
    }

    // The type is asked for its newest version, on which the case is created, or to which each of its first so many cases is to move.
    fn tell_newest(
        &mut self,
        caller: u32,
        type_no: u32,
        then: Told,
        cases: &[CaseDecl],
    ) -> Result<(), NoMemory>
        ensures { OnOk result (told_of self.new ≡ told_call cases.now caller (Call.Newest type_no then) (told_of self.old)) }
    {
        let newest = self.newest_number(type_no);
        self.note(caller, Stored::Newest(type_no))?;
        match newest {
            None => Ok(()),
            Some(number) => match then {
                Told::Create(id) => self.note(caller, Stored::Create(id, number)),
                Told::Migrate(many) => self.migrate_to(caller, type_no, many, number, cases),
            },
        }
    }

    // Each of the type's first so many cases is to move to a version.
    fn migrate_to(
        &mut self,
        caller: u32,
        type_no: u32,
        many: u32,
        number: u32,
        cases: &[CaseDecl],
    ) -> Result<(), NoMemory>
        ensures { OnOk result (told_of self.new ≡ with_calls (migrations caller type_no many number cases.now) (told_of self.old)) }
    {
        for decl in cases {
            if decl.is_among(type_no, many) {
                self.note(caller, Stored::Migrate(decl.id, number))?;
            }
        }
        Ok(())
    }

    // The number of a type's newest version, where there is one.
    fn newest_number(&self, type_no: u32) -> Option<u32>
        ensures { result ≡ newest_number type_no self.now.kinds.items }
    {
        let version = self.kinds.get(type_no as usize)?.newest()?;
        Some(version.number())
    }
}

// An event of a type as it is stored.
fn stored_kind(type_no: u32, event: KindEvent) -> Stored
    ensures { result ≡ stored_kind type_no event }
{
    match event {
        KindEvent::Define(schema) => Stored::Define(type_no, schema),
        KindEvent::Install(ops) => Stored::Install(type_no, ops),
        KindEvent::Newest => Stored::Newest(type_no),
    }
}
