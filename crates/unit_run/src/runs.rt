// The run that is held.
ghost use Rattle.std.specs.Prelude.{◌≡◌, ◌<◌, ◌≤◌, ◌^◌, ◌+◌, ◌++◌, ◌∷◌, [], length, Some, OnOk};
ghost use Rattle.case_core.specs.Ages.{weight};
ghost use Rattle.file_model.specs.Sizes.{line_effort};
ghost use Rattle.line_calls.specs.Calls.{call_weight};
ghost use Rattle.script_run.specs.{Calls.{called, on_case, on_each, told_to, worked}, Oldest.oldest};
ghost use Rattle.unit_run.specs.Runs.{IsOf, no_run, with_case, with_kind};
ghost use Rattle.wsm_schema.specs.Flat.{cards_of};

use case_core::{Case, Event};
use case_places::CasePlaces;
use file_model::{CaseDecl, File, Line, TypeDecl};
use line_calls::{Call, Told, call_of, roles_of};
use script_run::{CaseJournal, ClosedCase, ClosedKind, Working, defined};
use std::alloc::Global;
use std::marker::Model;
use wsm_lists::NoMemory;
use wsm_sound::{CaseId, Version};

/// The types and the cases of a file, in order of declaration, behind the calls of its lines.
#[derive(Drop)]
pub struct UnitRun {
    pub(crate) run: Working,
    pub(crate) places: CasePlaces,
}

impl Model for UnitRun {
    ghost use Rattle.std.specs.Coded.{codes};
    ghost use Rattle.script_run.specs.Parts.{run_of};
    ghost use Rattle.script_run.specs.contracts.runs.Run as run_type;
    ghost use Rattle.unit_run.specs.Runs.{Placing};

    ghost Value = { Placing };

    ghost coded = { Prim.hlevel (codes, run_type.the_row.coded) };

    ghost view = { λ a. record { run = run_of a.run; placed = a.places } };
}

impl UnitRun {
    /// No type and no case.
    pub fn new(alloc: Global) -> UnitRun
        ensures { result ≡ record { run = no_run; placed = record { kinds = 0; types = [] } } }
    {
        UnitRun {
            run: Working {
                kinds: Vec::new(alloc),
                cases: Vec::new(alloc),
            },
            places: CasePlaces::new(alloc),
        }
    }

    /// The types.
    pub fn kinds(&self) -> &[ClosedKind]
        ensures { result.now ≡ self.now.run.kinds }
    {
        &self.run.kinds
    }

    /// The cases.
    pub fn cases(&self) -> &[ClosedCase]
        ensures { result.now ≡ self.now.run.cases }
    {
        &self.run.cases
    }

    /// Where the cases of each type were declared.
    pub fn places(&self) -> &CasePlaces
        ensures { result.now ≡ self.now.placed }
    {
        &self.places
    }

    /// One more type, which is defined.
    pub fn define(&mut self, alloc: Global, decl: &TypeDecl) -> Result<(), NoMemory>
        requires small { length (cards_of decl.now.schema) ≤ 1024 }
        requires even { self.old.placed.kinds ≡ length self.old.run.kinds }
        requires room { length self.old.run.kinds + 1 < 2 ^ 32 }
        ensures run { OnOk result (self.new.run ≡ with_kind decl.now self.old.run) }
        ensures places { OnOk result (self.new.placed ≡ record self.old.placed { kinds = self.old.placed.kinds + 1 }) }
    {
        let number = self.run.kinds.len() as u32;
        self.run.kinds.push(defined(alloc, number, decl, 1)?)?;
        self.places.add_kind(alloc)
    }

    /// One more case of a type that is there, which nobody has called.
    pub fn declare(&mut self, alloc: Global, decl: &CaseDecl) -> Result<(), NoMemory>
        requires there { decl.now.id.type_no < self.old.placed.kinds }
        requires room { length self.old.placed.types + 1 < 2 ^ 32 }
        ensures run { OnOk result (self.new.run ≡ with_case decl.now self.old.run) }
        ensures places { OnOk result (self.new.placed ≡ record self.old.placed { types = self.old.placed.types ++ decl.now.id.type_no ∷ [] }) }
    {
        self.run.cases.push(ClosedCase {
            machine: Case::new(alloc, decl.id.type_no),
            journal: CaseJournal::new(alloc),
        })?;
        self.places.add_case(decl.id.type_no)
    }

    /// The calls of a line of the file, whose cases these are.
    pub fn work(&mut self, alloc: Global, file: &File, line: &Line) -> Result<(), NoMemory>
        requires of { IsOf file.now.cases self.old }
        requires age { oldest self.old.run.cases + line_effort line.now ≤ 4000000000 }
        ensures run { OnOk result (self.new.run ≡ worked file.now self.old.run line.now) }
        ensures places { OnOk result (self.new.placed ≡ self.old.placed) }
        ensures age { OnOk result (oldest self.new.run.cases ≤ oldest self.old.run.cases + line_effort line.now) }
    {
        let caller = line.actor;
        let call = call_of(alloc, caller, roles_of(file, caller), &line.act)?;
        self.make(alloc, file, caller, call)
    }

    // Makes a call.
    fn make(&mut self, alloc: Global, _file: &File, caller: u32, call: Call) -> Result<(), NoMemory>
        requires of { IsOf _file.now.cases self.old }
        requires age { oldest self.old.run.cases + call_weight call ≤ 4000000000 }
        ensures run { OnOk result (self.new.run ≡ called _file.now caller call self.old.run) }
        ensures places { OnOk result (self.new.placed ≡ self.old.placed) }
        ensures age { OnOk result (oldest self.new.run.cases ≤ oldest self.old.run.cases + call_weight call) }
    {
        match call {
            Call::Kind { type_no, event } => self.run.on_kind(alloc, caller, type_no, event),
            Call::Case { id, event } => self.on_case(alloc, _file, caller, id, event),
            Call::Newest { type_no, then } => match self.run.newest(alloc, caller, type_no)? {
                None => Ok(()),
                Some(version) => self.tell(alloc, _file, caller, type_no, then, version),
            },
        }
    }

    // Tells the version that a type answered.
    fn tell(
        &mut self,
        alloc: Global,
        _file: &File,
        caller: u32,
        type_no: u32,
        then: Told,
        version: Version,
    ) -> Result<(), NoMemory>
        requires of { IsOf _file.now.cases self.old }
        requires age { oldest self.old.run.cases ≤ 4000000000 }
        ensures run { OnOk result (self.new.run ≡ told_to _file.now caller type_no then (Some version) self.old.run) }
        ensures places { OnOk result (self.new.placed ≡ self.old.placed) }
        ensures age { OnOk result (oldest self.new.run.cases ≤ oldest self.old.run.cases) }
    {
        match then {
            Told::Create(id) => self.on_case(alloc, _file, caller, id, Event::Create(version)),
            Told::Migrate(many) => self.on_each(
                alloc,
                _file,
                caller,
                type_no,
                many,
                &Event::Migrate(version),
            ),
        }
    }

    // One call of a case, where it is there.
    fn on_case(
        &mut self,
        alloc: Global,
        _file: &File,
        caller: u32,
        id: CaseId,
        event: Event,
    ) -> Result<(), NoMemory>
        requires of { IsOf _file.now.cases self.old }
        requires age { oldest self.old.run.cases + weight event ≤ 4000000000 }
        ensures run { OnOk result (self.new.run ≡ on_case _file.now caller id event self.old.run) }
        ensures places { OnOk result (self.new.placed ≡ self.old.placed) }
        ensures age { OnOk result (oldest self.new.run.cases ≤ oldest self.old.run.cases + weight event) }
    {
        match self.places.of_case(id) {
            None => Ok(()),
            Some(place) => self.run.on_case_at(alloc, place as usize, caller, event),
        }
    }

    // One call of each of the first so many cases of a type.
    fn on_each(
        &mut self,
        alloc: Global,
        _file: &File,
        caller: u32,
        type_no: u32,
        many: u32,
        event: &Event,
    ) -> Result<(), NoMemory>
        requires of { IsOf _file.now.cases self.old }
        requires age { oldest self.old.run.cases + weight event.now ≤ 4000000000 }
        ensures run { OnOk result (self.new.run ≡ on_each _file.now caller type_no many event.now self.old.run) }
        ensures places { OnOk result (self.new.placed ≡ self.old.placed) }
        ensures age { OnOk result (oldest self.new.run.cases ≤ oldest self.old.run.cases + weight event.now) }
    {
        for place in self.places.first_of_kind(type_no, many) {
            let event = event.copy(alloc)?;
            self.run.on_case_at(alloc, *place as usize, caller, event)?;
        }
        Ok(())
    }
}
