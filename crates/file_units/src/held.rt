// The file that is held.
ghost use Rattle.std.specs.Prelude.{◌≡◌, ◌≢◌, [], ◌+◌, ◌*◌, ◌≤◌, length, true, IfOk, IfErr, OnOk};
ghost use Rattle.file_model.specs.{Reading.file_of, Room.{HasRoom, count_of_names}, Scripting.actor_in, Sizes.HasNumbers, declared.states.Contents.Contents};
ghost use Rattle.file_names.specs.Names.{place_of};
ghost use Rattle.file_units.specs.{Facts.{IsHeld, IsReady}, Growing.{Grows, marks_of}, Taking.{GoesOn, IsBehind, Refuses, Says, said_behind, said_effort, unit_refusal}, Units.{no_units, settled, unit_read}};

use crate::reading::{Marks, cut_back, read_unit, settle};
use crate::shown::{bring_up, cut_file, no_file, nothing};
use file_model::{Contents, File, FileRefusal, Line, Refused};
use file_names::NameTable;
use file_words::NameWord;
use std::alloc::Global;
use std::marker::Model;
use wsm_lists::NoMemory;

/// A file of format 3 that grows by units, and what the reader knows of it.
#[derive(Drop)]
pub struct HeldFile {
    contents: Contents,
    file: File,
}

impl Model for HeldFile {
    ghost use Rattle.std.specs.Prelude.{◌≡◌};
    ghost use Rattle.std.specs.Coded.{codes};
    ghost use Rattle.file_model.specs.Reading.{file_of};
    ghost use Rattle.file_model.specs.contracts.states.Contents as states;
    ghost use Rattle.file_model.specs.declared.states.Contents.{Contents};
    ghost use Rattle.file_units.specs.Facts.{IsHeld};

    ghost Value = { Contents };

    ghost coded = { Prim.hlevel (codes, states.the_row.coded) };

    ghost view = { λ a. a.contents };

    ghost invariant = { λ a. (a.file ≡ file_of a.contents) × IsHeld a.contents };
}

/// What a unit says that was taken.
#[derive(Drop)]
pub enum Said {
    /// A type, which is the last one now.
    Type,
    /// A case, which is the last one now.
    Case,
    /// A line of an actor, with its operations where it is a group.
    Line(Line),
    /// An actor, or that a phase begins: nothing is called.
    Other,
}

/// Why a unit is not taken.
#[derive(Drop)]
pub enum UnitRefusal {
    /// The reader refuses one of its lines, whose number counts those that say something.
    Refused(Refused),
    /// There is no room for it.
    Full,
    /// There was not enough memory.
    NoMemory,
}

impl From<NoMemory> for UnitRefusal {
    ghost use Rattle.std.specs.Prelude.{◌≡◌};
    ghost use Rattle.file_units.specs.declared.held.UnitRefusal.TheVariants as refusal;

    ghost from_gives = { λ _ e. e ≡ refusal.NoMemory };

    fn from(_error: NoMemory) -> UnitRefusal {
        UnitRefusal::NoMemory
    }
}

// A refusal of the reader's is one of the unit.
fn unit_refusal(refusal: FileRefusal) -> UnitRefusal
    ensures { result ≡ unit_refusal refusal }
{
    match refusal {
        FileRefusal::Refused(refused) => UnitRefusal::Refused(refused),
        FileRefusal::NoMemory => UnitRefusal::NoMemory,
    }
}

// What was said behind the marks. Between two units nothing of it is left in the contents.
fn settle_said(contents: &mut Contents, alloc: Global, marks: Marks) -> Said
    ensures said { result ≡ said_behind marks contents.old }
    ensures settled { contents.new ≡ settled contents.old }
{
    let types = contents.types.items.len();
    let cases = contents.cases.items().len();
    match settle(contents, alloc) {
        Some(line) => Said::Line(line),
        None => if types > marks.types {
            Said::Type
        } else if cases > marks.cases {
            Said::Case
        } else {
            Said::Other
        },
    }
}

// Reads a unit behind what was read before, and brings the file up to it. Where it is refused, and where there is no room,
// both are as before.
fn read_behind(
    contents: &mut Contents,
    file: &mut File,
    alloc: Global,
    unit: &[u8],
    has_room: bool,
) -> Result<Said, UnitRefusal>
    requires held { IsHeld contents.old }
    requires file { file.old ≡ file_of contents.old }
    requires room { HasRoom (length unit.now + 6) contents.old }
    ensures taken { IfOk result (λ said. (has_room ≡ true) × Says contents.old (unit_read contents.old unit.now) contents.new said) }
    ensures effort { IfOk result (λ said. said_effort said ≤ 2 * length unit.now) }
    ensures names { OnOk result (count_of_names contents.new ≤ count_of_names contents.old + length unit.now) }
    ensures grows { OnOk result (Grows contents.old contents.new) }
    ensures held { OnOk result (IsHeld contents.new) }
    ensures file { OnOk result (file.new ≡ file_of contents.new) }
    ensures refused { IfErr result (λ refusal. Refuses has_room (unit_read contents.old unit.now) refusal) }
    ensures kept { IfErr result (λ refusal. refusal ≢ UnitRefusal.NoMemory → (contents.new ≡ contents.old) × (file.new ≡ file.old)) }
{
    let marks = Marks::of(contents);
    if let Err(refusal) = read_unit(contents, alloc, unit) {
        cut_back(contents, alloc, marks);
        return Err(unit_refusal(refusal));
    }
    if !has_room {
        cut_back(contents, alloc, marks);
        return Err(UnitRefusal::Full);
    }
    bring_up(file, alloc, contents)?;
    Ok(settle_said(contents, alloc, marks))
}

// Nothing is left of what was read.
#[inline(never)]
fn give_up(contents: &mut Contents, file: &mut File, alloc: Global)
    ensures contents { contents.new ≡ record no_units { nodes = [] } }
    ensures file { file.new ≡ file_of contents.new }
{
    *contents = nothing(alloc);
    *file = no_file(alloc);
}

impl HeldFile {
    /// The header line alone.
    pub fn new(alloc: Global) -> Result<HeldFile, NoMemory>
        ensures { IfOk result (λ new. new ≡ no_units) }
    {
        let mut contents = nothing(alloc);
        contents.nodes = NameTable::start_and_finish(alloc)?;
        let mut file = no_file(alloc);
        bring_up(&mut file, alloc, &contents)?;
        Ok(HeldFile { contents, file })
    }

    /// The file.
    pub fn file(&self) -> &File
        ensures file { result.now ≡ file_of self.now }
        ensures ready { IsReady self.now }
        ensures numbers { HasNumbers result.now }
    {
        // (each length is only read for what its clause says of it)
        let _ = self.contents.nodes.len();
        let _ = self.contents.elements.len();
        let _ = self.contents.roles.len();
        &self.file
    }

    /// The type with a name.
    pub fn type_of(&self, name: NameWord<'_>) -> Option<u32>
        ensures { result ≡ place_of self.now.types.names name.entry.bytes.now }
    {
        self.contents.types.names.find(name)
    }

    /// The actor with a name, from 1.
    pub fn actor_of(&self, name: NameWord<'_>) -> Option<u32>
        ensures { result ≡ actor_in name.entry.bytes.now self.now }
    {
        Some(self.contents.actors.names.find(name)? + 1)
    }

    /// Where the case with a name was declared.
    pub fn case_of(&self, name: NameWord<'_>) -> Option<u32>
        ensures { result ≡ place_of self.now.cases.names name.entry.bytes.now }
    {
        self.contents.cases.names().find(name)
    }

    /// Takes a unit behind the others, where it is not refused and there is room for it. Else the file is as before, but where
    /// there was not enough memory nothing of it is left.
    pub fn take_unit(
        &mut self,
        alloc: Global,
        unit: &[u8],
        has_room: bool,
    ) -> Result<Said, UnitRefusal>
        requires { HasRoom (length unit.now + 6) self.old }
        ensures taken { IfOk result (λ said. (has_room ≡ true) × Says self.old (unit_read self.old unit.now) self.new said) }
        ensures effort { IfOk result (λ said. said_effort said ≤ 2 * length unit.now) }
        ensures names { OnOk result (count_of_names self.new ≤ count_of_names self.old + length unit.now) }
        ensures goes_on { OnOk result (GoesOn self.old self.new) }
        ensures refused { IfErr result (λ refusal. Refuses has_room (unit_read self.old unit.now) refusal) }
        ensures kept { IfErr result (λ refusal. refusal ≢ UnitRefusal.NoMemory → self.new ≡ self.old) }
    {
        match read_behind(&mut self.contents, &mut self.file, alloc, unit, has_room) {
            Ok(said) => Ok(said),
            Err(UnitRefusal::NoMemory) => {
                give_up(&mut self.contents, &mut self.file, alloc);
                Err(UnitRefusal::NoMemory)
            }
            Err(refusal) => Err(refusal),
        }
    }
    /// How much is named and declared.
    pub fn marks(&self) -> Marks
        ensures { result ≡ marks_of self.now }
    {
        Marks::of(&self.contents)
    }

    /// Takes back all that was taken behind the marks, in time of what that is: the file is the one from which they were.
    pub fn take_back(&mut self, alloc: Global, marks: Marks)
        requires { IsBehind marks self.old }
        ensures { (before : Contents) → GoesOn before self.old → marks ≡ marks_of before → self.new ≡ before }
    {
        cut_file(&mut self.file, alloc, marks);
        cut_back(&mut self.contents, alloc, marks);
    }
}
