// Calls that are tried: what each would add to a journal, on a run that stays as it is, and a type that is put back.
ghost use Rattle.std.specs.{Prelude.{◌≡◌, ◌+◌, ◌≤◌, slice_get, IfOk, IfSome, option_map}, Option.option_copied};
ghost use Rattle.case_core.specs.Ages.{age, weight};
ghost use Rattle.script_run.specs.Calls.{newest};
ghost use Rattle.type_core.specs.Machine.{weight as kind_weight};
ghost use Rattle.unit_run.specs.Tries.{is_installed, kind_before, next_case_entry, next_kind_entry, put_back_kind, restored, was_installed};

use crate::runs::UnitRun;
use case_core::Event;
use script_run::{CaseEntry, ClosedCase, ClosedKind, KindEntry, KindJournal};
use std::alloc::Global;
use std::mem;
use turn_cell::Machine;
use type_core::{Kind, KindEvent, KindReply};
use wsm_lists::NoMemory;
use wsm_sound::Version;

/// A type as it was before a call, and how many calls it had.
#[derive(Drop)]
pub struct KindBefore {
    machine: Kind,
    calls: usize,
}

impl UnitRun {
    /// The entry that a call would add to the journal of a type, with its place there. None where there is no such type.
    pub fn try_kind(
        &self,
        alloc: Global,
        caller: u32,
        type_no: u32,
        event: KindEvent,
    ) -> Result<Option<(u64, KindEntry)>, NoMemory>
        requires { kind_weight event ≤ 4000000000 }
        ensures { IfOk result (λ entry. entry ≡ option_map (next_kind_entry caller event) (slice_get self.now.run.kinds type_no)) }
    {
        match self.kinds().get(type_no as usize) {
            None => Ok(None),
            Some(kind) => Ok(Some(next_kind_entry(alloc, kind, caller, event)?)),
        }
    }

    /// The entry that a call would add to the journal of the case that was declared at a place, with its place there. None
    /// where there is no such case. Of a case no more than one copy is made, and it is gone behind the call.
    pub fn try_case_at(
        &mut self,
        alloc: Global,
        place: usize,
        caller: u32,
        event: Event,
    ) -> Result<Option<(u64, CaseEntry)>, NoMemory>
        requires { IfSome (slice_get self.old.run.cases place) (λ c. age c.machine + weight event ≤ 4000000000) }
        ensures entry { IfOk result (λ entry. entry ≡ option_map (next_case_entry caller event) (slice_get self.old.run.cases place)) }
        ensures same { self.new ≡ self.old }
    {
        match self.run.cases.get_mut(place) {
            None => Ok(None),
            Some(case) => Ok(Some(next_case_entry(alloc, case, caller, event)?)),
        }
    }

    /// The newest version of a type, where there is such a type and it has one.
    pub fn newest(&self, type_no: u32) -> Result<Option<Version>, NoMemory>
        ensures { IfOk result (λ version. version ≡ newest type_no self.now.run) }
    {
        let Some(kind) = self.kinds().get(type_no as usize) else {
            return Ok(None);
        };
        match kind.machine.newest() {
            None => Ok(None),
            Some(version) => Ok(Some(version.share()?)),
        }
    }

    /// A type as it is, to be put back. None where there is no such type.
    pub fn kind_before(&self, alloc: Global, type_no: u32) -> Result<Option<KindBefore>, NoMemory>
        ensures { IfOk result (λ before. before ≡ kind_before type_no self.now.run) }
    {
        match self.kinds().get(type_no as usize) {
            None => Ok(None),
            Some(kind) => Ok(Some(KindBefore {
                machine: kind.machine.copy(alloc)?,
                calls: kind.journal.len(),
            })),
        }
    }

    /// Puts a type back, where there was one: it has the versions that it had, and the calls. Takes no memory.
    pub fn put_back(&mut self, alloc: Global, type_no: u32, before: Option<KindBefore>)
        ensures run { self.new.run ≡ put_back_kind type_no before self.old.run }
        ensures places { self.new.placed ≡ self.old.placed }
    {
        let Some(before) = before else { return };
        if let Some(kind) = self.run.kinds.get_mut(type_no as usize) {
            restore(alloc, kind, before);
        }
    }

    /// Whether the last call of a type has installed a version.
    pub fn was_installed(&self, type_no: u32) -> bool
        ensures { result ≡ was_installed type_no self.now.run }
    {
        match self.kinds().get(type_no as usize) {
            None => false,
            Some(kind) => is_installed(kind.journal.as_slice().last()),
        }
    }
}

// The entry that a call would add to the journal of a type: it is made of a copy, which shares the versions.
fn next_kind_entry(
    alloc: Global,
    kind: &ClosedKind,
    caller: u32,
    event: KindEvent,
) -> Result<(u64, KindEntry), NoMemory>
    requires { kind_weight event ≤ 4000000000 }
    ensures { IfOk result (λ entry. entry ≡ next_kind_entry caller event kind.now) }
{
    let mut copy = kind.machine.copy(alloc)?;
    let (reply, _) = copy.step(alloc, &event)?;
    let place = kind.journal.as_slice().len() as u64 + 1;
    let entry = KindEntry {
        caller,
        event,
        reply,
    };
    Ok((place, entry))
}

// The entry that a call would add to the journal of a case.
fn next_case_entry(
    alloc: Global,
    case: &mut ClosedCase,
    caller: u32,
    event: Event,
) -> Result<(u64, CaseEntry), NoMemory>
    requires { age case.old.machine + weight event ≤ 4000000000 }
    ensures entry { IfOk result (λ entry. entry ≡ next_case_entry caller event case.old) }
    ensures same { case.new ≡ case.old }
{
    let reply = case.machine.try_step(alloc, &event)?;
    let place = case.journal.as_slice().len() as u64 + 1;
    let entry = CaseEntry {
        caller,
        event,
        reply,
    };
    Ok((place, entry))
}

// A type as it was before. Takes no memory.
fn restore(alloc: Global, kind: &mut ClosedKind, before: KindBefore)
    ensures { kind.new ≡ restored before kind.old }
{
    let mut calls = mem::replace(&mut kind.journal, KindJournal::new(alloc)).into_vec();
    calls.truncate(before.calls);
    kind.journal = KindJournal::from_vec(calls);
    kind.machine = before.machine;
}

// Whether a call was answered that a version is installed.
fn is_installed(last: Option<&KindEntry>) -> bool
    ensures { result ≡ is_installed (option_copied last.entry) }
{
    match last {
        None => false,
        Some(entry) => match entry.reply {
            KindReply::Installed(_) => true,
            KindReply::Defined
            | KindReply::Is(_)
            | KindReply::Already
            | KindReply::NoType
            | KindReply::VersionLimit
            | KindReply::Unsound(_) => false,
        },
    }
}
