// Calls of types and cases.
ghost use Rattle.std.specs.Prelude.{◌≡◌, ◌+◌, ◌≤◌, slice_get, IfOk, IfSome, OnOk};
ghost use Rattle.case_core.specs.Ages.{age, weight};
ghost use Rattle.script_run.specs.{Calls.{call_case, call_kind, changed_at, newest, on_case, on_each, on_kind, answered_version}, Oldest.oldest, Parts.run_of};
ghost use Rattle.type_core.specs.Machine.{next_kind, weight as kind_weight};

use crate::runs::{CaseEntry, ClosedCase, ClosedCases, ClosedKind, ClosedKinds, KindEntry, Run};
use case_core::Event;
use line_calls::Script;
use std::alloc::Global;
use turn_cell::Machine;
use type_core::{KindEvent, KindReply};
use wsm_lists::NoMemory;
use wsm_sound::{CaseId, Version};

/// The types and the cases of a run while lines are worked.
#[derive(Drop)]
pub struct Working {
    pub kinds: Vec<ClosedKind>,
    pub cases: Vec<ClosedCase>,
}

impl Working {
    /// The run so far.
    pub fn into_run(self) -> Run
        ensures { result ≡ run_of self }
    {
        Run {
            kinds: ClosedKinds::from_vec(self.kinds),
            cases: ClosedCases::from_vec(self.cases),
        }
    }

    /// One call of a type.
    pub fn on_kind(
        &mut self,
        alloc: Global,
        caller: u32,
        type_no: u32,
        event: KindEvent,
    ) -> Result<(), NoMemory>
        requires { kind_weight event ≤ 4000000000 }
        ensures run { OnOk result (run_of self.new ≡ on_kind caller type_no event (run_of self.old)) }
        ensures cases { OnOk result (self.new.cases.items ≡ self.old.cases.items) }
    {
        match self.kinds.get_mut(type_no as usize) {
            None => Ok(()),
            Some(kind) => {
                call_kind(alloc, kind, caller, event)?;
                Ok(())
            }
        }
    }

    /// A type is asked for its newest version.
    pub fn newest(
        &mut self,
        alloc: Global,
        caller: u32,
        type_no: u32,
    ) -> Result<Option<Version>, NoMemory>
        ensures run { IfOk result (λ version. run_of self.new ≡ on_kind caller type_no KindEvent.Newest (run_of self.old)) }
        ensures cases { IfOk result (λ version. self.new.cases.items ≡ self.old.cases.items) }
        ensures version { IfOk result (λ version. version ≡ newest type_no (run_of self.old)) }
    {
        match self.kinds.get_mut(type_no as usize) {
            None => Ok(None),
            Some(kind) => {
                let reply = call_kind(alloc, kind, caller, KindEvent::Newest)?;
                Ok(answered_version(reply))
            }
        }
    }

    /// One call of a case.
    pub fn on_case(
        &mut self,
        alloc: Global,
        script: &Script<'_>,
        caller: u32,
        id: CaseId,
        event: Event,
    ) -> Result<(), NoMemory>
        requires { oldest self.old.cases.items + weight event ≤ 4000000000 }
        ensures run { OnOk result (run_of self.new ≡ on_case script.now.file.now caller id event (run_of self.old)) }
        ensures age { OnOk result (oldest self.new.cases.items ≤ oldest self.old.cases.items + weight event) }
    {
        match script.place_of(id) {
            None => Ok(()),
            Some(place) => self.on_case_at(alloc, place, caller, event),
        }
    }

    /// One call of each of the first so many cases of a type.
    pub fn on_each(
        &mut self,
        alloc: Global,
        script: &Script<'_>,
        caller: u32,
        type_no: u32,
        many: u32,
        event: &Event,
    ) -> Result<(), NoMemory>
        requires { oldest self.old.cases.items + weight event.now ≤ 4000000000 }
        ensures run { OnOk result (run_of self.new ≡ on_each script.now.file.now caller type_no many event.now (run_of self.old)) }
        ensures age { OnOk result (oldest self.new.cases.items ≤ oldest self.old.cases.items + weight event.now) }
    {
        for (place, decl) in script.file.cases.as_slice().iter().enumerate() {
            if decl.is_among(type_no, many) {
                self.on_case_at(alloc, place, caller, event.copy(alloc)?)?;
            }
        }
        Ok(())
    }

    /// One call of the case at a place, where there is one.
    pub fn on_case_at(
        &mut self,
        alloc: Global,
        place: usize,
        caller: u32,
        event: Event,
    ) -> Result<(), NoMemory>
        requires { IfSome (slice_get self.old.cases.items place) (λ c. age c.machine + weight event ≤ 4000000000) }
        ensures kinds { OnOk result (self.new.kinds.items ≡ self.old.kinds.items) }
        ensures cases { OnOk result (self.new.cases.items ≡ changed_at (call_case caller event) place self.old.cases.items) }
    {
        match self.cases.get_mut(place) {
            None => Ok(()),
            Some(case) => call_case(alloc, case, caller, event),
        }
    }
}

// The version that a type answers where it is asked for the newest.
fn answered_version(reply: KindReply) -> Option<Version>
    ensures { result ≡ answered_version reply }
{
    match reply {
        KindReply::Is(version) => Some(version),
        KindReply::Defined
        | KindReply::Installed(_)
        | KindReply::Already
        | KindReply::NoType
        | KindReply::VersionLimit
        | KindReply::Unsound(_) => None,
    }
}

/// A call of a type: a step, and an entry of the journal.
pub fn call_kind(
    alloc: Global,
    kind: &mut ClosedKind,
    caller: u32,
    event: KindEvent,
) -> Result<KindReply, NoMemory>
    requires { kind_weight event ≤ 4000000000 }
    ensures kind { IfOk result (λ reply. kind.new ≡ call_kind caller event kind.old) }
    ensures reply { IfOk result (λ reply. reply ≡ (next_kind kind.old.machine event).1) }
{
    let (reply, answer) = kind.machine.step(alloc, &event)?;
    kind.journal.push(KindEntry {
        caller,
        event,
        reply,
    })?;
    Ok(answer)
}

// A call of a case: a step, and an entry of the journal.
fn call_case(
    alloc: Global,
    case: &mut ClosedCase,
    caller: u32,
    event: Event,
) -> Result<(), NoMemory>
    requires { age case.old.machine + weight event ≤ 4000000000 }
    ensures { OnOk result (case.new ≡ call_case caller event case.old) }
{
    let (reply, _) = case.machine.step(alloc, &event)?;
    case.journal.push(CaseEntry {
        caller,
        event,
        reply,
    })?;
    Ok(())
}
