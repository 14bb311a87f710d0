// The types and cases of a store, which the records make by fold.
ghost use Rattle.std.specs.{Prelude.{◌≡◌, ℕ, ◌+◌, ◌<◌, ◌≤◌, ◌^◌, List, ◌++◌, ◌∷◌, [], Some, true, fold, length, map, slice_get, sum, IfOk, IfSome, IfErr, OnErr, OnOk, if◌then◌else◌, replicate}, Option.{is_some, option_copied}};
ghost use Rattle.case_core.specs.{Ages.{age, weight}, CaseModel.not_created, Machine.next_case};
ghost use Rattle.case_store.specs.{Damage.{TakesIn, TellsDamage}, Folding.{answer_of, answer_of_case, answers_of, called, case_answer, fresh, fresh_cases, fresh_kinds, has, has_case, has_names, kind_answer, made, on_case, place_of, starts_of}};
ghost use Rattle.case_store.specs.{Folding.{stored_weight, version_of, weight_of_all}, Standing.{AreKnown, IsFoldOf}};
ghost use Rattle.script_run.specs.{Calls.{call_case, call_kind, changed_at, on_kind}, Oldest.oldest};
ghost use Rattle.store_disk.specs.{Opening.with_gate, Rest.EndsAt};
ghost use Rattle.store_form.specs.{Stored.HasNoVersion, declared.stored.Recorded.Recorded};
ghost use Rattle.store_room.specs.Room.{payload_of};
ghost use Rattle.turn_cell.specs.History.{entry};
ghost use Rattle.type_core.specs.{KindModel.not_defined, Machine.{next_kind, weight as kind_weight}};

use crate::refusals::ImageFault;
use crate::replies::StoredReply;
use adept_io::NoMemory;
use case_core::{Case, Event, Reply};
use script_run::{
    CaseEntry, CaseJournal, ClosedCase, ClosedCases, ClosedKind, ClosedKinds, KindEntry,
    KindJournal,
};
use std::alloc::Global;
use std::marker::Model;
use std::mem;
use store_disk::{Frame, frame_in};
use store_form::{Recorded, Stored, is_shallow, read_payload};
use turn_cell::Machine;
use type_core::{Kind, KindEvent, KindReply};
use wsm_sound::{CaseId, Version};

// Types, and their cases by type and place.
#[derive(Drop)]
pub(crate) struct HeldCells {
    // Where the cases of each type begin, and where the last ones end.
    starts: Vec<u32>,
    kinds: Vec<ClosedKind>,
    cases: Vec<ClosedCase>,
}

impl Model for HeldCells {
    ghost use Rattle.std.specs.Prelude.{◌≤◌, length};
    ghost use Rattle.std.specs.List.{AllByRecursion};
    ghost use Rattle.std.specs.Coded.{codes};
    ghost use Rattle.script_run.specs.contracts.runs.Run as run;
    ghost use Rattle.case_store.specs.Standing.{Held};

    ghost Value = { Held };

    ghost coded = { Prim.hlevel (codes, run.the_row.coded) };

    ghost view = { λ a. record { starts = a.starts.items; run = record { kinds = a.kinds.items; cases = a.cases.items } } };

    ghost invariant = { λ a. AllByRecursion (λ s. s ≤ length a.cases.items) a.starts.items };
}

impl HeldCells {
    // Types that nobody has called, with so many cases each.
    fn new(alloc: Global, counts: &[u32]) -> Result<HeldCells, NoMemory>
        requires { length counts.now + sum counts.now < 2 ^ 32 }
        ensures { IfOk result (λ new. new ≡ record { starts = starts_of counts.now; run = fresh counts.now }) }
    {
        Ok(HeldCells {
            starts: starts_of(alloc, counts)?,
            kinds: fresh_kinds(alloc, counts)?,
            cases: fresh_cases(alloc, counts)?,
        })
    }

    // The types and the cases, without taking memory.
    pub(crate) fn into_parts(self) -> (ClosedKinds, ClosedCases)
        ensures { (result.0 ≡ self.run.kinds) × (result.1 ≡ self.run.cases) }
    {
        let HeldCells { kinds, cases, .. } = self;
        (ClosedKinds::from_vec(kinds), ClosedCases::from_vec(cases))
    }

    // Where a case stands.
    pub(crate) fn place_of(&self, case: CaseId) -> Option<usize>
        ensures place { result ≡ place_of self.now.starts case }
        ensures within { IfSome result (λ place. place < length self.now.run.cases) }
    {
        let kind = case.type_no as usize;
        let start = *self.starts.get(kind)? as usize;
        let end = *self.starts.get(kind + 1)? as usize;
        let place = start + case.place as usize;
        if place < end { Some(place) } else { None }
    }

    // The version of a type by its number.
    fn version(&self, type_no: u32, number: u32) -> Option<&Version>
        ensures { option_copied result ≡ version_of self.now.run type_no number }
    {
        match self.kinds.get(type_no as usize) {
            None => None,
            Some(kind) => kind.machine.version(number),
        }
    }

    // Whether the type, the case and the version that an event names are there, and it has a payload.
    pub(crate) fn has(&self, event: &Stored) -> bool
        ensures { result ≡ has self.now.starts self.now.run event.now }
    {
        self.has_names(event) && is_shallow(event)
    }

    fn has_names(&self, event: &Stored) -> bool
        ensures { result ≡ has_names self.now.starts self.now.run event.now }
    {
        match event {
            Stored::Define(kind, _) | Stored::Install(kind, _) | Stored::Newest(kind) => {
                (*kind as usize) < self.kinds.len()
            }
            Stored::Create(case, number) | Stored::Migrate(case, number) => {
                self.place_of(*case).is_some() && self.version(case.type_no, *number).is_some()
            }
            Stored::Case(case, _) => self.place_of(*case).is_some(),
        }
    }

    // Makes a call of what is there. After want of memory all is as before.
    pub(crate) fn call(
        &mut self,
        alloc: Global,
        caller: u32,
        event: &Stored,
    ) -> Result<StoredReply, NoMemory>
        requires has { has self.old.starts self.old.run event.now ≡ true }
        requires plain { HasNoVersion event.now }
        requires young { oldest self.old.run.cases + stored_weight event.now ≤ 4000000000 }
        ensures run { IfOk result (λ _. self.new ≡ record self.old { run = made self.old.starts caller event.now self.old.run }) }
        ensures reply { IfOk result (λ reply. answer_of self.old.starts self.old.run event.now ≡ Some reply) }
        ensures young { IfOk result (λ _. oldest self.new.run.cases ≤ oldest self.old.run.cases + stored_weight event.now) }
        ensures kept { OnErr result (self.new ≡ self.old) }
    {
        match event {
            Stored::Define(kind, schema) => {
                self.on_kind(alloc, caller, *kind, KindEvent::Define(schema.copy(alloc)?))
            }
            Stored::Install(kind, ops) => {
                self.on_kind(alloc, caller, *kind, KindEvent::Install(ops.copy(alloc)?))
            }
            Stored::Newest(kind) => self.on_kind(alloc, caller, *kind, KindEvent::Newest),
            Stored::Create(case, number) => {
                let version = self.share_version(case.type_no, *number)?;
                self.on_case(alloc, caller, *case, Event::Create(version))
            }
            Stored::Migrate(case, number) => {
                let version = self.share_version(case.type_no, *number)?;
                self.on_case(alloc, caller, *case, Event::Migrate(version))
            }
            Stored::Case(case, event) => self.on_case(alloc, caller, *case, event.copy(alloc)?),
        }
    }

    // Makes calls of what is there, one after another, and answers what each is told. After want of memory some of them may be
    // made.
    pub(crate) fn call_all(
        &mut self,
        alloc: Global,
        calls: &[Recorded],
    ) -> Result<Vec<StoredReply>, NoMemory>
        requires known { AreKnown self.old.starts self.old.run calls.now }
        requires young { oldest self.old.run.cases + weight_of_all calls.now ≤ 4000000000 }
        ensures run { OnOk result (self.new ≡ record self.old { run = fold (called self.old.starts) self.old.run calls.now }) }
        ensures replies { IfOk result (λ replies. map Some replies.items ≡ answers_of self.old.starts self.old.run calls.now) }
        ensures young { OnOk result (oldest self.new.run.cases ≤ oldest self.old.run.cases + weight_of_all calls.now) }
    {
        let mut replies = Vec::new(alloc);
        for call in calls {
            let reply = self.call(alloc, call.caller, &call.event)?;
            replies.push(reply)?;
        }
        Ok(replies)
    }

    // The version that is there, shared.
    fn share_version(&self, type_no: u32, number: u32) -> Result<Version, NoMemory>
        requires { is_some (version_of self.now.run type_no number) ≡ true }
        ensures { IfOk result (λ version. version_of self.now.run type_no number ≡ Some version) }
    {
        match self.version(type_no, number) {
            None => unreachable!(),
            Some(version) => version.share(),
        }
    }

    fn on_kind(
        &mut self,
        alloc: Global,
        caller: u32,
        type_no: u32,
        event: KindEvent,
    ) -> Result<StoredReply, NoMemory>
        requires there { type_no < length self.old.run.kinds }
        requires light { kind_weight event ≤ 4000000000 }
        ensures run { IfOk result (λ _. self.new ≡ record self.old { run = on_kind caller type_no event self.old.run }) }
        ensures reply { IfOk result (λ reply. kind_answer event (slice_get self.old.run.kinds type_no) ≡ Some reply) }
        ensures kept { OnErr result (self.new ≡ self.old) }
    {
        let reply = call_kind(alloc, &mut self.kinds[type_no as usize], caller, event)?;
        Ok(StoredReply::Kind(reply))
    }

    fn on_case(
        &mut self,
        alloc: Global,
        caller: u32,
        case: CaseId,
        event: Event,
    ) -> Result<StoredReply, NoMemory>
        requires there { has_case self.old.starts case ≡ true }
        requires young { oldest self.old.run.cases + weight event ≤ 4000000000 }
        ensures run { IfOk result (λ _. self.new ≡ record self.old { run = on_case self.old.starts caller case event self.old.run }) }
        ensures reply { IfOk result (λ reply. answer_of_case self.old.starts case self.old.run event ≡ Some reply) }
        ensures young { IfOk result (λ _. oldest self.new.run.cases ≤ oldest self.old.run.cases + weight event) }
        ensures kept { OnErr result (self.new ≡ self.old) }
    {
        let place = match self.place_of(case) {
            None => unreachable!(),
            Some(place) => place,
        };
        let reply = self.on_place(alloc, caller, place, event)?;
        Ok(reply)
    }

    // A call of the case at a place.
    fn on_place(
        &mut self,
        alloc: Global,
        caller: u32,
        place: usize,
        event: Event,
    ) -> Result<StoredReply, NoMemory>
        requires there { place < length self.old.run.cases }
        requires young { oldest self.old.run.cases + weight event ≤ 4000000000 }
        ensures run { IfOk result (λ _. self.new ≡ record self.old { run = record { kinds = self.old.run.kinds; cases = changed_at (call_case caller event) place self.old.run.cases } }) }
        ensures reply { IfOk result (λ reply. case_answer event (slice_get self.old.run.cases place) ≡ Some reply) }
        ensures kept { OnErr result (self.new ≡ self.old) }
    {
        let reply = call_case(alloc, &mut self.cases[place], caller, event)?;
        Ok(StoredReply::Case(reply))
    }

    // Makes the call of a payload. False, with no change, where it is the payload of none, or of one that names what is
    // not there.
    fn take_in(&mut self, alloc: Global, payload: &[u8]) -> Result<bool, NoMemory>
        requires young { oldest self.old.run.cases + length payload.now ≤ 2 ^ 30 }
        ensures taken { IfOk result (λ taken. TakesIn self.old payload.now taken self.new) }
        ensures young { IfOk result (λ _. oldest self.new.run.cases ≤ oldest self.old.run.cases + length payload.now) }
    {
        let Some(recorded) = read_payload(alloc, payload)? else {
            return Ok(false);
        };
        if !self.has(&recorded.event) {
            return Ok(false);
        }
        self.call(alloc, recorded.caller, &recorded.event)?;
        Ok(true)
    }

    // What the records of an image make of types that nobody has called, with so many cases each, and the place of the gate
    // behind them.
    pub(crate) fn read(
        alloc: Global,
        counts: &[u32],
        image: &[u8],
    ) -> Result<(HeldCells, u64), ImageFault>
        requires few { length counts.now + sum counts.now < 2 ^ 32 }
        requires gate { with_gate image.now ≡ image.now }
        requires within { length image.now ≤ 2 ^ 30 }
        ensures ends { IfOk result (λ x. (records : List Recorded) × IsFoldOf counts.now x.0 records × EndsAt image.now (map payload_of records) x.1) }
        ensures young { IfOk result (λ x. oldest x.0.run.cases ≤ x.1) }
        ensures damaged { IfErr result (λ e. TellsDamage counts.now image.now e) }
    {
        let mut held = HeldCells::new(alloc, counts)?;
        let mut rest = image;
        let mut place = 0;
        loop {
            match frame_in(rest) {
                Frame::Closed => return Ok((held, place)),
                Frame::Damaged => return Err(ImageFault::Damaged(place)),
                Frame::Record(len) => {
                    if !held.take_in(alloc, &rest[5..5 + len])? {
                        return Err(ImageFault::Damaged(place));
                    }
                    rest = &rest[5 + len..];
                    place += 5 + len as u64;
                }
            }
        }
    }
}

// Where the cases of each type begin, and where the last ones end.
fn starts_of(alloc: Global, counts: &[u32]) -> Result<Vec<u32>, NoMemory>
    requires { sum counts.now < 2 ^ 32 }
    ensures { IfOk result (λ starts. starts.items ≡ starts_of counts.now) }
{
    let mut starts = Vec::new(alloc);
    let mut start = 0;
    for count in counts {
        starts.push(start)?;
        start += *count;
    }
    starts.push(start)?;
    Ok(starts)
}

// Types that nobody has called, numbered from 0.
fn fresh_kinds(alloc: Global, counts: &[u32]) -> Result<Vec<ClosedKind>, NoMemory>
    requires { length counts.now < 2 ^ 32 }
    ensures { IfOk result (λ kinds. kinds.items ≡ fresh_kinds 0 counts.now) }
{
    let mut kinds = Vec::new(alloc);
    for type_no in 0..counts.len() as u32 {
        kinds.push(fresh_kind(alloc, type_no))?;
    }
    Ok(kinds)
}

fn fresh_kind(alloc: Global, type_no: u32) -> ClosedKind
    ensures { result ≡ record { machine = not_defined type_no; journal = [] } }
{
    ClosedKind {
        machine: Kind::new(alloc, type_no),
        journal: KindJournal::new(alloc),
    }
}

// Cases that nobody has called, by type and place.
fn fresh_cases(alloc: Global, counts: &[u32]) -> Result<Vec<ClosedCase>, NoMemory>
    requires { length counts.now < 2 ^ 32 }
    ensures { IfOk result (λ cases. cases.items ≡ fresh_cases 0 counts.now) }
{
    let mut cases = Vec::new(alloc);
    for type_no in 0..counts.len() as u32 {
        add_cases(alloc, &mut cases, type_no, counts[type_no as usize])?;
    }
    Ok(cases)
}

// So many more cases of a type.
fn add_cases(
    alloc: Global,
    cases: &mut Vec<ClosedCase>,
    type_no: u32,
    count: u32,
) -> Result<(), NoMemory>
    ensures { OnOk result (cases.new.items ≡ cases.old.items ++ replicate count (record { machine = not_created type_no; journal = [] })) }
{
    for _ in 0..count {
        cases.push(fresh_case(alloc, type_no))?;
    }
    Ok(())
}

fn fresh_case(alloc: Global, type_no: u32) -> ClosedCase
    ensures { result ≡ record { machine = not_created type_no; journal = [] } }
{
    ClosedCase {
        machine: Case::new(alloc, type_no),
        journal: CaseJournal::new(alloc),
    }
}

// A call of a type, and its entry in the journal. After want of memory all is as before.
fn call_kind(
    alloc: Global,
    kind: &mut ClosedKind,
    caller: u32,
    event: KindEvent,
) -> Result<KindReply, NoMemory>
    requires { kind_weight event ≤ 4000000000 }
    ensures kind { IfOk result (λ reply. kind.new ≡ call_kind caller event kind.old) }
    ensures reply { IfOk result (λ reply. reply ≡ (next_kind kind.old.machine event).1) }
    ensures kept { OnErr result (kind.new ≡ kind.old) }
{
    let mut journal = mem::replace(&mut kind.journal, KindJournal::new(alloc)).into_vec();
    let answer = note_kind(alloc, &mut kind.machine, &mut journal, caller, event);
    kind.journal = KindJournal::from_vec(journal);
    answer
}

// A call of a case, and its entry in the journal. After want of memory all is as before.
fn call_case(
    alloc: Global,
    case: &mut ClosedCase,
    caller: u32,
    event: Event,
) -> Result<Reply, NoMemory>
    requires { age case.old.machine + weight event ≤ 4000000000 }
    ensures case { IfOk result (λ reply. case.new ≡ call_case caller event case.old) }
    ensures reply { IfOk result (λ reply. reply ≡ (next_case case.old.machine event).1) }
    ensures young { IfOk result (λ reply. age case.new.machine ≤ age case.old.machine + weight event) }
    ensures kept { OnErr result (case.new ≡ case.old) }
{
    let mut journal = mem::replace(&mut case.journal, CaseJournal::new(alloc)).into_vec();
    let answer = note_case(alloc, &mut case.machine, &mut journal, caller, event);
    case.journal = CaseJournal::from_vec(journal);
    answer
}

// A step of a type, written down behind the other calls. After want of memory all is as before.
fn note_kind(
    alloc: Global,
    kind: &mut Kind,
    journal: &mut Vec<KindEntry>,
    caller: u32,
    event: KindEvent,
) -> Result<KindReply, NoMemory>
    requires { kind_weight event ≤ 4000000000 }
    ensures kind { IfOk result (λ _. kind.new ≡ (next_kind kind.old event).0) }
    ensures journal { IfOk result (λ r. journal.new.items ≡ journal.old.items ++ entry caller event r ∷ []) }
    ensures reply { IfOk result (λ r. r ≡ (next_kind kind.old event).1) }
    ensures kept { OnErr result ((kind.new ≡ kind.old) × (journal.new.items ≡ journal.old.items)) }
{
    journal.reserve(1)?;
    let (reply, answer) = kind.step(alloc, &event)?;
    journal.push_reserved(KindEntry {
        caller,
        event,
        reply,
    });
    Ok(answer)
}

// A step of a case, written down behind the other calls. After want of memory all is as before.
fn note_case(
    alloc: Global,
    case: &mut Case,
    journal: &mut Vec<CaseEntry>,
    caller: u32,
    event: Event,
) -> Result<Reply, NoMemory>
    requires { age case.old.state + weight event ≤ 4000000000 }
    ensures case { IfOk result (λ _. case.new.state ≡ (next_case case.old.state event).0) }
    ensures age { IfOk result (λ _. age case.new.state ≤ age case.old.state + weight event) }
    ensures journal { IfOk result (λ r. journal.new.items ≡ journal.old.items ++ entry caller event r ∷ []) }
    ensures reply { IfOk result (λ r. r ≡ (next_case case.old.state event).1) }
    ensures kept { OnErr result ((case.new.state ≡ case.old.state) × (journal.new.items ≡ journal.old.items)) }
{
    journal.reserve(1)?;
    let (reply, answer) = case.step(alloc, &event)?;
    journal.push_reserved(CaseEntry {
        caller,
        event,
        reply,
    });
    Ok(answer)
}
