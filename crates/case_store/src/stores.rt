// The store.
ghost use Rattle.std.specs.{Prelude.{◌≡◌, ◌+◌, ◌<◌, ◌≤◌, ◌^◌, ◌++◌, ◌∷◌, [], ◌≢◌, ◌⊎◌, ◌↔◌, ℕ, List, Some, false, true, get_or, length, map, max, sum, take, IfOk, IfErr, OnErr, OnOk, IsErrOf}, List.AllByRecursion};
ghost use Rattle.adept_io.specs.Counts.{Rose};
ghost use Rattle.store_disk.specs.{Disk.LeavesOnly, Image.{HasList, all_framed}, Opening.{HoldsAsBefore, with_gate}, Rest.{HasNoneOrAll, IsBeforeOrAfter, appended, group_appended}};
ghost use Rattle.store_form.specs.{Payload.{IsPayloadOf, payload}, Stored.{HasNoVersion, is_shallow}, declared.stored.Recorded.Recorded};
ghost use Rattle.store_room.specs.{Groups.IsFirstGroup, Room.{HasPayload, Overflows, Passes, payload_of}};
ghost use Rattle.case_store.specs.{Damage.{Says, disk_of}, Folding.{answer_of, answers_of, has, place_of}, Standing.{AddsFirst, AreKnown, IsStore, Opens, Past}, Faults.refused};

use crate::held::HeldCells;
use crate::refusals::{ImageFault, OpenRefusal, StoreFault};
use crate::replies::StoredReply;
use script_run::{ClosedCases, ClosedKinds};
use std::alloc::Global;
use std::marker::Model;
use store_disk::{Disk, Framed, Group, MAX_IMAGE, append, append_group, open_image};
use store_form::{Recorded, Stored};
use store_room::{RoomFault, first_group, group_within, payload_within};
use wsm_sound::CaseId;

/// Types and cases whose calls are on a disk.
#[derive(Drop)]
pub struct Store<D: Disk + Drop> {
    disk: D,
    gate: u64,
    held: HeldCells,
    is_broken: bool,
}

impl<D: Disk + Drop> Model for Store<D> {
    ghost use Rattle.std.specs.Coded.{codes};
    ghost use Rattle.script_run.specs.contracts.runs.Run as run;
    ghost use Rattle.case_store.specs.Standing.{StoreState};

    ghost Value = { StoreState D };

    ghost coded = { Prim.hlevel (codes, run.the_row.coded) };

    ghost view = { λ a. record { disk = a.disk; gate = a.gate; held = a.held; is_broken = a.is_broken } };
}

impl<D: Disk + Drop> Store<D> {
    /// The store on a disk, for types with so many cases each. A stop at any moment of the call leaves an image with the
    /// records of one that the disk could leave before.
    pub fn open(alloc: Global, disk: D, cases: &[u32]) -> Result<Store<D>, OpenRefusal<D>>
        requires { length cases.now + sum cases.now < 2 ^ 32 }
        ensures opened { IfOk result (λ store. Opens D.content D.may_leave cases.now (D.content disk) store) }
        ensures whole { IfOk result (λ store. store.is_broken ≡ false) }
        ensures within { IfOk result (λ store. length (D.content disk) ≤ 2 ^ 30) }
        ensures refused { IfErr result (λ e. Says cases.now (D.content disk) e) }
        ensures any_moment { LeavesOnly D.moment D.left_since disk (disk_of result) (HoldsAsBefore (D.may_leave disk)) }
        ensures bytes { IfOk result (λ store. D.content store.disk ≡ with_gate (D.content disk)) }
        ensures rose { IfErr result (λ e. e ≡ OpenRefusal.Disk (disk_of result) → Rose (D.faults disk) (D.faults (disk_of result))) }
        ensures no_fault { IfOk result (λ store. D.faults store.disk ≡ D.faults disk) }
        ensures no_other_fault { IfErr result (λ e. e ≢ OpenRefusal.Disk (disk_of result) → D.faults (disk_of result) ≡ D.faults disk) }
        ensures never_falls { D.faults disk ≤ D.faults (disk_of result) }
    {
        let mut disk = disk;
        match read_cells(alloc, &mut disk, cases) {
            Ok((held, gate)) => Ok(Store {
                disk,
                gate,
                held,
                is_broken: false,
            }),
            Err(fault) => Err(fault.with_disk(disk)),
        }
    }

    /// Whether the type, the case and the version that an event names are there, and the blocks of a new type stand at
    /// most 64 deep one inside another.
    pub fn has(&self, event: &Stored) -> bool
        ensures { result ≡ has self.now.held.starts self.now.held.run event.now }
    {
        self.held.has(event)
    }

    /// Where a case stands among all cases, by type and place.
    pub fn place_of(&self, case: CaseId) -> Option<usize>
        ensures { result ≡ place_of self.now.held.starts case }
    {
        self.held.place_of(case)
    }

    /// Whether a step failed on the disk, or the memory for a group was wanting when some of its calls were made.
    pub fn is_broken(&self) -> bool
        ensures { result ≡ self.now.is_broken }
    {
        self.is_broken
    }

    /// Makes one call, stores it, and answers what the machine does. At `Ok` each image holds the call. A stop at any
    /// moment leaves the records from before, or those and this call's.
    pub fn step(
        &mut self,
        alloc: Global,
        caller: u32,
        event: &Stored,
    ) -> Result<StoredReply, StoreFault>
        ghost past: { Past }
        requires store { self.old.is_broken ≡ false → IsStore D.content D.may_leave past.counts self.old past.records }
        requires has { has self.old.held.starts self.old.held.run event.now ≡ true }
        requires plain { HasNoVersion event.now }
        ensures acknowledged { OnOk result (IsStore D.content D.may_leave past.counts self.new (past.records ++ record { caller = caller; event = event.now } ∷ [])) }
        ensures whole { OnOk result (self.new.is_broken ≡ false) }
        ensures reply { IfOk result (λ reply. answer_of self.old.held.starts self.old.held.run event.now ≡ Some reply) }
        ensures every_image { OnOk result ((image : List ℕ) → D.may_leave self.new.disk image → HasList (map payload_of past.records ++ payload caller event.now ∷ []) image) }
        ensures bytes { OnOk result (D.content self.new.disk ≡ appended self.old.gate (payload caller event.now) (D.content self.old.disk)) }
        ensures next_gate { OnOk result (get_or (D.content self.new.disk) self.new.gate 1 ≡ 0) }
        ensures any_moment { self.old.is_broken ≡ false → LeavesOnly D.moment D.left_since self.old.disk self.new.disk (IsBeforeOrAfter (map payload_of past.records) (payload caller event.now)) }
        ensures broken { IsErrOf result StoreFault.Broken ↔ (self.old.is_broken ≡ true) }
        ensures full { IsErrOf result StoreFault.Full → Passes (2 ^ 30) self.old.gate caller event.now }
        ensures fits { OnOk result (Passes (2 ^ 30) self.old.gate caller event.now → ⊥) }
        ensures fits_at_fault { IsErrOf result StoreFault.Disk → Passes (2 ^ 30) self.old.gate caller event.now → ⊥ }
        ensures rose { IsErrOf result StoreFault.Disk → Rose (D.faults self.old.disk) (D.faults self.new.disk) }
        ensures no_fault { OnOk result (D.faults self.new.disk ≡ D.faults self.old.disk) }
        ensures breaks { IsErrOf result StoreFault.Disk → self.new.is_broken ≡ true }
        ensures kept { IfErr result (λ e. e ≢ StoreFault.Disk → self.new ≡ self.old) }
        ensures never_falls { D.faults self.old.disk ≤ D.faults self.new.disk }
    {
        self.step_within(alloc, caller, event, MAX_IMAGE)
    }

    /// The same in an image of at most so many bytes.
    pub fn step_within(
        &mut self,
        alloc: Global,
        caller: u32,
        event: &Stored,
        limit: u64,
    ) -> Result<StoredReply, StoreFault>
        ghost past: { Past }
        requires store { self.old.is_broken ≡ false → IsStore D.content D.may_leave past.counts self.old past.records }
        requires has { has self.old.held.starts self.old.held.run event.now ≡ true }
        requires plain { HasNoVersion event.now }
        requires limit { limit ≤ 2 ^ 30 }
        ensures acknowledged { OnOk result (IsStore D.content D.may_leave past.counts self.new (past.records ++ record { caller = caller; event = event.now } ∷ [])) }
        ensures whole { OnOk result (self.new.is_broken ≡ false) }
        ensures reply { IfOk result (λ reply. answer_of self.old.held.starts self.old.held.run event.now ≡ Some reply) }
        ensures every_image { OnOk result ((image : List ℕ) → D.may_leave self.new.disk image → HasList (map payload_of past.records ++ payload caller event.now ∷ []) image) }
        ensures bytes { OnOk result (D.content self.new.disk ≡ appended self.old.gate (payload caller event.now) (D.content self.old.disk)) }
        ensures next_gate { OnOk result (get_or (D.content self.new.disk) self.new.gate 1 ≡ 0) }
        ensures any_moment { self.old.is_broken ≡ false → LeavesOnly D.moment D.left_since self.old.disk self.new.disk (IsBeforeOrAfter (map payload_of past.records) (payload caller event.now)) }
        ensures broken { IsErrOf result StoreFault.Broken ↔ (self.old.is_broken ≡ true) }
        ensures full { IsErrOf result StoreFault.Full → Passes limit self.old.gate caller event.now }
        ensures fits { OnOk result (Passes limit self.old.gate caller event.now → ⊥) }
        ensures fits_at_fault { IsErrOf result StoreFault.Disk → Passes limit self.old.gate caller event.now → ⊥ }
        ensures rose { IsErrOf result StoreFault.Disk → Rose (D.faults self.old.disk) (D.faults self.new.disk) }
        ensures no_fault { OnOk result (D.faults self.new.disk ≡ D.faults self.old.disk) }
        ensures breaks { IsErrOf result StoreFault.Disk → self.new.is_broken ≡ true }
        ensures kept { IfErr result (λ e. e ≢ StoreFault.Disk → self.new ≡ self.old) }
        ensures never_falls { D.faults self.old.disk ≤ D.faults self.new.disk }
    {
        if self.is_broken {
            return Err(StoreFault::Broken);
        }
        let framed = frame(alloc, self.gate, caller, event, limit)?;
        let reply = self.held.call(alloc, caller, event)?;
        self.is_broken = true;
        self.gate = append(&mut self.disk, self.gate, &framed)?;
        self.is_broken = false;
        Ok(reply)
    }

    /// Makes calls one after another, stores them as one group, and answers what each is told. At `Ok` each image holds them
    /// all. A stop at any moment leaves the records from before, or those and all of these calls'.
    pub fn step_all(
        &mut self,
        alloc: Global,
        calls: &[Recorded],
    ) -> Result<Vec<StoredReply>, StoreFault>
        ghost past: { Past }
        requires store { self.old.is_broken ≡ false → IsStore D.content D.may_leave past.counts self.old past.records }
        requires some { 0 < length calls.now }
        requires known { AreKnown self.old.held.starts self.old.held.run calls.now }
        ensures acknowledged { OnOk result (IsStore D.content D.may_leave past.counts self.new (past.records ++ calls.now)) }
        ensures whole { OnOk result (self.new.is_broken ≡ false) }
        ensures replies { IfOk result (λ replies. map Some replies.items ≡ answers_of self.old.held.starts self.old.held.run calls.now) }
        ensures every_image { OnOk result ((image : List ℕ) → D.may_leave self.new.disk image → HasList (map payload_of past.records ++ map payload_of calls.now) image) }
        ensures bytes { OnOk result (D.content self.new.disk ≡ group_appended self.old.gate (map payload_of calls.now) (D.content self.old.disk)) }
        ensures next_gate { OnOk result (get_or (D.content self.new.disk) self.new.gate 1 ≡ 0) }
        ensures any_moment { self.old.is_broken ≡ false → LeavesOnly D.moment D.left_since self.old.disk self.new.disk (HasNoneOrAll (map payload_of past.records) (map payload_of calls.now)) }
        ensures broken { IsErrOf result StoreFault.Broken ↔ (self.old.is_broken ≡ true) }
        ensures full { IsErrOf result StoreFault.Full → Overflows (2 ^ 30) self.old.gate calls.now }
        ensures fits { OnOk result (Overflows (2 ^ 30) self.old.gate calls.now → ⊥) }
        ensures fits_at_fault { IsErrOf result StoreFault.Disk → Overflows (2 ^ 30) self.old.gate calls.now → ⊥ }
        ensures rose { IsErrOf result StoreFault.Disk → Rose (D.faults self.old.disk) (D.faults self.new.disk) }
        ensures no_fault { OnOk result (D.faults self.new.disk ≡ D.faults self.old.disk) }
        ensures breaks { IsErrOf result StoreFault.Disk → self.new.is_broken ≡ true }
        ensures kept { IfErr result (λ e. e ≢ StoreFault.Disk → (self.new ≡ self.old) ⊎ (self.new.is_broken ≡ true)) }
        ensures same { IfErr result (λ e. e ≢ StoreFault.Disk → e ≢ StoreFault.NoMemory → self.new ≡ self.old) }
        ensures disk { IfErr result (λ e. e ≢ StoreFault.Disk → self.new.disk ≡ self.old.disk) }
        ensures never_falls { D.faults self.old.disk ≤ D.faults self.new.disk }
    {
        self.step_all_within(alloc, calls, MAX_IMAGE)
    }

    /// The same in an image of at most so many bytes.
    pub fn step_all_within(
        &mut self,
        alloc: Global,
        calls: &[Recorded],
        limit: u64,
    ) -> Result<Vec<StoredReply>, StoreFault>
        ghost past: { Past }
        requires store { self.old.is_broken ≡ false → IsStore D.content D.may_leave past.counts self.old past.records }
        requires some { 0 < length calls.now }
        requires known { AreKnown self.old.held.starts self.old.held.run calls.now }
        requires limit { limit ≤ 2 ^ 30 }
        ensures acknowledged { OnOk result (IsStore D.content D.may_leave past.counts self.new (past.records ++ calls.now)) }
        ensures whole { OnOk result (self.new.is_broken ≡ false) }
        ensures replies { IfOk result (λ replies. map Some replies.items ≡ answers_of self.old.held.starts self.old.held.run calls.now) }
        ensures every_image { OnOk result ((image : List ℕ) → D.may_leave self.new.disk image → HasList (map payload_of past.records ++ map payload_of calls.now) image) }
        ensures bytes { OnOk result (D.content self.new.disk ≡ group_appended self.old.gate (map payload_of calls.now) (D.content self.old.disk)) }
        ensures next_gate { OnOk result (get_or (D.content self.new.disk) self.new.gate 1 ≡ 0) }
        ensures any_moment { self.old.is_broken ≡ false → LeavesOnly D.moment D.left_since self.old.disk self.new.disk (HasNoneOrAll (map payload_of past.records) (map payload_of calls.now)) }
        ensures broken { IsErrOf result StoreFault.Broken ↔ (self.old.is_broken ≡ true) }
        ensures full { IsErrOf result StoreFault.Full → Overflows limit self.old.gate calls.now }
        ensures fits { OnOk result (Overflows limit self.old.gate calls.now → ⊥) }
        ensures fits_at_fault { IsErrOf result StoreFault.Disk → Overflows limit self.old.gate calls.now → ⊥ }
        ensures rose { IsErrOf result StoreFault.Disk → Rose (D.faults self.old.disk) (D.faults self.new.disk) }
        ensures no_fault { OnOk result (D.faults self.new.disk ≡ D.faults self.old.disk) }
        ensures breaks { IsErrOf result StoreFault.Disk → self.new.is_broken ≡ true }
        ensures kept { IfErr result (λ e. e ≢ StoreFault.Disk → (self.new ≡ self.old) ⊎ (self.new.is_broken ≡ true)) }
        ensures same { IfErr result (λ e. e ≢ StoreFault.Disk → e ≢ StoreFault.NoMemory → self.new ≡ self.old) }
        ensures disk { IfErr result (λ e. e ≢ StoreFault.Disk → self.new.disk ≡ self.old.disk) }
        ensures never_falls { D.faults self.old.disk ≤ D.faults self.new.disk }
    {
        if self.is_broken {
            return Err(StoreFault::Broken);
        }
        let group = group_within(alloc, calls, self.gate, limit)?;
        let replies = self.make_group(alloc, calls, &group)?;
        Ok(replies)
    }

    /// Makes the first of these calls, one after another, and stores them as one group, in an image of at most so many bytes: as
    /// many as make a group of no more than 1,048,576 bytes, but one in any case. Answers what each of them is told.
    pub fn step_first(
        &mut self,
        alloc: Global,
        calls: &[Recorded],
        limit: u64,
    ) -> Result<Vec<StoredReply>, StoreFault>
        ghost past: { Past }
        requires store { self.old.is_broken ≡ false → IsStore D.content D.may_leave past.counts self.old past.records }
        requires some { 0 < length calls.now }
        requires known { AreKnown self.old.held.starts self.old.held.run calls.now }
        requires limit { limit ≤ 2 ^ 30 }
        ensures first { IfOk result (λ r. IsFirstGroup limit self.old.gate calls.now (length r.items) (map payload_of (take (length r.items) calls.now))) }
        ensures acknowledged { IfOk result (λ r. IsStore D.content D.may_leave past.counts self.new (past.records ++ take (length r.items) calls.now)) }
        ensures whole { OnOk result (self.new.is_broken ≡ false) }
        ensures replies { IfOk result (λ r. map Some r.items ≡ answers_of self.old.held.starts self.old.held.run (take (length r.items) calls.now)) }
        ensures size { OnOk result (length (D.content self.new.disk) ≡ max (length (D.content self.old.disk)) (self.new.gate + 1)) }
        ensures any_moment { self.old.is_broken ≡ false → AddsFirst D.moment D.left_since past.records calls.now self.old.disk self.new.disk }
        ensures broken { IsErrOf result StoreFault.Broken ↔ (self.old.is_broken ≡ true) }
        ensures full { IsErrOf result StoreFault.Full → Overflows limit self.old.gate calls.now }
        ensures rose { IsErrOf result StoreFault.Disk → Rose (D.faults self.old.disk) (D.faults self.new.disk) }
        ensures no_fault { OnOk result (D.faults self.new.disk ≡ D.faults self.old.disk) }
        ensures breaks { IsErrOf result StoreFault.Disk → self.new.is_broken ≡ true }
        ensures same { IfErr result (λ e. e ≢ StoreFault.Disk → e ≢ StoreFault.NoMemory → self.new ≡ self.old) }
        ensures disk { IfErr result (λ e. e ≢ StoreFault.Disk → self.new.disk ≡ self.old.disk) }
        ensures never_falls { D.faults self.old.disk ≤ D.faults self.new.disk }
    {
        if self.is_broken {
            return Err(StoreFault::Broken);
        }
        let (group, count) = first_group(alloc, calls, self.gate, limit)?;
        let replies = self.make_group(alloc, &calls[..count], &group)?;
        Ok(replies)
    }

    // Makes calls whose payloads are a group that finds room, and stores it.
    fn make_group(
        &mut self,
        alloc: Global,
        calls: &[Recorded],
        group: &Group,
    ) -> Result<Vec<StoredReply>, StoreFault>
        ghost past: { Past }
        requires store { IsStore D.content D.may_leave past.counts self.old past.records }
        requires some { 0 < length calls.now }
        requires known { AreKnown self.old.held.starts self.old.held.run calls.now }
        requires group { group.now ≡ map payload_of calls.now }
        requires payloads { AllByRecursion HasPayload calls.now }
        requires short { self.old.gate + length (all_framed group.now) < 2 ^ 30 }
        ensures acknowledged { OnOk result (IsStore D.content D.may_leave past.counts self.new (past.records ++ calls.now)) }
        ensures whole { OnOk result (self.new.is_broken ≡ false) }
        ensures replies { IfOk result (λ replies. map Some replies.items ≡ answers_of self.old.held.starts self.old.held.run calls.now) }
        ensures many { IfOk result (λ replies. length replies.items ≡ length calls.now) }
        ensures every_image { OnOk result ((image : List ℕ) → D.may_leave self.new.disk image → HasList (map payload_of past.records ++ map payload_of calls.now) image) }
        ensures bytes { OnOk result (D.content self.new.disk ≡ group_appended self.old.gate (map payload_of calls.now) (D.content self.old.disk)) }
        ensures next_gate { OnOk result (get_or (D.content self.new.disk) self.new.gate 1 ≡ 0) }
        ensures size { OnOk result (length (D.content self.new.disk) ≡ max (length (D.content self.old.disk)) (self.new.gate + 1)) }
        ensures any_moment { LeavesOnly D.moment D.left_since self.old.disk self.new.disk (HasNoneOrAll (map payload_of past.records) (map payload_of calls.now)) }
        ensures causes { IfErr result (λ e. (e ≡ StoreFault.Disk) ⊎ (e ≡ StoreFault.NoMemory)) }
        ensures rose { IsErrOf result StoreFault.Disk → Rose (D.faults self.old.disk) (D.faults self.new.disk) }
        ensures no_fault { OnOk result (D.faults self.new.disk ≡ D.faults self.old.disk) }
        ensures breaks { OnErr result (self.new.is_broken ≡ true) }
        ensures disk { IfErr result (λ e. e ≢ StoreFault.Disk → self.new.disk ≡ self.old.disk) }
        ensures never_falls { D.faults self.old.disk ≤ D.faults self.new.disk }
    {
        // From here on types and cases are ahead of the disk, until the group is there.
        self.is_broken = true;
        let replies = self.held.call_all(alloc, calls)?;
        self.gate = append_group(&mut self.disk, self.gate, group)?;
        self.is_broken = false;
        Ok(replies)
    }

    /// The disk, the types, and the cases by type and place. Takes no memory.
    pub fn close(self) -> (D, ClosedKinds, ClosedCases)
        requires { self.is_broken ≡ false }
        ensures disk { result.0 ≡ self.disk }
        ensures kinds { result.1 ≡ self.held.run.kinds }
        ensures cases { result.2 ≡ self.held.run.cases }
    {
        let Store { disk, held, .. } = self;
        let (kinds, cases) = held.into_parts();
        (disk, kinds, cases)
    }

    /// The disk of any store. Takes no memory.
    pub fn abandon(self) -> D
        ensures { result ≡ self.disk }
    {
        self.disk
    }
}

// The types and cases that the records of a disk make, and the place of the gate behind them.
fn read_cells<D: Disk>(
    alloc: Global,
    disk: &mut D,
    cases: &[u32],
) -> Result<(HeldCells, u64), ImageFault>
    requires { length cases.now + sum cases.now < 2 ^ 32 }
    ensures opened { IfOk result (λ x. Opens D.content D.may_leave cases.now (D.content disk.old) (record { disk = disk.new; gate = x.1; held = x.0; is_broken = false })) }
    ensures within { OnOk result (length (D.content disk.old) ≤ 2 ^ 30) }
    ensures refused { IfErr result (λ e. Says cases.now (D.content disk.old) (refused e disk.new)) }
    ensures any_moment { LeavesOnly D.moment D.left_since disk.old disk.new (HoldsAsBefore (D.may_leave disk.old)) }
    ensures bytes { OnOk result (D.content disk.new ≡ with_gate (D.content disk.old)) }
    ensures rose { IsErrOf result ImageFault.Disk → Rose (D.faults disk.old) (D.faults disk.new) }
    ensures no_fault { OnOk result (D.faults disk.new ≡ D.faults disk.old) }
    ensures no_other_fault { IfErr result (λ e. e ≢ ImageFault.Disk → D.faults disk.new ≡ D.faults disk.old) }
    ensures never_falls { D.faults disk.old ≤ D.faults disk.new }
{
    let image = open_image(alloc, disk)?;
    let cells = HeldCells::read(alloc, cases, &image)?;
    Ok(cells)
}

// The payload of a call, framed, where it finds room behind the gate in an image of at most so many bytes.
fn frame(
    alloc: Global,
    gate: u64,
    caller: u32,
    event: &Stored,
    limit: u64,
) -> Result<Framed, RoomFault>
    requires shallow { is_shallow event.now ≡ true }
    requires plain { HasNoVersion event.now }
    requires gate { gate < 2 ^ 30 }
    requires limit { limit ≤ 2 ^ 30 }
    ensures framed { IfOk result (λ framed. IsPayloadOf framed caller event.now × (gate + (6 + length framed) ≤ limit)) }
    ensures fits { OnOk result (Passes limit gate caller event.now → ⊥) }
    ensures full { IsErrOf result RoomFault.Full → Passes limit gate caller event.now }
{
    let bytes = payload_within(alloc, caller, event, gate, limit)?;
    let framed = Framed::new(alloc, bytes.as_slice())?;
    Ok(framed)
}
