// The calls of a file on a store.
ghost use Rattle.std.specs.Prelude.{◌≡◌, ◌≢◌, ◌⊎◌, ℕ, ◌+◌, ◌<◌, ◌≤◌, ◌^◌, List, [], false, length, map, take, IfErr, IfOk, OnOk, IsErrOf};
ghost use Rattle.adept_io.specs.Counts.{Rose};
ghost use Rattle.case_keep.specs.{Playing.HoldsRun, Storing.{fault_of, part_of}};
ghost use Rattle.case_store.specs.{Folding.{fresh, starts_of}, Standing.{AreKnown, IsStore, Past}};
ghost use Rattle.file_facts.specs.Facts.{IsWorkable};
ghost use Rattle.file_model.specs.{CaseCounts.cases_of_type, Sizes.IsBounded};
ghost use Rattle.script_run.specs.Serial.{serial};
ghost use Rattle.store_calls.specs.Calls.{calls, payloads};
ghost use Rattle.store_disk.specs.Disk.{IsSettled, LeavesOnly};
ghost use Rattle.store_keep.specs.{Keeping.{HoldsBeginning, IsStored}, Refusals.IsAddFault};
ghost use Rattle.store_room.specs.Room.{Overflows, payload_of};
ghost use Rattle.store_runs.specs.Stored.{IsSameRun, case_counts};

use adept_io::NoMemory;
use case_store::{OpenRefusal, Store, StoreFault};
use file_model::{CaseDecl, File};
use std::alloc::Global;
use store_calls::calls;
use store_disk::Disk;
use store_form::Recorded;
use store_keep::KeepFault;
use store_room::next_end;

/// Makes the calls of a file on a store that is opened on a disk without bytes, those of each phase in groups of their own, in an
/// image of at most so many bytes. With the disk, as the store left it.
pub(crate) fn store_over<D: Disk + Drop>(
    alloc: Global,
    file: &File,
    limit: u64,
    disk: D,
) -> (D, Result<(), KeepFault>)
    requires bounded { IsBounded file.now }
    requires workable { IsWorkable file.now }
    requires limit { limit ≤ 2 ^ 30 }
    requires settled { IsSettled D.content D.may_leave disk [] }
    ensures all { OnOk result.1 (IsStored D.content D.may_leave result.0 (payloads file.now)) }
    ensures run { OnOk result.1 (HoldsRun D.content D.may_leave file.now result.0) }
    ensures within { OnOk result.1 (length (D.content result.0) ≤ 2 ^ 30) }
    ensures fits { OnOk result.1 (Overflows limit 0 (calls file.now) → ⊥) }
    ensures full { IsErrOf result.1 KeepFault.Full → Overflows limit 0 (calls file.now) }
    ensures causes { IfErr result.1 (λ e. IsAddFault e) }
    ensures rose { IsErrOf result.1 KeepFault.Disk → Rose (D.faults disk) (D.faults result.0) }
    ensures no_fault { OnOk result.1 (D.faults result.0 ≡ D.faults disk) }
    ensures no_other_fault { IfErr result.1 (λ e. e ≢ KeepFault.Disk → D.faults result.0 ≡ D.faults disk) }
    ensures any_moment { LeavesOnly D.moment D.left_since disk result.0 (HoldsBeginning (payloads file.now) []) }
{
    match open_over(alloc, file, disk) {
        Ok(store) => {
            let mut store = store;
            let stored = step_calls_of(alloc, file, limit, &mut store);
            (store.abandon(), stored)
        }
        Err((disk, fault)) => (disk, Err(fault)),
    }
}

// The store of a file's types and cases on a disk without bytes.
fn open_over<D: Disk + Drop>(
    alloc: Global,
    file: &File,
    disk: D,
) -> Result<Store<D>, (D, KeepFault)>
    requires workable { IsWorkable file.now }
    requires settled { IsSettled D.content D.may_leave disk [] }
    ensures opened { IfOk result (λ store. IsStore D.content D.may_leave (case_counts file.now) store []) }
    ensures whole { IfOk result (λ store. store.is_broken ≡ false) }
    ensures size { IfOk result (λ store. length (D.content store.disk) ≡ 1) }
    ensures any_moment { IfOk result (λ store. LeavesOnly D.moment D.left_since disk store.disk (HoldsBeginning (payloads file.now) [])) }
    ensures no_fault { IfOk result (λ store. D.faults store.disk ≡ D.faults disk) }
    ensures causes { IfErr result (λ x. (x.1 ≡ KeepFault.NoMemory) ⊎ (x.1 ≡ KeepFault.Disk)) }
    ensures moment_of_a_fault { IfErr result (λ x. LeavesOnly D.moment D.left_since disk x.0 (HoldsBeginning (payloads file.now) [])) }
    ensures rose { IfErr result (λ x. x.1 ≡ KeepFault.Disk → Rose (D.faults disk) (D.faults x.0)) }
    ensures no_other_fault { IfErr result (λ x. x.1 ≢ KeepFault.Disk → D.faults x.0 ≡ D.faults disk) }
{
    match case_counts(alloc, file) {
        Ok(counts) => match Store::open(alloc, disk, &counts) {
            Ok(store) => Ok(store),
            Err(refusal) => Err(part_of(refusal)),
        },
        Err(_) => Err((disk, KeepFault::NoMemory)),
    }
}

// How many cases each type has.
fn case_counts(alloc: Global, file: &File) -> Result<Vec<u32>, NoMemory>
    requires workable { IsWorkable file.now }
    ensures counts { IfOk result (λ counts. counts.items ≡ case_counts file.now) }
{
    let mut counts = Vec::new(alloc);
    for type_no in 0..file.types.len() as u32 {
        counts.push(cases_of_type(type_no, file.cases.as_slice()))?;
    }
    Ok(counts)
}

// How many cases of a type were declared.
fn cases_of_type(type_no: u32, cases: &[CaseDecl]) -> u32
    requires { length cases.now < 2 ^ 32 }
    ensures { result ≡ cases_of_type type_no cases.now }
{
    let mut count = 0;
    for case in cases {
        if case.id.type_no == type_no {
            count += 1;
        }
    }
    count
}

// The disk and the fault of a refusal.
fn part_of<D: Disk + Drop>(refusal: OpenRefusal<D>) -> (D, KeepFault)
    ensures { result ≡ part_of refusal }
{
    match refusal {
        OpenRefusal::Disk(disk) => (disk, KeepFault::Disk),
        OpenRefusal::TooLong(disk) => (disk, KeepFault::TooLong),
        OpenRefusal::Damaged(disk, place) => (disk, KeepFault::Damaged(place)),
        OpenRefusal::NoMemory(disk) => (disk, KeepFault::NoMemory),
    }
}

// Makes the calls of a file on a store that holds none.
fn step_calls_of<D: Disk + Drop>(
    alloc: Global,
    file: &File,
    limit: u64,
    store: &mut Store<D>,
) -> Result<(), KeepFault>
    ghost counts: { List ℕ }
    requires bounded { IsBounded file.now }
    requires workable { IsWorkable file.now }
    requires counts { counts ≡ case_counts file.now }
    requires limit { limit ≤ 2 ^ 30 }
    requires store { IsStore D.content D.may_leave counts store.old [] }
    requires whole { store.old.is_broken ≡ false }
    requires short { length (D.content store.old.disk) ≤ 2 ^ 30 }
    ensures all { OnOk result (IsStore D.content D.may_leave counts store.new (calls file.now)) }
    ensures serial { OnOk result (IsSameRun store.new.held.starts file.now.cases (serial file.now) store.new.held.run) }
    ensures within { OnOk result (length (D.content store.new.disk) ≤ 2 ^ 30) }
    ensures fits { OnOk result (Overflows limit 0 (calls file.now) → ⊥) }
    ensures full { IsErrOf result KeepFault.Full → Overflows limit 0 (calls file.now) }
    ensures causes { IfErr result (λ e. IsAddFault e) }
    ensures rose { IsErrOf result KeepFault.Disk → Rose (D.faults store.old.disk) (D.faults store.new.disk) }
    ensures no_fault { OnOk result (D.faults store.new.disk ≡ D.faults store.old.disk) }
    ensures no_other_fault { IfErr result (λ e. e ≢ KeepFault.Disk → D.faults store.new.disk ≡ D.faults store.old.disk) }
    ensures any_moment { LeavesOnly D.moment D.left_since store.old.disk store.new.disk (HoldsBeginning (payloads file.now) []) }
{
    let told = calls(alloc, file)?;
    step_groups(alloc, &told.calls, &told.ends, limit, store)
}

// Makes calls on a store that holds none: those up to each end in groups of their own.
fn step_groups<D: Disk + Drop>(
    alloc: Global,
    calls: &[Recorded],
    ends: &[usize],
    limit: u64,
    store: &mut Store<D>,
) -> Result<(), KeepFault>
    ghost counts: { List ℕ }
    requires known { AreKnown (starts_of counts) (fresh counts) calls.now }
    requires limit { limit ≤ 2 ^ 30 }
    requires store { IsStore D.content D.may_leave counts store.old [] }
    requires whole { store.old.is_broken ≡ false }
    requires short { length (D.content store.old.disk) ≤ 2 ^ 30 }
    ensures all { OnOk result (IsStore D.content D.may_leave counts store.new calls.now) }
    ensures within { OnOk result (length (D.content store.new.disk) ≤ 2 ^ 30) }
    ensures fits { OnOk result (Overflows limit 0 calls.now → ⊥) }
    ensures full { IsErrOf result KeepFault.Full → Overflows limit 0 calls.now }
    ensures causes { IfErr result (λ e. IsAddFault e) }
    ensures rose { IsErrOf result KeepFault.Disk → Rose (D.faults store.old.disk) (D.faults store.new.disk) }
    ensures no_fault { OnOk result (D.faults store.new.disk ≡ D.faults store.old.disk) }
    ensures no_other_fault { IfErr result (λ e. e ≢ KeepFault.Disk → D.faults store.new.disk ≡ D.faults store.old.disk) }
    ensures any_moment { LeavesOnly D.moment D.left_since store.old.disk store.new.disk (HoldsBeginning (map payload_of calls.now) []) }
{
    let mut stored = 0;
    let mut ends = ends;
    while stored < calls.len() {
        let (end, others) = next_end(ends, stored, calls.len());
        let count = step_group(alloc, calls, stored, end, limit, store)?;
        stored += count;
        ends = others;
    }
    Ok(())
}

// Makes the first of the calls behind so many, up to an end, that are one group: how many.
fn step_group<D: Disk + Drop>(
    alloc: Global,
    calls: &[Recorded],
    stored: usize,
    end: usize,
    limit: u64,
    store: &mut Store<D>,
) -> Result<usize, KeepFault>
    ghost past: { Past }
    requires known { AreKnown (starts_of past.counts) (fresh past.counts) calls.now }
    requires some { stored < end }
    requires end { end ≤ length calls.now }
    requires limit { limit ≤ 2 ^ 30 }
    requires records { past.records ≡ take stored calls.now }
    requires store { IsStore D.content D.may_leave past.counts store.old past.records }
    requires whole { store.old.is_broken ≡ false }
    requires fits { Overflows limit 0 (take stored calls.now) → ⊥ }
    ensures some { IfOk result (λ n. 0 < n) }
    ensures end { IfOk result (λ n. stored + n ≤ end) }
    ensures acknowledged { IfOk result (λ n. IsStore D.content D.may_leave past.counts store.new (take (stored + n) calls.now)) }
    ensures whole { OnOk result (store.new.is_broken ≡ false) }
    ensures within { OnOk result (length (D.content store.old.disk) ≤ 2 ^ 30 → length (D.content store.new.disk) ≤ 2 ^ 30) }
    ensures fits { IfOk result (λ n. Overflows limit 0 (take (stored + n) calls.now) → ⊥) }
    ensures full { IsErrOf result KeepFault.Full → Overflows limit 0 calls.now }
    ensures causes { IfErr result (λ e. IsAddFault e) }
    ensures rose { IsErrOf result KeepFault.Disk → Rose (D.faults store.old.disk) (D.faults store.new.disk) }
    ensures no_fault { OnOk result (D.faults store.new.disk ≡ D.faults store.old.disk) }
    ensures no_other_fault { IfErr result (λ e. e ≢ KeepFault.Disk → D.faults store.new.disk ≡ D.faults store.old.disk) }
    ensures any_moment { LeavesOnly D.moment D.left_since store.old.disk store.new.disk (HoldsBeginning (map payload_of calls.now) []) }
{
    match store.step_first(alloc, &calls[stored..end], limit) {
        Ok(replies) => Ok(replies.len()),
        Err(fault) => Err(fault_of(fault)),
    }
}

// What a store's fault is of the work of a file.
fn fault_of(fault: StoreFault) -> KeepFault
    ensures { result ≡ fault_of fault }
{
    match fault {
        StoreFault::Full => KeepFault::Full,
        StoreFault::NoMemory => KeepFault::NoMemory,
        StoreFault::Disk | StoreFault::Broken => KeepFault::Disk,
    }
}
