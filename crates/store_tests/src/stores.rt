// A store over a disk in memory, and what its disk holds then.
ghost use Rattle.std.specs.Prelude.{◌≡◌, ◌≤◌, ◌^◌, ◌∷◌, [], true, false, IfSome, IsErrOf};
ghost use Rattle.case_store.specs.Standing.{IsStore};
ghost use Rattle.store_disk.specs.History.{MayLeave, content};

use adept_io::{Bytes, Calls};
use case_store::{OpenRefusal, Store, StoreFault, StoredReply};
use std::alloc::Global;
use std::test::Fail;
use store_disk::{MAX_IMAGE, MemoryDisk};
use store_form::{Recorded, Stored};
use type_core::KindReply;

#[test]
fn empty_disk_becomes_a_gate(rt: HostRuntime) -> Result<(), Fail> {
    let image = first_image(rt.alloc()).ok_or("a disk of no bytes is opened")?;
    assert_eq!(rt; image.as_slice(), [0].as_slice());
    Ok(())
}

#[test]
fn step_is_stored(rt: HostRuntime) -> Result<(), Fail> {
    let (is_no_type, image) = image_after_a_call(rt.alloc()).ok_or("a call is made")?;
    assert!(rt; is_no_type);
    assert_eq!(rt;
        image.as_slice(),
        [1, 0, 0, 0, 9, 3, 0, 0, 0, 0, 0, 0, 0, 0, 0].as_slice()
    );
    Ok(())
}

#[test]
fn store_breaks_where_its_disk_fails(rt: HostRuntime) -> Result<(), Fail> {
    let (second, entries) = calls_at_a_fault(rt.alloc()).ok_or("a call fails")?;
    assert_eq!(rt; second, StoreFault::Broken);
    assert!(rt; entries <= 1);
    Ok(())
}

// The record has nine bytes, five more, and the gate behind it is the 15th byte.
#[test]
fn full_store_takes_no_call(rt: HostRuntime) -> Result<(), Fail> {
    let full = asked_within(rt.alloc(), 14).ok_or("a call is answered")?;
    assert!(rt; matches!(full, Err(StoreFault::Full)));
    let taken = asked_within(rt.alloc(), 15).ok_or("a call is answered")?;
    assert!(rt; matches!(taken, Ok(true)));
    Ok(())
}

#[test]
fn group_is_stored(rt: HostRuntime) -> Result<(), Fail> {
    let (replies, image) = image_after_a_group(rt.alloc()).ok_or("two calls are made")?;
    assert_eq!(rt; replies, 2);
    assert_eq!(rt;
        image.as_slice(),
        [
            1, 0, 0, 0, 9, 3, 0, 0, 0, 0, 0, 0, 0, 0, 1, 0, 0, 0, 9, 3, 0, 0, 0, 7, 0, 0, 0, 0, 0,
        ]
        .as_slice()
    );
    Ok(())
}

// Two such records and the gate behind them are 29 bytes.
#[test]
fn full_store_takes_no_call_of_a_group(rt: HostRuntime) -> Result<(), Fail> {
    let full = both_within(rt.alloc(), 28).ok_or("two calls are answered")?;
    assert!(rt; matches!(full, Err(StoreFault::Full)));
    let taken = both_within(rt.alloc(), 29).ok_or("two calls are answered")?;
    assert!(rt; matches!(taken, Ok(2)));
    Ok(())
}

#[test]
fn group_at_a_fault_is_there_or_not(rt: HostRuntime) -> Result<(), Fail> {
    let entries = entries_at_a_fault(rt.alloc()).ok_or("a group fails")?;
    assert!(rt; entries == 0 || entries == 2);
    Ok(())
}

// A record whose list has no fewer items than can be told, of which none stands there.
#[test]
fn list_longer_than_its_bytes_is_damage(rt: HostRuntime) -> Result<(), Fail> {
    let image = [
        1, 0, 0, 0, 13, 2, 0, 0, 0, 0, 0, 0, 0, 0, 255, 255, 255, 255, 0,
    ];
    let place = damage(rt.alloc(), &image).ok_or("the image is damaged")?;
    assert_eq!(rt; place, 0);
    Ok(())
}

// A disk without bytes.
fn empty_disk(alloc: Global, fails: Calls) -> Option<MemoryDisk>
    ensures { IfSome result (λ disk. content disk.first disk.past ≡ []) }
{
    MemoryDisk::new(alloc, Bytes::new(alloc), 100, 100, fails).ok()
}

// A store on it, for one type with one case.
fn opened(alloc: Global, disk: MemoryDisk) -> Option<Store<MemoryDisk>>
    requires { content disk.first disk.past ≡ [] }
    ensures { IfSome result (λ store. IsStore (λ d. content d.first d.past) (λ d. MayLeave d.first d.past) (1 ∷ []) store []) }
{
    Store::open(alloc, disk, &[1]).ok()
}

fn begun(alloc: Global, fails: Calls) -> Option<Store<MemoryDisk>>
    ensures { IfSome result (λ store. IsStore (λ d. content d.first d.past) (λ d. MayLeave d.first d.past) (1 ∷ []) store []) }
{
    opened(alloc, empty_disk(alloc, fails)?)
}

// The same in an image of at most so many bytes, with a store that was just begun.
fn asked_within(alloc: Global, limit: u64) -> Option<Result<bool, StoreFault>>
    requires { limit ≤ 2 ^ 30 }
{
    let mut store = begun(alloc, Calls::new(alloc))?;
    let event = Stored::Newest(0);
    if !store.has(&event) {
        return None;
    }
    match store.step_within(alloc, 0, &event, limit) {
        Ok(reply) => Some(Ok(is_no_type(&reply))),
        Err(fault) => Some(Err(fault)),
    }
}

// The program, and actor 7, ask the type 0 for its newest version.
fn both(alloc: Global) -> Option<Vec<Recorded>>
    ensures { IfSome result (λ calls. calls.items ≡ record { caller = 0; event = Stored.Newest 0 } ∷ record { caller = 7; event = Stored.Newest 0 } ∷ []) }
{
    let mut calls = Vec::new(alloc);
    calls.push(asks(0)).ok()?;
    calls.push(asks(7)).ok()?;
    Some(calls)
}

fn asks(caller: u32) -> Recorded
    ensures { result ≡ record { caller = caller; event = Stored.Newest 0 } }
{
    Recorded {
        caller,
        event: Stored::Newest(0),
    }
}

// Both as one group, in an image of at most so many bytes: how many replies there are.
fn asked_both(
    alloc: Global,
    store: &mut Store<MemoryDisk>,
    limit: u64,
) -> Option<Result<usize, StoreFault>>
    requires store { IsStore (λ d. content d.first d.past) (λ d. MayLeave d.first d.past) (1 ∷ []) store.old [] }
    requires limit { limit ≤ 2 ^ 30 }
{
    let calls = both(alloc)?;
    match store.step_all_within(alloc, &calls, limit) {
        Ok(replies) => Some(Ok(replies.len())),
        Err(fault) => Some(Err(fault)),
    }
}

fn both_within(alloc: Global, limit: u64) -> Option<Result<usize, StoreFault>>
    requires { limit ≤ 2 ^ 30 }
{
    let mut store = begun(alloc, Calls::new(alloc))?;
    asked_both(alloc, &mut store, limit)
}

// Where an image is damaged.
fn damage(alloc: Global, image: &[u8]) -> Option<u64> {
    let bytes = Bytes::from_vec(image.to_vec(alloc).ok()?);
    let disk = MemoryDisk::new(alloc, bytes, 100, 100, Calls::new(alloc)).ok()?;
    match Store::open(alloc, disk, &[1]) {
        Err(OpenRefusal::Damaged(_, place)) => Some(place),
        _ => None,
    }
}

// The program asks the type 0 for its newest version, where the store has the type: whether there is none.
fn asked(alloc: Global, store: &mut Store<MemoryDisk>) -> Option<Result<bool, StoreFault>>
    requires store { store.old.is_broken ≡ false → IsStore (λ d. content d.first d.past) (λ d. MayLeave d.first d.past) (1 ∷ []) store.old [] }
    ensures broken { IfSome result (λ answer. IsErrOf answer StoreFault.Disk → store.new.is_broken ≡ true) }
{
    let event = Stored::Newest(0);
    if !store.has(&event) {
        return None;
    }
    match store.step(alloc, 0, &event) {
        Ok(reply) => Some(Ok(is_no_type(&reply))),
        Err(fault) => Some(Err(fault)),
    }
}

fn is_no_type(reply: &StoredReply) -> bool {
    matches!(reply, StoredReply::Kind(KindReply::NoType))
}

// What the disk of a store holds that was just begun.
fn first_image(alloc: Global) -> Option<Vec<u8>> {
    let store = begun(alloc, Calls::new(alloc))?;
    store.abandon().bytes().to_vec(alloc).ok()
}

// Whether the first call finds no version, and what the disk holds behind it.
fn image_after_a_call(alloc: Global) -> Option<(bool, Vec<u8>)> {
    let mut store = begun(alloc, Calls::new(alloc))?;
    let is_no_type = asked(alloc, &mut store)?.ok()?;
    let image = store.abandon().bytes().to_vec(alloc).ok()?;
    Some((is_no_type, image))
}

// A call whose gate is not written: why the next one fails, and how many entries the type has when the disk is opened again.
fn calls_at_a_fault(alloc: Global) -> Option<(StoreFault, usize)> {
    let mut fails = Calls::new(alloc);
    fails.push(8).ok()?;
    let mut store = begun(alloc, fails)?;
    if asked(alloc, &mut store)?.err()? != StoreFault::Disk {
        return None;
    }
    let second = asked(alloc, &mut store)?.err()?;
    let again = Store::open(alloc, store.abandon(), &[1]).ok()?;
    let (_, kinds, _) = again.close();
    Some((second, kinds.get(0)?.journal.len()))
}

// How many replies there are to a group, and what the disk holds behind it.
fn image_after_a_group(alloc: Global) -> Option<(usize, Vec<u8>)> {
    let mut store = begun(alloc, Calls::new(alloc))?;
    let replies = asked_both(alloc, &mut store, MAX_IMAGE)?.ok()?;
    let image = store.abandon().bytes().to_vec(alloc).ok()?;
    Some((replies, image))
}

// A group whose gate is not written: how many entries the type has when the disk is opened again.
fn entries_at_a_fault(alloc: Global) -> Option<usize> {
    let mut fails = Calls::new(alloc);
    fails.push(8).ok()?;
    let mut store = begun(alloc, fails)?;
    if asked_both(alloc, &mut store, MAX_IMAGE)?.err()? != StoreFault::Disk {
        return None;
    }
    let again = Store::open(alloc, store.abandon(), &[1]).ok()?;
    let (_, kinds, _) = again.close();
    Some(kinds.get(0)?.journal.len())
}
