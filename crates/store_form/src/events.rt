// Payloads of calls.
ghost use Rattle.std.specs.Prelude.{◌≡◌, ◌++◌, true, OnOk, IfOk};
ghost use Rattle.store_form.specs.{Given.Gives, Payload.{IsPayloadOf, Reads, case_bytes, id_bytes, payload}, Reading.{id_at, recorded_at, recorded_of, stored_behind}, Shrinking.id_shrinks, Stored.{Fits, FitsEvent, FitsId, HasNoVersion}};
ghost use Rattle.store_form.specs.Stored.{IsPlain, is_shallow};

use crate::fields::{Part, ReadFault, put_tagged};
use crate::lists::{put_list, read_list};
use crate::schemas::{put_schema, read_schema};
use crate::stored::{Recorded, Stored};
use adept_io::{Bytes, NoMemory};
use case_core::Event;
use std::alloc::{AllocError, Global};
use wsm_lists::{RoleList, Value, Writes};
use wsm_ops::{Op, Ops};
use wsm_sound::CaseId;

impl Part for CaseId {
    ghost bytes = { id_bytes };

    ghost reading = { id_at };

    ghost fits = { FitsId };

    fn put(&self, out: &mut Vec<u8>) -> Result<(), NoMemory> {
        (self.type_no, self.place).put(out)
    }

    fn read(alloc: Global, from: &[u8]) -> Result<(CaseId, &[u8]), ReadFault> {
        let ((type_no, place), rest) = <(u32, u32)>::read(alloc, from)?;
        Ok((CaseId { type_no, place }, rest))
    }

    ghost shrinks = { id_shrinks };
}

/// The payload of a call, in which blocks stand at most 64 deep one inside another. There is no memory for a list of 2^32
/// items or more.
pub fn payload(alloc: Global, caller: u32, event: &Stored) -> Result<Bytes, NoMemory>
    requires shallow { is_shallow event.now ≡ true }
    requires plain { HasNoVersion event.now }
    ensures { IfOk result (λ bytes. IsPayloadOf bytes caller event.now) }
{
    let mut out = Vec::new(alloc);
    put_stored(caller, event, &mut out)?;
    Ok(Bytes::from_vec(out))
}

// Puts the payload of a call: its tag, its caller, and its fields.
fn put_stored(caller: u32, event: &Stored, out: &mut Vec<u8>) -> Result<(), NoMemory>
    requires shallow { is_shallow event.now ≡ true }
    requires plain { HasNoVersion event.now }
    ensures bytes { OnOk result (out.new.items ≡ out.old.items ++ payload caller event.now) }
    ensures fits { OnOk result (Fits event.now) }
{
    match event {
        Stored::Define(type_no, schema) => {
            put_tagged(1, (caller, *type_no), out)?;
            put_schema(schema, out)
        }
        Stored::Install(type_no, ops) => {
            put_tagged(2, (caller, *type_no), out)?;
            put_list(ops.as_slice(), out)
        }
        Stored::Newest(type_no) => put_tagged(3, (caller, *type_no), out),
        Stored::Create(case, number) => put_tagged(4, (caller, (*case, *number)), out),
        Stored::Migrate(case, number) => put_tagged(8, (caller, (*case, *number)), out),
        Stored::Case(case, event) => put_event(caller, *case, event, out),
    }
}

// Puts the payload of an event of a case.
fn put_event(caller: u32, case: CaseId, event: &Event, out: &mut Vec<u8>) -> Result<(), NoMemory>
    requires plain { IsPlain event.now }
    ensures bytes { OnOk result (out.new.items ≡ out.old.items ++ case_bytes caller case event.now) }
    ensures fits { OnOk result (FitsId case × FitsEvent event.now) }
{
    match event {
        Event::Create(_) | Event::Migrate(_) => Ok(()),
        Event::Start { node, user, roles } => {
            put_tagged(5, (caller, (case, (*node, *user))), out)?;
            put_list(roles.as_slice(), out)
        }
        Event::End {
            node,
            user,
            writes,
            choice,
        } => {
            put_tagged(6, (caller, (case, (*node, *user))), out)?;
            put_list(writes.as_slice(), out)?;
            choice.put(out)
        }
        Event::Withdraw { node, user } => put_tagged(9, (caller, (case, (*node, *user))), out),
        Event::Change(ops) => {
            put_tagged(7, (caller, case), out)?;
            put_list(ops.as_slice(), out)
        }
    }
}

/// The call whose payload the bytes are. None exactly where they are the payload of none.
pub fn read_payload(alloc: Global, bytes: &[u8]) -> Result<Option<Recorded>, NoMemory>
    ensures { IfOk result (λ read. Reads bytes.now read) }
{
    match read_whole(alloc, bytes) {
        Ok(recorded) => Ok(Some(recorded)),
        Err(ReadFault::Malformed) => Ok(None),
        Err(ReadFault::NoMemory) => Err(AllocError),
    }
}

// Reads a call, behind which nothing stands.
fn read_whole(alloc: Global, from: &[u8]) -> Result<Recorded, ReadFault>
    ensures { Gives (λ recorded. recorded) result (recorded_of from.now) }
{
    let (recorded, rest) = read_recorded(alloc, from)?;
    if rest.len() > 0 {
        return Err(ReadFault::Malformed);
    }
    Ok(recorded)
}

// Reads a call: its tag, its caller, and its fields.
#[tactic(auto, unfolding(crate::specs::Reading::recorded_at))]
fn read_recorded(alloc: Global, from: &[u8]) -> Result<(Recorded, &[u8]), ReadFault>
    ensures { Gives (λ x. (x.0, x.1.now)) result (recorded_at from.now) }
{
    let [tag, rest @ ..] = from else {
        return Err(ReadFault::Malformed);
    };
    let (caller, rest) = u32::read(alloc, rest)?;
    let (event, rest) = read_stored(alloc, *tag, rest)?;
    Ok((Recorded { caller, event }, rest))
}

// Reads the fields behind a tag and a caller.
#[tactic(auto, unfolding(crate::specs::Reading::stored_behind))]
fn read_stored(alloc: Global, tag: u8, from: &[u8]) -> Result<(Stored, &[u8]), ReadFault>
    ensures { Gives (λ x. (x.0, x.1.now)) result (stored_behind tag from.now) }
{
    match tag {
        1 => read_define(alloc, from),
        2 => read_install(alloc, from),
        3 => {
            let (type_no, rest) = u32::read(alloc, from)?;
            Ok((Stored::Newest(type_no), rest))
        }
        4 => {
            let ((case, number), rest) = <(CaseId, u32)>::read(alloc, from)?;
            Ok((Stored::Create(case, number), rest))
        }
        5 => read_start(alloc, from),
        6 => read_end(alloc, from),
        7 => read_change(alloc, from),
        8 => {
            let ((case, number), rest) = <(CaseId, u32)>::read(alloc, from)?;
            Ok((Stored::Migrate(case, number), rest))
        }
        9 => read_withdraw(alloc, from),
        _ => Err(ReadFault::Malformed),
    }
}

#[tactic(auto, unfolding(crate::specs::Reading::stored_behind))]
fn read_define(alloc: Global, from: &[u8]) -> Result<(Stored, &[u8]), ReadFault>
    ensures { Gives (λ x. (x.0, x.1.now)) result (stored_behind 1 from.now) }
{
    let (type_no, rest) = u32::read(alloc, from)?;
    let (schema, rest) = read_schema(alloc, rest)?;
    Ok((Stored::Define(type_no, schema), rest))
}

#[tactic(auto, unfolding(crate::specs::Reading::stored_behind))]
fn read_install(alloc: Global, from: &[u8]) -> Result<(Stored, &[u8]), ReadFault>
    ensures { Gives (λ x. (x.0, x.1.now)) result (stored_behind 2 from.now) }
{
    let (type_no, rest) = u32::read(alloc, from)?;
    let (ops, rest) = read_list::<Op>(alloc, rest)?;
    Ok((Stored::Install(type_no, Ops::from_vec(ops)), rest))
}

#[tactic(auto, unfolding(crate::specs::Reading::stored_behind))]
fn read_start(alloc: Global, from: &[u8]) -> Result<(Stored, &[u8]), ReadFault>
    ensures { Gives (λ x. (x.0, x.1.now)) result (stored_behind 5 from.now) }
{
    let (case, rest) = CaseId::read(alloc, from)?;
    let (node, rest) = u32::read(alloc, rest)?;
    let (user, rest) = u32::read(alloc, rest)?;
    let (roles, rest) = read_list::<u32>(alloc, rest)?;
    let event = Event::Start {
        node,
        user,
        roles: RoleList::from_vec(roles),
    };
    Ok((Stored::Case(case, event), rest))
}

#[tactic(auto, unfolding(crate::specs::Reading::stored_behind))]
fn read_end(alloc: Global, from: &[u8]) -> Result<(Stored, &[u8]), ReadFault>
    ensures { Gives (λ x. (x.0, x.1.now)) result (stored_behind 6 from.now) }
{
    let (case, rest) = CaseId::read(alloc, from)?;
    let (node, rest) = u32::read(alloc, rest)?;
    let (user, rest) = u32::read(alloc, rest)?;
    let (writes, rest) = read_list::<(u32, Value)>(alloc, rest)?;
    let (choice, rest) = Option::<u16>::read(alloc, rest)?;
    let event = Event::End {
        node,
        user,
        writes: Writes::from_vec(writes),
        choice,
    };
    Ok((Stored::Case(case, event), rest))
}

#[tactic(auto, unfolding(crate::specs::Reading::stored_behind))]
fn read_change(alloc: Global, from: &[u8]) -> Result<(Stored, &[u8]), ReadFault>
    ensures { Gives (λ x. (x.0, x.1.now)) result (stored_behind 7 from.now) }
{
    let (case, rest) = CaseId::read(alloc, from)?;
    let (ops, rest) = read_list::<Op>(alloc, rest)?;
    Ok((Stored::Case(case, Event::Change(Ops::from_vec(ops))), rest))
}

#[tactic(auto, unfolding(crate::specs::Reading::stored_behind))]
fn read_withdraw(alloc: Global, from: &[u8]) -> Result<(Stored, &[u8]), ReadFault>
    ensures { Gives (λ x. (x.0, x.1.now)) result (stored_behind 9 from.now) }
{
    let ((case, (node, user)), rest) = <(CaseId, (u32, u32))>::read(alloc, from)?;
    Ok((Stored::Case(case, Event::Withdraw { node, user }), rest))
}
