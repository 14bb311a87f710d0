// The payloads of calls that find room in an image.
ghost use Rattle.std.specs.{Prelude.{◌≡◌, ◌+◌, ◌<◌, ◌≤◌, ◌^◌, true, length, map, IfOk, OnOk, IsErrOf}, List.AllByRecursion};
ghost use Rattle.store_disk.specs.Image.{all_framed};
ghost use Rattle.store_form.specs.{Payload.IsPayloadOf, Stored.{HasNoVersion, is_shallow}};
ghost use Rattle.store_room.specs.Room.{HasPayload, IsPayable, Overflows, Passes, payload_of};

use crate::faults::RoomFault;
use adept_io::Bytes;
use std::alloc::Global;
use store_disk::Group;
use store_form::{Recorded, Stored, has_short_lists, payload};

/// The payload of a call, where it finds room behind the gate in an image of at most so many bytes.
pub fn payload_within(
    alloc: Global,
    caller: u32,
    event: &Stored,
    gate: u64,
    limit: u64,
) -> Result<Bytes, RoomFault>
    requires shallow { is_shallow event.now ≡ true }
    requires plain { HasNoVersion event.now }
    requires gate { gate < 2 ^ 30 }
    requires limit { limit ≤ 2 ^ 30 }
    ensures payload { IfOk result (λ bytes. IsPayloadOf bytes caller event.now × (gate + (6 + length bytes) ≤ limit)) }
    ensures fits { OnOk result (Passes limit gate caller event.now → ⊥) }
    ensures full { IsErrOf result RoomFault.Full → Passes limit gate caller event.now }
{
    if !has_short_lists(event) {
        return Err(RoomFault::Full);
    }
    let bytes = payload(alloc, caller, event)?;
    if gate + (6 + bytes.len() as u64) > limit {
        return Err(RoomFault::Full);
    }
    Ok(bytes)
}

/// Calls as one group, where they find room behind the gate in an image of at most so many bytes.
pub fn group_within(
    alloc: Global,
    calls: &[Recorded],
    gate: u64,
    limit: u64,
) -> Result<Group, RoomFault>
    requires payable { AllByRecursion IsPayable calls.now }
    requires gate { gate < 2 ^ 30 }
    requires limit { limit ≤ 2 ^ 30 }
    ensures group { IfOk result (λ group. group ≡ map payload_of calls.now) }
    ensures payloads { OnOk result (AllByRecursion HasPayload calls.now) }
    ensures short { IfOk result (λ group. gate + length (all_framed group) < 2 ^ 30) }
    ensures fits { OnOk result (Overflows limit gate calls.now → ⊥) }
    ensures full { IsErrOf result RoomFault.Full → Overflows limit gate calls.now }
{
    let mut group = Group::new(alloc)?;
    for call in calls {
        let place = gate + group.span();
        let bytes = payload_within(alloc, call.caller, &call.event, place, limit)?;
        group.push(bytes.as_slice())?;
    }
    Ok(group)
}
