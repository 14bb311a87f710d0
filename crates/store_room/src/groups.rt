// Groups in which many calls are stored.
ghost use Rattle.std.specs.{Prelude.{◌≡◌, ◌<◌, ◌≤◌, ◌^◌, length, IfOk, IsErrOf}, List.AllByRecursion};
ghost use Rattle.store_room.specs.{Groups.{IsFirstGroup, end_behind}, Room.{IsPayable, Overflows}};

use crate::faults::RoomFault;
use crate::payloads::payload_within;
use std::alloc::Global;
use store_disk::{Group, MAX_GROUP};
use store_form::Recorded;

/// The first of these calls as a group, and how many they are: as many as make no more than 1,048,576 bytes, but one in any case.
pub fn first_group(
    alloc: Global,
    calls: &[Recorded],
    gate: u64,
    limit: u64,
) -> Result<(Group, usize), RoomFault>
    requires some { 0 < length calls.now }
    requires payable { AllByRecursion IsPayable calls.now }
    requires gate { gate < 2 ^ 30 }
    requires limit { limit ≤ 2 ^ 30 }
    ensures first { IfOk result (λ x. IsFirstGroup limit gate calls.now x.1 x.0) }
    ensures full { IsErrOf result RoomFault.Full → Overflows limit gate calls.now }
{
    let mut group = Group::new(alloc)?;
    for (count, call) in calls.iter().enumerate() {
        let span = group.span();
        let bytes = payload_within(alloc, call.caller, &call.event, gate + span, limit)?;
        if count > 0 && span + (5 + bytes.len() as u64) > MAX_GROUP {
            return Ok((group, count));
        }
        group.push(bytes.as_slice())?;
    }
    Ok((group, calls.len()))
}

/// The end of the phase of the call with an index, no further than so far: the first of the ends that is behind it. With the
/// ends from that one on.
pub fn next_end(ends: &[usize], index: usize, last: usize) -> (usize, &[usize])
    requires { index < last }
    ensures exact { result.0 ≡ end_behind index last ends.now }
    ensures behind { index < result.0 }
    ensures within { result.0 ≤ last }
{
    let mut rest = ends;
    while let [end, others @ ..] = rest {
        if index < *end {
            return ((*end).min(last), rest);
        }
        rest = others;
    }
    (last, rest)
}
