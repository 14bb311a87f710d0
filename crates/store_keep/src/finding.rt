// What an image holds of calls. No record is decoded: equal payloads are of equal calls.
ghost use Rattle.std.specs.{Prelude.{◌≡◌, ◌≤◌, ◌^◌, length, map, slice_get, IfOk}, List.AllByRecursion};
ghost use Rattle.store_room.specs.Room.{IsPayable, payload_of};
ghost use Rattle.store_disk.specs.{Image.frames, Opening.with_gate};
ghost use Rattle.store_keep.specs.Finding.{HoldsFound, finds, is_call};

use adept_io::NoMemory;
use std::alloc::Global;
use store_disk::{Frame, frame_in};
use store_form::{Recorded, payload};

/// What an image holds of calls.
#[derive(Clone, Copy, Debug, PartialEq, Eq)]
pub enum Found {
    /// So many of them, and the gate behind their records stands there.
    Beginning { count: usize, gate: u64 },
    /// The record with that number, from 1, is not that call.
    Differs(u64),
    /// At that place an open gate has no whole record, or the image ends without a gate.
    Damaged(u64),
}

// Compares the records of an image with calls, one after another.
pub(crate) fn find(alloc: Global, calls: &[Recorded], image: &[u8]) -> Result<Found, NoMemory>
    requires gate { with_gate image.now ≡ image.now }
    requires within { length image.now ≤ 2 ^ 30 }
    requires payable { AllByRecursion IsPayable calls.now }
    ensures found { IfOk result (λ found. found ≡ finds 0 (map payload_of calls.now) (frames image.now)) }
    ensures holds { IfOk result (λ found. HoldsFound calls.now image.now found) }
{
    let mut rest = image;
    let mut gate = 0;
    let mut count = 0;
    loop {
        match frame_in(rest) {
            Frame::Closed => return Ok(Found::Beginning { count, gate }),
            Frame::Damaged => return Ok(Found::Damaged(gate)),
            Frame::Record(len) => {
                if !is_call(alloc, calls, count, &rest[5..5 + len])? {
                    return Ok(Found::Differs(count as u64 + 1));
                }
                rest = &rest[5 + len..];
                gate += 5 + len as u64;
                count += 1;
            }
        }
    }
}

// Whether there is a call at an index, and bytes are its payload.
fn is_call(alloc: Global, calls: &[Recorded], at: usize, bytes: &[u8]) -> Result<bool, NoMemory>
    requires { AllByRecursion IsPayable calls.now }
    ensures { IfOk result (λ same. same ≡ is_call (slice_get calls.now at) bytes.now) }
{
    match calls.get(at) {
        None => Ok(false),
        Some(call) => {
            let own = payload(alloc, call.caller, &call.event)?;
            Ok(own.as_slice() == bytes)
        }
    }
}
