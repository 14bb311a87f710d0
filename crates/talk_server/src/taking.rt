// The records behind the header's, worked again.
ghost use Rattle.std.specs.Prelude.{◌≡◌, ◌+◌, ◌≤◌, ◌^◌, ◌<◌, ◌&&◌, not, List, ℕ, [], length, IfOk, IfErr};
ghost use Rattle.talk_items.specs.Items.{item_end, kind};
ghost use Rattle.talk_rules.specs.Units.{units_behind};
ghost use Rattle.talk_server.specs.{Opening.{is_at_end, is_next}, Taking.{IsHeld, TellsDamage}, Talks.{is_too_long, is_unit}};

use crate::faults::ServeFault;
use adept_io::NoMemory;
use std::alloc::Global;
use store_disk::{Frame, frame_in};
use talk_items::{ItemKind, Scanner};
use talk_rules::Holder;

// The header's record has so many bytes.
pub(crate) const HEADED: usize = 13;

// Whether a payload is one item, all of it, and a unit that is not too long.
fn is_one_unit(payload: &[u8]) -> bool
    ensures { result ≡ (is_at_end (item_end [] payload.now) payload.now && (not (is_too_long payload.now) && is_unit (kind payload.now))) }
{
    let mut scanner = Scanner::new();
    match scanner.scan(payload) {
        None => false,
        Some(len) => {
            len == payload.len() && !scanner.is_too_long() && scanner.kind() == ItemKind::Unit
        }
    }
}

// Takes a payload behind the others, where it is exactly one unit that is accepted there. Answers whether it was taken.
fn take_record<H: Holder>(alloc: Global, holder: &mut H, payload: &[u8]) -> Result<bool, NoMemory>
    ensures taken { (units : List (List ℕ)) → H.holds holder.old units → IfOk result (λ taken. taken ≡ is_next H.rules units payload.now) }
    ensures holds { (units : List (List ℕ)) → H.holds holder.old units → IfOk result (λ taken. H.holds holder.new (units_behind taken units payload.now)) }
{
    if !is_one_unit(payload) {
        return Ok(false);
    }
    holder.take_unit(alloc, payload)
}

// Works the records behind the header's, and answers the place of the gate behind them.
pub(crate) fn take_records<H: Holder + Drop>(
    alloc: Global,
    records: &[u8],
) -> Result<(H, u64), ServeFault>
    requires within { 13 + length records.now ≤ 2 ^ 30 }
    ensures held { IfOk result (λ o. IsHeld H.rules H.holds records.now o.0 o.1) }
    ensures damaged { IfErr result (λ e. TellsDamage H.rules records.now e) }
{
    let mut holder = H::new(alloc)?;
    let mut rest = records;
    let mut place = HEADED as u64;
    loop {
        match frame_in(rest) {
            Frame::Closed => return Ok((holder, place)),
            Frame::Damaged => return Err(ServeFault::Damaged(place)),
            Frame::Record(len) => {
                if !take_record(alloc, &mut holder, &rest[5..5 + len])? {
                    return Err(ServeFault::Damaged(place));
                }
                rest = &rest[5 + len..];
                place += 5 + len as u64;
            }
        }
    }
}
