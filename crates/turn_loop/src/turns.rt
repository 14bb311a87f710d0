// One turn: work, store, answer.
ghost use Rattle.std.specs.{Prelude.{◌≡◌, ◌⊎◌, ◌<◌, ◌≤◌, ◌^◌, ◌++◌, [], ℕ, List, Bool, length, IfOk, IfErr, OnOk, OnErr, IsErrOf}, Io.KnownBytes.Appends};
ghost use Rattle.adept_io.specs.{Counts.Rose, Written.AppendsPrefix};
ghost use Rattle.store_disk.specs.{Disk.LeavesOnly, Image.all_framed, Rest.{HasNoneOrAll, IsAtRest}};
ghost use Rattle.turn_loop.specs.{Serving.{CutFrom, TurnedFrom}, Talk.IsRest};

use crate::faults::TalkFault;
use crate::responders::Responder;
use crate::working::work_items;
use adept_io::{Sink, write_all};
use std::alloc::Global;
use store_disk::{Disk, Group, append_group};

// How far bytes were worked, and where the next record's gate is.
#[derive(Clone, Copy)]
pub(crate) struct Turn {
    // So many bytes in front were taken.
    pub(crate) done: usize,
    pub(crate) gate: u64,
}

// Puts a group on the disk, where it has a payload.
fn store<D: Disk>(disk: &mut D, gate: u64, group: &Group) -> Result<u64, TalkFault>
    ghost ps: { List (List ℕ) }
    requires rest { IsAtRest D.content D.may_leave disk.old ps gate }
    requires short { gate < 2 ^ 30 }
    requires room { (group.now ≡ []) ⊎ (length (all_framed (ps ++ group.now)) < 2 ^ 30) }
    ensures rest { IfOk result (λ next. IsAtRest D.content D.may_leave disk.new (ps ++ group.now) next) }
    ensures short { IfOk result (λ next. next < 2 ^ 30) }
    ensures any_moment { LeavesOnly D.moment D.left_since disk.old disk.new (HasNoneOrAll ps group.now) }
    ensures causes { IfErr result (λ e. e ≡ TalkFault.Disk) }
    ensures rose { OnErr result (Rose (D.faults disk.old) (D.faults disk.new)) }
    ensures no_fault { OnOk result (D.faults disk.new ≡ D.faults disk.old) }
    ensures never_falls { D.faults disk.old ≤ D.faults disk.new }
{
    if group.is_empty() {
        return Ok(gate);
    }
    match append_group(disk, gate, group) {
        Ok(next) => Ok(next),
        Err(_) => Err(TalkFault::Disk),
    }
}

// Writes the answers of a turn.
pub(crate) fn answer<K: Sink>(sink: &mut K, text: &[u8]) -> Result<(), TalkFault>
    ensures all { OnOk result (Appends (K.written sink.old) (K.written sink.new) text.now) }
    ensures part { OnErr result (AppendsPrefix (K.written sink.old) (K.written sink.new) text.now) }
    ensures causes { IfErr result (λ e. e ≡ TalkFault.Unwritten) }
    ensures rose { OnErr result (Rose (K.faults sink.old) (K.faults sink.new)) }
    ensures never_falls { K.faults sink.old ≤ K.faults sink.new }
{
    match write_all(sink, text) {
        Ok(()) => Ok(()),
        Err(_) => Err(TalkFault::Unwritten),
    }
}

// Works the items at the front of bytes, puts the accepted ones on the disk as one group, and then writes the answers.
pub(crate) fn take_turn<K: Sink, D: Disk, E: Responder>(
    alloc: Global,
    responder: &mut E,
    disk: &mut D,
    sink: &mut K,
    gate: u64,
    bytes: &[u8],
) -> Result<Turn, TalkFault>
    ghost ps: { List (List ℕ) }
    requires begun { (first : Bool) × ((begun : List ℕ) × E.holds responder.old first ps begun × IsRest E.rules.ends begun) }
    requires rest { IsAtRest D.content D.may_leave disk.old ps gate }
    requires short { gate < 2 ^ 30 }
    ensures within { IfOk result (λ t. t.done ≤ length bytes.now) }
    ensures some { IfOk result (λ t. 0 < length bytes.now → 0 < t.done) }
    ensures done { TurnedFrom E.rules E.holds D.content D.may_leave D.moment D.left_since ps responder.old responder.new disk.old disk.new (K.written sink.old) (K.written sink.new) bytes.now result }
    ensures cut { CutFrom E.rules E.holds D.may_leave D.moment D.left_since ps responder.old disk.old disk.new (K.written sink.old) (K.written sink.new) bytes.now result }
    ensures no_read { IsErrOf result TalkFault.Unread → ⊥ }
    ensures disk_failed { IsErrOf result TalkFault.Disk → Rose (D.faults disk.old) (D.faults disk.new) }
    ensures sink_failed { IsErrOf result TalkFault.Unwritten → Rose (K.faults sink.old) (K.faults sink.new) }
    ensures disk_never_falls { D.faults disk.old ≤ D.faults disk.new }
    ensures sink_never_falls { K.faults sink.old ≤ K.faults sink.new }
{
    let mut text = Vec::new(alloc);
    let mut group = Group::new(alloc)?;
    let worked = work_items(responder, bytes, &mut text, &mut group)?;
    let next = store(disk, gate, &group)?;
    answer(sink, &text)?;
    Ok(Turn {
        done: worked,
        gate: next,
    })
}
