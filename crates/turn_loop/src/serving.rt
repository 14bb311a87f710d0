// A talk from its first byte to its end.
ghost use Rattle.std.specs.{Prelude.{◌≡◌, ◌<◌, ◌≤◌, ◌^◌, ◌++◌, [], ℕ, List, Bool, true, length, IfSome, OnOk, OnErr, IfErr, IsErrOf}, Io.KnownBytes.{Appends, IsAtEnd}};
ghost use Rattle.adept_io.specs.{Counts.Rose, Written.AppendsPrefix};
ghost use Rattle.store_disk.specs.{Disk.LeavesOnly, Rest.IsAtRest};
ghost use Rattle.turn_loop.specs.{Serving.{Acknowledged, Closes, Ended, HoldsBeginningOf}, Talk.{Rules, said}};

use crate::faults::TalkFault;
use crate::responders::Responder;
use crate::turns::{answer, take_turn};
use crate::waiting::Waiting;
use adept_io::{Sink, Source};
use std::alloc::Global;
use store_disk::Disk;

// Answers the rest behind which there are no more bytes.
fn close<K: Sink, E: Responder>(
    alloc: Global,
    responder: &mut E,
    sink: &mut K,
) -> Result<(), TalkFault>
    ensures closes { (first : Bool) (ps : List (List ℕ)) (rest : List ℕ) → E.holds responder.old first ps rest → Closes (K.written sink.old) (K.written sink.new) (E.rules.ending ps rest) result }
    ensures sink_failed { IsErrOf result TalkFault.Unwritten → Rose (K.faults sink.old) (K.faults sink.new) }
    ensures sink_never_falls { K.faults sink.old ≤ K.faults sink.new }
{
    let mut text = Vec::new(alloc);
    responder.close(&mut text)?;
    answer(sink, &text)
}

// The talk, turn by turn.
fn talk<S: Source, K: Sink, D: Disk, E: Responder>(
    alloc: Global,
    source: &mut S,
    sink: &mut K,
    disk: &mut D,
    gate: u64,
    responder: &mut E,
) -> Result<(), TalkFault>
    ghost ps: { List (List ℕ) }
    requires holds { E.holds responder.old true ps [] }
    requires rest { IsAtRest D.content D.may_leave disk.old ps gate }
    requires short { gate < 2 ^ 30 }
    ensures ended { Ended E.rules D.may_leave D.moment D.left_since disk.old disk.new (S.left source.old) (S.left source.new) (K.written sink.old) (K.written sink.new) ps result }
    ensures source_failed { IsErrOf result TalkFault.Unread → Rose (S.faults source.old) (S.faults source.new) }
    ensures sink_failed { IsErrOf result TalkFault.Unwritten → Rose (K.faults sink.old) (K.faults sink.new) }
    ensures disk_failed { IsErrOf result TalkFault.Disk → Rose (D.faults disk.old) (D.faults disk.new) }
{
    let mut waiting = Waiting::new(alloc)?;
    let mut gate = gate;
    'turns: loop {
        waiting.fill(source)?;
        if waiting.is_empty() {
            return close(alloc, responder, sink);
        }
        let turn = take_turn(alloc, responder, disk, sink, gate, waiting.as_slice())?;
        waiting.remove(turn.done);
        gate = turn.gate;
    }
}

/// Answers a talk over a disk that holds `ps`: takes what a source gives, works the items that are whole with it, puts the
/// accepted ones of a turn on the disk as one group, and then writes the turn's answers, all of them; and so on to the end
/// of the bytes. A read is made only where no item that is whole waits for its answer.
pub fn serve_turns<S: Source, K: Sink, D: Disk, E: Responder>(
    alloc: Global,
    source: &mut S,
    sink: &mut K,
    disk: &mut D,
    gate: u64,
    responder: &mut E,
) -> Result<(), TalkFault>
    ghost ps: { List (List ℕ) }
    requires holds { E.holds responder.old true ps [] }
    requires rest { IsAtRest D.content D.may_leave disk.old ps gate }
    requires short { gate < 2 ^ 30 }
    ensures ended { Ended E.rules D.may_leave D.moment D.left_since disk.old disk.new (S.left source.old) (S.left source.new) (K.written sink.old) (K.written sink.new) ps result }
    ensures whole { OnOk result (IsAtEnd (S.left source.new)) }
    ensures answered { OnOk result (IfSome (S.left source.old) (λ talk. Appends (K.written sink.old) (K.written sink.new) (said E.rules ps talk))) }
    ensures begun { OnErr result (IfSome (S.left source.old) (λ talk. AppendsPrefix (K.written sink.old) (K.written sink.new) (said E.rules ps talk))) }
    ensures any_moment { LeavesOnly D.moment D.left_since disk.old disk.new (HoldsBeginningOf E.rules ps (S.left source.old)) }
    ensures acknowledged { IfSome (S.left source.old) (λ talk. Acknowledged E.rules (D.may_leave disk.new) (K.written sink.old) (K.written sink.new) ps talk) }
    ensures long { IfSome (S.left source.old) (λ talk. OnOk result (length talk < 2 ^ 63)) }
    ensures too_long { IfSome (S.left source.old) (λ talk. IsErrOf result TalkFault.TooLong → 2 ^ 63 ≤ length talk) }
    ensures source_failed { IsErrOf result TalkFault.Unread → Rose (S.faults source.old) (S.faults source.new) }
    ensures sink_failed { IsErrOf result TalkFault.Unwritten → Rose (K.faults sink.old) (K.faults sink.new) }
    ensures disk_failed { IsErrOf result TalkFault.Disk → Rose (D.faults disk.old) (D.faults disk.new) }
{
    talk(alloc, source, sink, disk, gate, responder)
}
