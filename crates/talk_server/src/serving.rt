// A server, from its opening to the end of its talk.
ghost use Rattle.std.specs.{Prelude.{◌≡◌, ◌≤◌, ◌<◌, ◌^◌, ℕ, length, IfSome, IfErr, OnOk, OnErr, IsErrOf}, Io.KnownBytes.IsAtEnd};
ghost use Rattle.adept_io.specs.Counts.{Rose};
ghost use Rattle.store_disk.specs.Disk.{LeavesOnly, Only};
ghost use Rattle.talk_server.specs.{Opening.{damaged_at, opening}, Served.{Ends, HasAnswered, HasAnyAnswered, IsDiskFault, IsLeft, IsOfServer, IsStoreFault, SaysAll, SaysSome}};

use crate::faults::ServeFault;
use crate::opening::open;
use crate::responding::Server;
use adept_io::{Sink, Source};
use std::alloc::Global;
use std::mem::forget;
use store_disk::Disk;
use talk_rules::Holder;
use turn_loop::{TalkFault, serve_turns};

/// Answers a talk over what a disk holds, which is worked again first. Each item is answered by what is held then: the units
/// of the disk, and those of the talk that were accepted before it; and each that is accepted is on the disk before its
/// answer is written. What is held at the end is forgotten, not given back: the process is to end behind this call.
pub fn serve<H: Holder + Drop, S: Source, K: Sink, D: Disk>(
    alloc: Global,
    source: &mut S,
    sink: &mut K,
    disk: &mut D,
) -> Result<(), ServeFault>
    requires settled { Only (D.content disk.old) (D.may_leave disk.old) }
    ensures ended { Ends H.rules D.content D.may_leave D.moment D.left_since disk.old disk.new (S.left source.old) (S.left source.new) (K.written sink.old) (K.written sink.new) result }
    ensures whole { OnOk result (IsAtEnd (S.left source.new)) }
    ensures answered { OnOk result (IfSome (S.left source.old) (SaysAll H.rules (D.content disk.old) (K.written sink.old) (K.written sink.new))) }
    ensures begun { OnErr result (IfSome (S.left source.old) (SaysSome H.rules (D.content disk.old) (K.written sink.old) (K.written sink.new))) }
    ensures any_moment { LeavesOnly D.moment D.left_since disk.old disk.new (IsOfServer H.rules (D.may_leave disk.old) (D.content disk.old) (S.left source.old)) }
    ensures acknowledged { OnOk result (IfSome (S.left source.old) (HasAnswered H.rules (D.content disk.old) (D.may_leave disk.new) (K.written sink.old) (K.written sink.new))) }
    ensures none_lost { OnErr result (IfSome (S.left source.old) (HasAnyAnswered H.rules (D.content disk.old) (D.may_leave disk.new) (K.written sink.old) (K.written sink.new))) }
    ensures untouched { IfErr result (λ e. IsStoreFault e → (sink.new ≡ sink.old) × (source.new ≡ source.old)) }
    ensures damaged { IfErr result (λ e. (place : ℕ) → e ≡ ServeFault.Damaged place → opening H.rules (D.content disk.old) ≡ damaged_at place) }
    ensures left { IfErr result (λ e. (place : ℕ) → e ≡ ServeFault.Damaged place → IsLeft D.content D.may_leave disk.old disk.new) }
    ensures too_long { IsErrOf result ServeFault.TooLong → 2 ^ 30 < length (D.content disk.old) }
    ensures long { IfSome (S.left source.old) (λ talk. OnOk result (length talk < 2 ^ 63)) }
    ensures talk_too_long { IfSome (S.left source.old) (λ talk. IsErrOf result (ServeFault.Talk TalkFault.TooLong) → 2 ^ 63 ≤ length talk) }
    ensures source_failed { IsErrOf result (ServeFault.Talk TalkFault.Unread) → Rose (S.faults source.old) (S.faults source.new) }
    ensures sink_failed { IsErrOf result (ServeFault.Talk TalkFault.Unwritten) → Rose (K.faults sink.old) (K.faults sink.new) }
    ensures disk_failed { IfErr result (λ e. IsDiskFault e → Rose (D.faults disk.old) (D.faults disk.new)) }
{
    let (state, gate) = open::<H, D>(alloc, disk)?;
    let mut server = Server::new(alloc, state);
    let end = serve_turns(alloc, source, sink, disk, gate, &mut server);
    // What a server holds goes back with the process as one, not piece by piece.
    forget(server);
    match end {
        Ok(()) => Ok(()),
        Err(why) => Err(ServeFault::Talk(why)),
    }
}
