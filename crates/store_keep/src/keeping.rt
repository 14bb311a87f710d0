// The work of a file over a disk.
ghost use Rattle.std.specs.{Prelude.{◌≡◌, ◌≢◌, ◌≤◌, ◌^◌, length, map, IfErr, OnOk, IsErrOf}, List.AllByRecursion};
ghost use Rattle.adept_io.specs.Counts.{Rose};
ghost use Rattle.store_room.specs.Room.{IsPayable, payload_of};
ghost use Rattle.store_disk.specs.{Disk.{LeavesOnly, Only}, Opening.HoldsAsBefore};
ghost use Rattle.store_keep.specs.{Keeping.{IsBegun, IsLeft, IsStored, KeepsBeginning}, Refusals.{IsJudgement, IsKeepFault, IsRefusal, Tells}};

use crate::adding::add_all;
use crate::faults::KeepFault;
use crate::finding::{Found, find};
use std::alloc::Global;
use store_disk::{Disk, open_image};
use store_form::Recorded;

/// Stores those of the calls that a disk does not hold yet, in an image of at most so many bytes: those up to each of the ends,
/// which ascend, in groups of their own. It may hold a beginning of the calls; any other disk is refused, and left as it is.
pub fn keep<D: Disk>(
    alloc: Global,
    calls: &[Recorded],
    ends: &[usize],
    limit: u64,
    disk: &mut D,
) -> Result<(), KeepFault>
    requires payable { AllByRecursion IsPayable calls.now }
    requires limit { limit ≤ 2 ^ 30 }
    requires settled { Only (D.content disk.old) (D.may_leave disk.old) }
    ensures all { OnOk result (IsStored D.content D.may_leave disk.new (map payload_of calls.now)) }
    ensures begun { OnOk result (IsBegun (map payload_of calls.now) (D.content disk.old)) }
    ensures within { OnOk result (length (D.content disk.new) ≤ 2 ^ 30) }
    ensures any_moment { KeepsBeginning D.content D.moment D.left_since (map payload_of calls.now) disk.old disk.new }
    ensures refused { IfErr result (λ e. Tells limit calls.now (D.content disk.old) e) }
    ensures fits { OnOk result (Tells limit calls.now (D.content disk.old) KeepFault.Full → ⊥) }
    ensures left { IfErr result (λ e. IsJudgement e → IsLeft D.content D.may_leave disk.old disk.new) }
    ensures same_records { IfErr result (λ e. IsRefusal e → LeavesOnly D.moment D.left_since disk.old disk.new (HoldsAsBefore (D.may_leave disk.old))) }
    ensures others { IfErr result (λ e. IsKeepFault e) }
    ensures rose { IsErrOf result KeepFault.Disk → Rose (D.faults disk.old) (D.faults disk.new) }
    ensures no_fault { OnOk result (D.faults disk.new ≡ D.faults disk.old) }
    ensures no_other_fault { IfErr result (λ e. e ≢ KeepFault.Disk → D.faults disk.new ≡ D.faults disk.old) }
{
    let image = open_image(alloc, disk)?;
    let found = find(alloc, calls, &image)?;
    drop(image);
    match found {
        Found::Beginning { count, gate } => add_all(alloc, calls, count, ends, gate, limit, disk),
        Found::Differs(number) => Err(KeepFault::Differs(number)),
        Found::Damaged(place) => Err(KeepFault::Damaged(place)),
    }
}
