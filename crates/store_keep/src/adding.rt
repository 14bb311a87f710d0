// Calls that are stored behind others, in groups.
ghost use Rattle.std.specs.{Prelude.{◌≡◌, ◌≢◌, ◌<◌, ◌≤◌, ◌^◌, ◌++◌, length, map, drop, IfErr, OnOk, IsErrOf}, List.AllByRecursion};
ghost use Rattle.adept_io.specs.Counts.{Rose};
ghost use Rattle.store_disk.specs.Rest.{IsAtRest};
ghost use Rattle.store_keep.specs.{Keeping.{AddsOnly, IsStored, held}, Refusals.IsAddFault};
ghost use Rattle.store_room.specs.Room.{IsPayable, Overflows, payload_of};

use crate::faults::KeepFault;
use std::alloc::Global;
use store_disk::{Disk, append_group};
use store_form::Recorded;
use store_room::{first_group, next_end};

// Stores the calls behind the first so many, in an image of at most so many bytes: those up to each end in groups of their own.
pub(crate) fn add_all<D: Disk>(
    alloc: Global,
    calls: &[Recorded],
    stored: usize,
    ends: &[usize],
    gate: u64,
    limit: u64,
    disk: &mut D,
) -> Result<(), KeepFault>
    requires rest { IsAtRest D.content D.may_leave disk.old (held (D.content disk.old)) gate }
    requires payable { AllByRecursion IsPayable calls.now }
    requires short { gate < 2 ^ 30 }
    requires limit { limit ≤ 2 ^ 30 }
    ensures all { OnOk result (IsStored D.content D.may_leave disk.new (held (D.content disk.old) ++ map payload_of (drop stored calls.now))) }
    ensures within { OnOk result (length (D.content disk.old) ≤ 2 ^ 30 → length (D.content disk.new) ≤ 2 ^ 30) }
    ensures any_moment { AddsOnly D.content D.moment D.left_since (map payload_of (drop stored calls.now)) disk.old disk.new }
    ensures fits { OnOk result (Overflows limit gate (drop stored calls.now) → ⊥) }
    ensures full { IsErrOf result KeepFault.Full → Overflows limit gate (drop stored calls.now) }
    ensures others { IfErr result (λ e. IsAddFault e) }
    ensures rose { IsErrOf result KeepFault.Disk → Rose (D.faults disk.old) (D.faults disk.new) }
    ensures no_fault { OnOk result (D.faults disk.new ≡ D.faults disk.old) }
    ensures no_other_fault { IfErr result (λ e. e ≢ KeepFault.Disk → D.faults disk.new ≡ D.faults disk.old) }
{
    let mut stored = stored;
    let mut ends = ends;
    let mut gate = gate;
    while stored < calls.len() {
        let (end, others) = next_end(ends, stored, calls.len());
        let (group, count) = first_group(alloc, &calls[stored..end], gate, limit)?;
        gate = append_group(disk, gate, &group)?;
        stored += count;
        ends = others;
    }
    Ok(())
}
