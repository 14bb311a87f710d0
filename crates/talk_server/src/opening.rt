// What a disk holds, worked again.
ghost use Rattle.std.specs.Prelude.{◌≡◌, ◌≤◌, ◌<◌, ◌^◌, ℕ, length, IfOk, IfErr, OnOk, IsErrOf};
ghost use Rattle.adept_io.specs.Counts.{Rose};
ghost use Rattle.store_disk.specs.Disk.{LeavesOnly, Only};
ghost use Rattle.talk_server.specs.{Opening.{damaged_at, opening}, Served.{IsDiskFault, IsLeft, IsOpened, IsOpening, IsOpeningFault}};

use crate::beginning::begin;
use crate::faults::ServeFault;
use crate::fronts::{Front, front_of};
use crate::taking::{HEADED, take_records};
use std::alloc::Global;
use store_disk::{Disk, open_image};
use talk_rules::Holder;

/// What a disk holds, worked again, and where its next record goes. A disk without records is begun.
pub(crate) fn open<H: Holder + Drop, D: Disk>(
    alloc: Global,
    disk: &mut D,
) -> Result<(H, u64), ServeFault>
    requires settled { Only (D.content disk.old) (D.may_leave disk.old) }
    ensures opened { IfOk result (λ o. IsOpened H.rules H.holds D.content D.may_leave (D.content disk.old) disk.new o.0 o.1) }
    ensures damaged { IfErr result (λ e. (place : ℕ) → e ≡ ServeFault.Damaged place → opening H.rules (D.content disk.old) ≡ damaged_at place) }
    ensures left { IfErr result (λ e. (place : ℕ) → e ≡ ServeFault.Damaged place → IsLeft D.content D.may_leave disk.old disk.new) }
    ensures too_long { IsErrOf result ServeFault.TooLong → 2 ^ 30 < length (D.content disk.old) }
    ensures causes { IfErr result (λ e. IsOpeningFault e) }
    ensures any_moment { LeavesOnly D.moment D.left_since disk.old disk.new (IsOpening (D.may_leave disk.old) (opening H.rules (D.content disk.old))) }
    ensures rose { IfErr result (λ e. IsDiskFault e → Rose (D.faults disk.old) (D.faults disk.new)) }
    ensures no_fault { OnOk result (D.faults disk.new ≡ D.faults disk.old) }
    ensures never_falls { D.faults disk.old ≤ D.faults disk.new }
{
    let image = open_image(alloc, disk)?;
    let bytes = image.as_slice();
    match front_of(bytes) {
        Front::Unbegun => begin(alloc, disk),
        Front::Header => take_records(alloc, &bytes[HEADED..]),
        Front::Other => Err(ServeFault::Damaged(0)),
    }
}
