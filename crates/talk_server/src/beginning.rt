// A disk without records, begun.
ghost use Rattle.std.specs.Prelude.{◌≡◌, ◌≤◌, ◌⊎◌, [], ◌∷◌, IfOk, IfErr, OnOk, IsErrOf};
ghost use Rattle.adept_io.specs.Counts.{Rose};
ghost use Rattle.store_disk.specs.{Disk.LeavesOnly, Rest.{HasNoneOrAll, IsAtRest}};
ghost use Rattle.talk_rules.specs.Units.{header};

use crate::faults::ServeFault;
use adept_io::NoMemory;
use std::alloc::Global;
use store_disk::{Disk, Group, append_group};
use talk_rules::{Holder, header};
use turn_loop::TalkFault;

// The header as a group of its own.
fn header_group(alloc: Global) -> Result<Group, NoMemory>
    ensures { IfOk result (λ group. group ≡ header ∷ []) }
{
    let mut group = Group::new(alloc)?;
    group.push(header())?;
    Ok(group)
}

// Puts the header on a disk without records, and answers where the next gate is.
pub(crate) fn begin<H: Holder + Drop, D: Disk>(
    alloc: Global,
    disk: &mut D,
) -> Result<(H, u64), ServeFault>
    requires rest { IsAtRest D.content D.may_leave disk.old [] 0 }
    ensures holds { IfOk result (λ o. H.holds o.0 []) }
    ensures rest { IfOk result (λ o. IsAtRest D.content D.may_leave disk.new (header ∷ []) o.1) }
    ensures gate { IfOk result (λ o. o.1 ≡ 13) }
    ensures any_moment { LeavesOnly D.moment D.left_since disk.old disk.new (HasNoneOrAll [] (header ∷ [])) }
    ensures causes { IfErr result (λ e. (e ≡ ServeFault.Talk TalkFault.NoMemory) ⊎ (e ≡ ServeFault.Talk TalkFault.Disk)) }
    ensures rose { IsErrOf result (ServeFault.Talk TalkFault.Disk) → Rose (D.faults disk.old) (D.faults disk.new) }
    ensures no_fault { OnOk result (D.faults disk.new ≡ D.faults disk.old) }
    ensures never_falls { D.faults disk.old ≤ D.faults disk.new }
{
    let holder = H::new(alloc)?;
    let group = header_group(alloc)?;
    match append_group(disk, 0, &group) {
        Ok(gate) => Ok((holder, gate)),
        Err(_) => Err(ServeFault::Talk(TalkFault::Disk)),
    }
}
