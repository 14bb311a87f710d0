// Records more: they are written behind a closed gate, and then the gate is opened.
ghost use Rattle.std.specs.Prelude.{◌≡◌, ◌+◌, ◌<◌, ◌≤◌, ◌^◌, List, ℕ, [], ◌∷◌, ◌++◌, get_or, length, max, IfOk, OnOk, OnErr};
ghost use Rattle.adept_io.specs.Counts.{Rose};
ghost use Rattle.store_disk.specs.{Disk.{LeavesOnly, spliced}, Image.{all_framed, HasList, staged}, Rest.{IsAtRest, IsStaged, HasNoneOrAll, IsBeforeOrAfter, appended, group_appended}};

use crate::{Disk, Framed, Group};
use adept_io::Failed;

// The gate of a record that counts.
pub(crate) const OPEN: u8 = 1;

// Writes the records behind the gate at a place, in one piece.
fn stage<D: Disk>(disk: &mut D, gate: u64, group: &Group) -> Result<(), Failed>
    ghost ps: { List (List ℕ) }
    requires rest { IsAtRest D.content D.may_leave disk.old ps gate }
    requires room { gate < 2 ^ 63 }
    ensures staged { OnOk result (IsStaged D.content D.may_leave disk.new ps group.now gate) }
    ensures bytes { OnOk result (D.content disk.new ≡ spliced (gate + 1) (staged group.now) (D.content disk.old)) }
    ensures any_moment { LeavesOnly D.moment D.left_since disk.old disk.new (HasList ps) }
    ensures size { OnOk result (length (D.content disk.new) ≡ max (length (D.content disk.old)) (gate + (1 + length (all_framed group.now)))) }
    ensures rose { OnErr result (Rose (D.faults disk.old) (D.faults disk.new)) }
    ensures no_fault { OnOk result (D.faults disk.new ≡ D.faults disk.old) }
    ensures never_falls { D.faults disk.old ≤ D.faults disk.new }
{
    disk.write(gate + 1, group.as_slice())?;
    // The records are whole, and the gate before the first is shut.
    disk.sync()?;
    Ok(())
}

// Opens the gate of the records that stand behind it, and answers where the next gate is.
fn open_gate<D: Disk>(disk: &mut D, gate: u64, group: &Group) -> Result<u64, Failed>
    ghost ps: { List (List ℕ) }
    requires staged { IsStaged D.content D.may_leave disk.old ps group.now gate }
    requires some { 0 < length group.now }
    requires room { gate < 2 ^ 63 }
    ensures rest { IfOk result (λ next. IsAtRest D.content D.may_leave disk.new (ps ++ group.now) next) }
    ensures next { IfOk result (λ next. next ≡ gate + length (all_framed group.now)) }
    ensures next_gate { IfOk result (λ next. get_or (D.content disk.new) next 1 ≡ 0) }
    ensures bytes { OnOk result (D.content disk.new ≡ spliced gate (1 ∷ []) (D.content disk.old)) }
    ensures any_moment { LeavesOnly D.moment D.left_since disk.old disk.new (HasNoneOrAll ps group.now) }
    ensures size { OnOk result (length (D.content disk.new) ≡ length (D.content disk.old)) }
    ensures rose { OnErr result (Rose (D.faults disk.old) (D.faults disk.new)) }
    ensures no_fault { OnOk result (D.faults disk.new ≡ D.faults disk.old) }
    ensures never_falls { D.faults disk.old ≤ D.faults disk.new }
{
    disk.write(gate, &[OPEN])?;
    // The gate is open, and may still be torn.
    disk.sync()?;
    Ok(gate + group.span())
}

/// One or more payloads more, on a disk that holds `ps`; answers where the next record's gate is. At `Ok` all are
/// acknowledged: each image has them. A stop at any moment of the call leaves the old list, or that and all of these.
pub fn append_group<D: Disk>(disk: &mut D, gate: u64, group: &Group) -> Result<u64, Failed>
    ghost ps: { List (List ℕ) }
    requires rest { IsAtRest D.content D.may_leave disk.old ps gate }
    requires some { 0 < length group.now }
    requires room { gate < 2 ^ 63 }
    ensures acknowledged { IfOk result (λ next. IsAtRest D.content D.may_leave disk.new (ps ++ group.now) next) }
    ensures next { IfOk result (λ next. next ≡ gate + length (all_framed group.now)) }
    ensures next_gate { IfOk result (λ next. get_or (D.content disk.new) next 1 ≡ 0) }
    ensures bytes { OnOk result (D.content disk.new ≡ group_appended gate group.now (D.content disk.old)) }
    ensures every_image { OnOk result ((image : List ℕ) → D.may_leave disk.new image → HasList (ps ++ group.now) image) }
    ensures any_moment { LeavesOnly D.moment D.left_since disk.old disk.new (HasNoneOrAll ps group.now) }
    ensures size { OnOk result (length (D.content disk.new) ≡ max (length (D.content disk.old)) (gate + (1 + length (all_framed group.now)))) }
    ensures rose { OnErr result (Rose (D.faults disk.old) (D.faults disk.new)) }
    ensures no_fault { OnOk result (D.faults disk.new ≡ D.faults disk.old) }
    ensures never_falls { D.faults disk.old ≤ D.faults disk.new }
{
    stage(disk, gate, group)?;
    let next = open_gate(disk, gate, group)?;
    Ok(next)
}

/// One payload more, on a disk that holds `ps`; answers where the next record's gate is. At `Ok` it is acknowledged: each
/// image has it. A stop at any moment of the call leaves the old list, or that and this payload.
pub fn append<D: Disk>(disk: &mut D, gate: u64, framed: &Framed) -> Result<u64, Failed>
    ghost ps: { List (List ℕ) }
    requires rest { IsAtRest D.content D.may_leave disk.old ps gate }
    requires room { gate < 2 ^ 63 }
    ensures acknowledged { IfOk result (λ next. IsAtRest D.content D.may_leave disk.new (ps ++ framed.now ∷ []) next) }
    ensures next { IfOk result (λ next. next ≡ gate + (5 + length framed.now)) }
    ensures next_gate { IfOk result (λ next. get_or (D.content disk.new) next 1 ≡ 0) }
    ensures bytes { OnOk result (D.content disk.new ≡ appended gate framed.now (D.content disk.old)) }
    ensures every_image { OnOk result ((image : List ℕ) → D.may_leave disk.new image → HasList (ps ++ framed.now ∷ []) image) }
    ensures any_moment { LeavesOnly D.moment D.left_since disk.old disk.new (IsBeforeOrAfter ps framed.now) }
    ensures size { OnOk result (length (D.content disk.new) ≡ max (length (D.content disk.old)) (gate + (6 + length framed.now))) }
    ensures rose { OnErr result (Rose (D.faults disk.old) (D.faults disk.new)) }
    ensures no_fault { OnOk result (D.faults disk.new ≡ D.faults disk.old) }
    ensures never_falls { D.faults disk.old ≤ D.faults disk.new }
{
    let next = append_group(disk, gate, framed.as_group())?;
    Ok(next)
}
