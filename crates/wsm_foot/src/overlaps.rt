// What two lists of operations share.
ghost use Rattle.std.specs.{Prelude.{◌≡◌, IfOk, filter}, BTreeSet.contains};
ghost use Rattle.wsm_foot.specs.{Order.name_cmp, Foot.{lesser, least, least_overlap, if_shared, is_among, footprint, all_changes}};

use crate::footprints::{all_changes, footprint};
use crate::names::Name;
use std::alloc::Global;
use std::collections::BTreeSet;
use wsm_lists::NoMemory;
use wsm_ops::Ops;

/// The least name that one list changes and the other changes or uses. None where neither touches what the other changes.
pub fn overlap(alloc: Global, left: &Ops, right: &Ops) -> Result<Option<Name>, NoMemory>
    ensures { IfOk result (λ name. name ≡ least_overlap left.now right.now) }
{
    let on_left = least_change(alloc, left, right)?;
    let on_right = least_change(alloc, right, left)?;
    Ok(lesser(on_left, on_right))
}

// The least name that the first list changes and the second changes or uses.
fn least_change(alloc: Global, changing: &Ops, other: &Ops) -> Result<Option<Name>, NoMemory>
    ensures { IfOk result (λ name. name ≡ least (filter (is_among (footprint other.now)) (all_changes changing.now))) }
{
    let changes = all_changes(alloc, changing)?;
    let touched = footprint(alloc, other)?;
    Ok(least_shared(&changes, &touched))
}

// The least of the names that are in the set.
fn least_shared(names: &[Name], set: &BTreeSet<Name>) -> Option<Name>
    ensures { result ≡ least (filter (contains name_cmp set.now) names.now) }
{
    let mut least = None;
    for name in names {
        least = lesser(least, if_shared(*name, set));
    }
    least
}

// The name, where it is in the set.
fn if_shared(name: Name, set: &BTreeSet<Name>) -> Option<Name>
    ensures { result ≡ if_shared (contains name_cmp set.now name) name }
{
    if set.contains(&name) {
        Some(name)
    } else {
        None
    }
}

// The lesser of two names, where both are there.
fn lesser(a: Option<Name>, b: Option<Name>) -> Option<Name>
    ensures { result ≡ lesser a b }
{
    match (a, b) {
        (Some(a), Some(b)) => Some(a.min(b)),
        (Some(a), None) => Some(a),
        (None, b) => b,
    }
}
