// The first two of many lists that overlap: one walk over all footprints, from the last list to the first.
ghost use Rattle.std.specs.Prelude.{◌≡◌, IfOk, OnOk, if◌then◌else◌, Some, ℕ};
ghost use Rattle.std.specs.BTreeMap as tree;
ghost use Rattle.wsm_ops.specs.declared.operations.Op.{Op};
ghost use Rattle.wsm_foot.specs.{Order.name_cmp, Foot.is_among, declared.names.Name.Name};
ghost use Rattle.wsm_commute.specs.Sweep.{earlier, earliest, pair_or, first_pair};

use std::alloc::Global;
use std::collections::BTreeMap;
use wsm_foot::{Name, all_changes, all_touched};
use wsm_ops::Ops;
use wsm_schema::NoMemory;

// The places of the first list that overlaps with a later one, and of the first such.
pub fn first_pair(alloc: Global, lists: &[Ops]) -> Result<Option<(usize, usize)>, NoMemory>
    ensures { IfOk result (λ pair. pair ≡ first_pair 0 lists.now) }
{
    let mut touched = BTreeMap::new(alloc);
    let mut changed = BTreeMap::new(alloc);
    let mut pair = None;
    for place in (0..lists.len()).rev() {
        let ops = &lists[place];
        let changes = all_changes(alloc, ops)?;
        let touches = all_touched(alloc, ops)?;
        let partner = earlier(first_of(&touched, &changes), first_of(&changed, &touches));
        pair = pair_or(place, partner, pair);
        note(&mut touched, &touches, place)?;
        note(&mut changed, &changes, place)?;
    }
    Ok(pair)
}

// The names are then noted with that place.
fn note(noted: &mut BTreeMap<Name, usize>, names: &[Name], place: usize) -> Result<(), NoMemory>
    ensures { OnOk result ((n : Name) → tree.get name_cmp noted.new n ≡ (if is_among names.now n then Some place else tree.get name_cmp noted.old n)) }
{
    for name in names {
        let _ = noted.insert(*name, place)?;
    }
    Ok(())
}

// The least place that is noted for one of the names.
fn first_of(noted: &BTreeMap<Name, usize>, names: &[Name]) -> Option<usize>
    ensures { result ≡ earliest (tree.get name_cmp noted.now) names.now }
{
    let mut first = None;
    for name in names {
        first = earlier(first, noted.get(name).copied());
    }
    first
}

// The lesser of two places.
fn earlier(a: Option<usize>, b: Option<usize>) -> Option<usize>
    ensures { result ≡ earlier a b }
{
    match (a, b) {
        (Some(a), Some(b)) => Some(a.min(b)),
        (Some(a), None) => Some(a),
        (None, b) => b,
    }
}

// A place with its partner, or the pair that was found behind it.
fn pair_or(
    place: usize,
    partner: Option<usize>,
    later: Option<(usize, usize)>,
) -> Option<(usize, usize)>
    ensures { result ≡ pair_or place partner later }
{
    match partner {
        None => later,
        Some(partner) => Some((place, partner)),
    }
}
