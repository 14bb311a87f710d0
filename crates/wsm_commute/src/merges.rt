// Two lists of operations.
ghost use Rattle.std.specs.{Prelude.{◌≡◌, ◌<◌, ◌^◌, [], ◌∷◌, length, IfOk, OnOk, IfErr, Ok, None, option_map}, Result.result_err};
ghost use Rattle.wsm_schema.specs.{Flat.cards_of, Sound.{nodes_of, twice}};
ghost use Rattle.wsm_ops.specs.Apply.{applied};
ghost use Rattle.wsm_foot.specs.Foot.{least_overlap};
ghost use Rattle.wsm_commute.specs.declared.refusals.MergeRefusal.TheVariants as refusal;
ghost use Rattle.wsm_commute.specs.{Merging.{in_order, merge_fault, many_fault, in_many}, Ordered.IsOrdered, Refusals.IsMergeRefusal};

use crate::ordered::read_lists;
use crate::refusals::MergeRefusal;
use std::alloc::Global;
use wsm_foot::overlap;
use wsm_ops::{ApplyRefusal, Ops, apply};
use wsm_schema::Schema;

/// The schema behind both lists of operations, in either order. The given schema stays as it is.
pub fn merge(alloc: Global, base: &Schema, left: &Ops, right: &Ops) -> Result<Schema, MergeRefusal>
    requires distinct { twice [] (nodes_of (cards_of base.now)) ≡ None }
    requires left_length { length left.now < 2 ^ 32 }
    requires right_length { length right.now < 2 ^ 32 }
    ensures left_first { IfOk result (λ new. in_order base.now (left.now ∷ right.now ∷ []) ≡ Ok new) }
    ensures right_first { IfOk result (λ new. in_order base.now (right.now ∷ left.now ∷ []) ≡ Ok new) }
    ensures accepted { IfOk result (λ new. merge_fault base.now left.now right.now ≡ None) }
    ensures refused { IfErr result (IsMergeRefusal (merge_fault base.now left.now right.now)) }
    ensures distinct { IfOk result (λ new. twice [] (nodes_of (cards_of new)) ≡ None) }
    ensures as_many { many_fault base.now (left.now ∷ right.now ∷ []) ≡ option_map in_many (merge_fault base.now left.now right.now) }
{
    read_lists(base);
    let middle = left_alone(alloc, base, left)?;
    right_behind(alloc, base, &middle, left, right)
}

// The schema behind the left list.
fn left_alone(alloc: Global, base: &Schema, left: &Ops) -> Result<Schema, MergeRefusal>
    requires distinct { twice [] (nodes_of (cards_of base.now)) ≡ None }
    requires length { length left.now < 2 ^ 32 }
    ensures ok { IfOk result (λ new. applied base.now left.now ≡ Ok new) }
    ensures distinct { IfOk result (λ new. twice [] (nodes_of (cards_of new)) ≡ None) }
    ensures fault { IfErr result (IsMergeRefusal (option_map refusal.Left (result_err (applied base.now left.now)))) }
{
    match apply(alloc, base, left) {
        Ok(new) => Ok(new),
        Err(ApplyRefusal::Fault(fault)) => Err(MergeRefusal::Left(fault)),
        Err(ApplyRefusal::NoMemory) => Err(MergeRefusal::NoMemory),
    }
}

// The schema behind the right list, where that applies behind the left one, which made the middle schema.
fn right_behind(
    alloc: Global,
    base: &Schema,
    middle: &Schema,
    left: &Ops,
    right: &Ops,
) -> Result<Schema, MergeRefusal>
    requires ordered { IsOrdered base.now }
    requires distinct { twice [] (nodes_of (cards_of base.now)) ≡ None }
    requires left_first { applied base.now left.now ≡ Ok middle.now }
    requires middle { twice [] (nodes_of (cards_of middle.now)) ≡ None }
    requires right_length { length right.now < 2 ^ 32 }
    ensures left_first { IfOk result (λ new. applied middle.now right.now ≡ Ok new) }
    ensures right_first { IfOk result (λ new. in_order base.now (right.now ∷ left.now ∷ []) ≡ Ok new) }
    ensures accepted { IfOk result (λ new. merge_fault base.now left.now right.now ≡ None) }
    ensures refused { IfErr result (IsMergeRefusal (merge_fault base.now left.now right.now)) }
    ensures distinct { IfOk result (λ new. twice [] (nodes_of (cards_of new)) ≡ None) }
{
    right_alone(alloc, base, right)?;
    no_overlap(alloc, left, right)?;
    match apply(alloc, middle, right) {
        Ok(new) => Ok(new),
        Err(ApplyRefusal::Fault(_)) => unreachable!(),
        Err(ApplyRefusal::NoMemory) => Err(MergeRefusal::NoMemory),
    }
}

// The schema behind the right list.
fn right_alone(alloc: Global, base: &Schema, right: &Ops) -> Result<Schema, MergeRefusal>
    requires distinct { twice [] (nodes_of (cards_of base.now)) ≡ None }
    requires length { length right.now < 2 ^ 32 }
    ensures ok { IfOk result (λ new. applied base.now right.now ≡ Ok new) }
    ensures fault { IfErr result (IsMergeRefusal (option_map refusal.Right (result_err (applied base.now right.now)))) }
{
    match apply(alloc, base, right) {
        Ok(new) => Ok(new),
        Err(ApplyRefusal::Fault(fault)) => Err(MergeRefusal::Right(fault)),
        Err(ApplyRefusal::NoMemory) => Err(MergeRefusal::NoMemory),
    }
}

// Whether the lists may be merged.
fn no_overlap(alloc: Global, left: &Ops, right: &Ops) -> Result<(), MergeRefusal>
    ensures ok { OnOk result (least_overlap left.now right.now ≡ None) }
    ensures fault { IfErr result (IsMergeRefusal (option_map refusal.Overlap (least_overlap left.now right.now))) }
{
    match overlap(alloc, left, right)? {
        None => Ok(()),
        Some(name) => Err(MergeRefusal::Overlap(name)),
    }
}
