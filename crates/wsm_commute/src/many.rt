// Many lists of operations.
ghost use Rattle.std.specs.{Prelude.{◌≡◌, ◌≤◌, ◌<◌, ◌+◌, ◌^◌, [], length, List, IsPermutation, IfOk, OnOk, IfErr, Ok, None, Some, option_map}, Result.result_err};
ghost use Rattle.wsm_lists.specs.Rows.{AllRows};
ghost use Rattle.wsm_schema.specs.{Flat.cards_of, Sound.{nodes_of, twice}};
ghost use Rattle.wsm_ops.specs.{Apply.{applied, IsOpFault}, declared.operations.Op.Op};
ghost use Rattle.wsm_commute.specs.declared.refusals.ManyRefusal.TheVariants as refusal;
ghost use Rattle.wsm_commute.specs.{Merging.{in_order, first_refused, first_overlap, many_fault}, Refusals.IsManyRefusal, Sweep.first_pair};

use crate::ordered::read_lists;
use crate::refusals::ManyRefusal;
use crate::sweeps::first_pair;
use std::alloc::Global;
use wsm_foot::overlap;
use wsm_lists::Listing;
use wsm_ops::{ApplyRefusal, Ops, apply};
use wsm_schema::{NoMemory, Schema};

/// Lists of operations.
pub type OpsLists = Listing<Ops>;

/// The schema behind all lists of operations, in whatever order they are applied. The given schema stays as it is.
pub fn merge_many(alloc: Global, base: &Schema, lists: &OpsLists) -> Result<Schema, ManyRefusal>
    requires distinct { twice [] (nodes_of (cards_of base.now)) ≡ None }
    requires count { length lists.now ≤ 64 }
    requires lengths { AllRows (λ ops. length ops < 2 ^ 32) lists.now }
    ensures every_order { IfOk result (λ new. (order : List (List Op)) → IsPermutation lists.now order → in_order base.now order ≡ Ok new) }
    ensures accepted { IfOk result (λ new. many_fault base.now lists.now ≡ None) }
    ensures refused { IfErr result (IsManyRefusal (many_fault base.now lists.now)) }
    ensures distinct { IfOk result (λ new. twice [] (nodes_of (cards_of new)) ≡ None) }
{
    read_lists(base);
    let lists = lists.as_slice();
    each_alone(alloc, base, lists)?;
    no_two_overlap(alloc, lists)?;
    match all_in_order(alloc, base, lists) {
        Ok(new) => Ok(new),
        Err(ApplyRefusal::Fault(_)) => unreachable!(),
        Err(ApplyRefusal::NoMemory) => Err(ManyRefusal::NoMemory),
    }
}

// Whether each list applies to the schema.
fn each_alone(alloc: Global, base: &Schema, lists: &[Ops]) -> Result<(), ManyRefusal>
    requires distinct { twice [] (nodes_of (cards_of base.now)) ≡ None }
    requires count { length lists.now ≤ 64 }
    requires lengths { AllRows (λ ops. length ops < 2 ^ 32) lists.now }
    ensures ok { OnOk result (first_refused 1 base.now lists.now ≡ None) }
    ensures fault { IfErr result (IsManyRefusal (first_refused 1 base.now lists.now)) }
{
    for place in 0..lists.len() {
        alone(alloc, base, place as u32 + 1, &lists[place])?;
    }
    Ok(())
}

// Whether the list with a number applies to the schema.
fn alone(alloc: Global, base: &Schema, number: u32, ops: &Ops) -> Result<(), ManyRefusal>
    requires distinct { twice [] (nodes_of (cards_of base.now)) ≡ None }
    requires length { length ops.now < 2 ^ 32 }
    ensures ok { OnOk result (result_err (applied base.now ops.now) ≡ None) }
    ensures fault { IfErr result (IsManyRefusal (option_map (refusal.List number) (result_err (applied base.now ops.now)))) }
{
    match apply(alloc, base, ops) {
        Ok(_) => Ok(()),
        Err(ApplyRefusal::Fault(fault)) => Err(ManyRefusal::List(number, fault)),
        Err(ApplyRefusal::NoMemory) => Err(ManyRefusal::NoMemory),
    }
}

// Whether no two lists overlap.
fn no_two_overlap(alloc: Global, lists: &[Ops]) -> Result<(), ManyRefusal>
    requires { length lists.now ≤ 64 }
    ensures ok { OnOk result (first_overlap 1 lists.now ≡ None) }
    ensures fault { IfErr result (IsManyRefusal (first_overlap 1 lists.now)) }
{
    match first_pair(alloc, lists)? {
        None => Ok(()),
        Some((one, other)) => Err(overlap_of(alloc, lists, one, other)?),
    }
}

// The refusal for the lists at two places, which are the first that overlap.
fn overlap_of(
    alloc: Global,
    lists: &[Ops],
    one: usize,
    other: usize,
) -> Result<ManyRefusal, NoMemory>
    requires count { length lists.now ≤ 64 }
    requires found { first_pair 0 lists.now ≡ Some (one, other) }
    ensures { IfOk result (λ refusal. first_overlap 1 lists.now ≡ Some refusal) }
{
    let name = overlap(alloc, &lists[one], &lists[other])?;
    match name {
        Some(name) => Ok(ManyRefusal::Overlap(one as u32 + 1, other as u32 + 1, name)),
        None => unreachable!(),
    }
}

// The schema behind all lists, each applied to what the lists before it made.
fn all_in_order(alloc: Global, base: &Schema, lists: &[Ops]) -> Result<Schema, ApplyRefusal>
    requires distinct { twice [] (nodes_of (cards_of base.now)) ≡ None }
    requires lengths { AllRows (λ ops. length ops < 2 ^ 32) lists.now }
    ensures ok { IfOk result (λ new. in_order base.now lists.now ≡ Ok new) }
    ensures distinct { IfOk result (λ new. twice [] (nodes_of (cards_of new)) ≡ None) }
    ensures fault { IfErr result (IsOpFault (in_order base.now lists.now)) }
{
    let mut new = base.copy(alloc)?;
    for ops in lists {
        new = apply(alloc, &new, ops)?;
    }
    Ok(new)
}
