// The clauses of a sound schema in their order, but the last one.
ghost use Rattle.std.specs.Prelude.{◌≡◌, [], None, option_map, IfOk};
ghost use Rattle.wsm_schema.specs.{Flat.flat_of, Sound.{twice, nodes_of}};
ghost use Rattle.wsm_schema.specs.declared.faults.BlockFault.TheVariants.{Twice};
ghost use Rattle.wsm_block.specs.Clauses.{tree_fault, sync_fault, shape_fault};

use crate::branches::{BranchRule, branch_fault};
use crate::limits::over_limit;
use crate::repeats::node_twice;
use crate::syncs::{end_fault, loop_fault, place_fault};
use std::alloc::Global;
use wsm_schema::{BlockFault, Enclosures, Flat, NoMemory, Schema};

// The first fault of the tree and of the sync edges, cycles aside.
pub fn shape_fault(
    alloc: Global,
    schema: &Schema,
    flat: &Flat,
) -> Result<Option<BlockFault>, NoMemory>
    requires { flat.now ≡ flat_of schema.now }
    ensures { IfOk result (λ fault. fault ≡ shape_fault schema.now) }
{
    let fault = tree_fault(alloc, schema, flat)?;
    if fault.is_some() || schema.syncs.is_empty() {
        return Ok(fault);
    }
    sync_fault(alloc, schema, flat)
}

// The first fault of the tree.
fn tree_fault(alloc: Global, schema: &Schema, flat: &Flat) -> Result<Option<BlockFault>, NoMemory>
    requires { flat.now ≡ flat_of schema.now }
    ensures { IfOk result (λ fault. fault ≡ tree_fault schema.now) }
{
    let fault = over_limit(schema).or_else(|| node_fault(flat));
    if fault.is_some() {
        return Ok(fault);
    }
    let fault = branch_fault(alloc, BranchRule::Several, &schema.body)?;
    if fault.is_some() {
        return Ok(fault);
    }
    branch_fault(alloc, BranchRule::Distinct, &schema.body)
}

fn node_fault(flat: &Flat) -> Option<BlockFault>
    ensures { result ≡ option_map Twice (twice [] (nodes_of flat.now.cards)) }
{
    match node_twice(flat) {
        Some(node) => Some(BlockFault::Twice(node)),
        None => None,
    }
}

// The first fault of the sync edges, cycles aside.
fn sync_fault(alloc: Global, schema: &Schema, flat: &Flat) -> Result<Option<BlockFault>, NoMemory>
    requires flat { flat.now ≡ flat_of schema.now }
    requires distinct { twice [] (nodes_of flat.now.cards) ≡ None }
    ensures { IfOk result (λ fault. fault ≡ sync_fault flat.now.cards schema.now.body schema.now.syncs) }
{
    let syncs = schema.syncs.as_slice();
    let fault = end_fault(flat, syncs);
    if fault.is_some() {
        return Ok(fault);
    }
    let enclosures = Enclosures::of(alloc, schema, flat)?;
    let fault = place_fault(&enclosures, syncs);
    if fault.is_some() {
        return Ok(fault);
    }
    Ok(loop_fault(&enclosures, syncs))
}
