// The check of blocks and sync edges, with a rank and with a cycle.
use crate::trees::side_by_side;
use std::alloc::Global;
use std::test::Fail;
use wsm_block::{BlockFault, BlockRefusal, check_block};
use wsm_schema::{Flat, NoMemory, Rank, Schema};

// The only rank where activity 4 waits for activity 5.
const RANK: &[u32] = &[0, 2, 5, 4, 3, 1];

// The answer for a schema.
fn checked(alloc: Global, schema: &Schema) -> Result<Rank, BlockRefusal> {
    let flat = Flat::of(alloc, schema)?;
    check_block(alloc, schema, &flat)
}

// Activities side by side, the first of which waits for the second.
fn waiting(alloc: Global) -> Result<Schema, NoMemory> {
    let mut schema = side_by_side(alloc)?;
    schema.put_sync(5, 4)?;
    Ok(schema)
}

fn rank_of_waiting(alloc: Global) -> Result<Rank, BlockRefusal> {
    checked(alloc, &waiting(alloc)?)
}

// Each waits for the other.
fn cyclic(alloc: Global) -> Result<Schema, NoMemory> {
    let mut schema = waiting(alloc)?;
    schema.put_sync(4, 5)?;
    Ok(schema)
}

fn rank_of_cyclic(alloc: Global) -> Result<Rank, BlockRefusal> {
    checked(alloc, &cyclic(alloc)?)
}

// The fault in an answer.
fn fault_in(answer: Result<Rank, BlockRefusal>) -> Option<BlockFault> {
    match answer {
        Err(BlockRefusal::Fault(fault)) => Some(fault),
        _ => None,
    }
}

// The proof of a test need not know what a rank is.
fn has_nodes(rank: &Rank, nodes: &[u32]) -> bool {
    *rank.nodes() == *nodes
}

#[test]
fn a_target_stands_behind_its_source(rt: HostRuntime) -> Result<(), Fail> {
    let rank = rank_of_waiting(rt.alloc()).ok().ok_or("a rank")?;
    assert!(rt; has_nodes(&rank, RANK));
    Ok(())
}

#[test]
fn the_second_of_two_edges_closes_a_cycle(rt: HostRuntime) -> Result<(), Fail> {
    assert_eq!(rt;
        fault_in(rank_of_cyclic(rt.alloc())),
        Some(BlockFault::SyncCycle(5, 4))
    );
    Ok(())
}
