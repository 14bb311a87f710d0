// What the repeat of a loop does to marks.
ghost use Rattle.std.specs.Prelude.{◌≡◌, ◌≤◌, [], IfOk};
ghost use Rattle.wsm_settle.specs.{Events.{RepeatsFew, RepeatsRight}, Freed.freed_rows};
ghost use Rattle.wsm_walk.specs.Walk.{freed};

use crate::overlays::{Overlay, said};
use crate::pending::hand_to;
use crate::places::Pending;
use crate::walks::walk;
use std::alloc::Global;
use wsm_lists::{GrowingTable, NoMemory};
use wsm_rules::{Changes, Mark, MarkReads};
use wsm_schema::{Flat, Rank};

/// The changes after the repeat of the loop that ends with a node, at a position behind the trail.
pub fn after_again<M: MarkReads>(
    alloc: Global,
    flat: &Flat,
    rank: &Rank,
    marks: &mut M,
    node: u32,
    position: u32,
) -> Result<Changes, NoMemory>
    ensures changes { IfOk result (λ changes. RepeatsRight flat.now rank.now (M.kept marks.old) node position changes) }
    ensures same { M.kept marks.new ≡ M.kept marks.old }
    ensures rises { M.reads marks.old ≤ M.reads marks.new }
    ensures few { RepeatsFew flat.now rank.now node (M.reads marks.old) (M.reads marks.new) }
{
    let body = flat.loop_body(alloc, node)?;
    let nodes = body.as_slice();
    let mut changes = all_freed(alloc, nodes, node, position)?;
    let mut pending = Pending::expecting(alloc, nodes.len(), rank.nodes().len())?;
    hand_to(rank, nodes, None, &mut pending)?;
    walk(alloc, flat, rank, marks, &mut changes, &mut pending)?;
    changes.into_table(alloc)
}

// Nothing is left of these nodes but, of the loop's end, its repeat.
fn all_freed(alloc: Global, nodes: &[u32], end: u32, position: u32) -> Result<Overlay, NoMemory>
    ensures { IfOk result (λ changes. changes ≡ freed_rows end position nodes.now []) }
{
    let mut changes = GrowingTable::new(alloc);
    for node in nodes {
        changes.set((*node, said(freed(end, position, *node))))?;
    }
    Ok(changes)
}

// What is left of a node.
fn freed(end: u32, position: u32, node: u32) -> Mark
    ensures { result ≡ freed end position node }
{
    Mark {
        ready_at: None,
        skipped_at: None,
        started: None,
        ended: None,
        choice: None,
        again: if node == end { Some(position) } else { None },
    }
}
