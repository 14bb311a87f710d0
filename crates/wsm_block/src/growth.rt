// An order with all sync edges, or the first one that closes a cycle.
ghost use Rattle.std.specs.Prelude.{◌≡◌, ◌∷◌, [], ◌++◌, None, IfOk, IfErr, OnOk, length, map};
ghost use Rattle.wsm_schema.specs.Sound.{nodes_of, control_edges, sync_cycle};
ghost use Rattle.wsm_block.specs.{Clauses.cycle_in, Order.{EndAmong, IsOrder, SameNodes, onto_seen}, Refusals.IsBlockFault};

use crate::block_refusals::BlockRefusal;
use crate::fronts::longest_front;
use crate::orders::with_edge;
use std::alloc::Global;
use wsm_schema::{BlockFault, Card, Flat, NoMemory, Rank};

// Without sync edges document order is an order; else one for as many of them as can be found is the start.
pub fn grown_rank(alloc: Global, flat: &Flat, syncs: &[(u32, u32)]) -> Result<Rank, BlockRefusal>
    requires order { IsOrder (control_edges flat.now.cards) (nodes_of flat.now.cards) }
    requires ends { EndAmong (nodes_of flat.now.cards) syncs.now }
    ensures none { IfOk result (λ rank. cycle_in flat.now.cards syncs.now ≡ None) }
    ensures order { IfOk result (λ rank. IsOrder (onto_seen syncs.now (control_edges flat.now.cards)) rank) }
    ensures same { IfOk result (λ rank. SameNodes rank (nodes_of flat.now.cards)) }
    ensures fault { IfErr result (λ refusal. IsBlockFault (cycle_in flat.now.cards syncs.now) refusal) }
{
    if syncs.is_empty() {
        return Ok(flat.document_rank(alloc)?);
    }
    let nodes = nodes_of(alloc, flat.cards())?;
    let control = control_edges(alloc, flat.cards())?;
    let front = longest_front(alloc, flat, nodes, &control, syncs)?;
    let (begun, rest) = syncs.split_at(front.count);
    let edges = onto(alloc, begun, &control)?;
    grown_from(alloc, edges, front.nodes, rest)
}

// The order with more sync edges, added one after another, or the first one that closes a cycle.
fn grown_from(
    alloc: Global,
    mut edges: Vec<(u32, u32)>,
    mut nodes: Vec<u32>,
    syncs: &[(u32, u32)],
) -> Result<Rank, BlockRefusal>
    requires order { IsOrder edges.items nodes.items }
    requires ends { EndAmong nodes.items syncs.now }
    ensures none { IfOk result (λ rank. sync_cycle (length nodes.items) edges.items syncs.now ≡ None) }
    ensures order { IfOk result (λ rank. IsOrder (onto_seen syncs.now edges.items) rank) }
    ensures same { IfOk result (λ rank. SameNodes rank nodes.items) }
    ensures fault { IfErr result (λ refusal. IsBlockFault (sync_cycle (length nodes.items) edges.items syncs.now) refusal) }
{
    for edge in syncs {
        match with_edge(alloc, &edges, edge.0, edge.1, &nodes)? {
            Some(new) => nodes = new,
            None => return Err(BlockRefusal::Fault(BlockFault::SyncCycle(edge.0, edge.1))),
        }
        put_first(&mut edges, *edge)?;
    }
    Ok(Rank::from_vec(alloc, nodes)?)
}

// The edge before the others.
fn put_first(edges: &mut Vec<(u32, u32)>, edge: (u32, u32)) -> Result<(), NoMemory>
    ensures { OnOk result (edges.new.items ≡ edge ∷ edges.old.items) }
{
    edges.insert(0, edge)?;
    Ok(())
}

// The edges with those of a front put before them one by one.
fn onto(
    alloc: Global,
    front: &[(u32, u32)],
    edges: &[(u32, u32)],
) -> Result<Vec<(u32, u32)>, NoMemory>
    ensures { IfOk result (λ all. all.items ≡ onto_seen front.now edges.now) }
{
    let mut all = Vec::with_capacity(alloc, front.len().saturating_add(edges.len()))?;
    for i in 0..front.len() {
        all.push(front[front.len() - 1 - i])?;
    }
    all.extend_from_slice(edges)?;
    Ok(all)
}

// The nodes in document order.
fn nodes_of(alloc: Global, cards: &[Card]) -> Result<Vec<u32>, NoMemory>
    ensures { IfOk result (λ nodes. nodes.items ≡ nodes_of cards.now) }
{
    let mut nodes = Vec::with_capacity(alloc, cards.len())?;
    for card in cards {
        nodes.push(card.node)?;
    }
    Ok(nodes)
}

// The control edges, each with its source and target.
fn control_edges(alloc: Global, cards: &[Card]) -> Result<Vec<(u32, u32)>, NoMemory>
    ensures { IfOk result (λ edges. edges.items ≡ control_edges cards.now) }
{
    let mut edges = Vec::with_capacity(alloc, cards.len())?;
    for card in cards {
        put_edges(&mut edges, card)?;
    }
    Ok(edges)
}

// The control edges into a node behind others.
fn put_edges(edges: &mut Vec<(u32, u32)>, card: &Card) -> Result<(), NoMemory>
    ensures { OnOk result (edges.new.items ≡ edges.old.items ++ map (λ e. (e.node, card.now.node)) card.now.ins) }
{
    for end in card.ins.as_slice() {
        edges.push((end.node, card.node))?;
    }
    Ok(())
}
