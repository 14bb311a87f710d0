// Nodes in an order in which each stands behind its sources. Nothing is promised here, since what is made is tested.
use std::alloc::Global;
use wsm_schema::{Flat, Groups, NoMemory};

// The nodes, those without sources first, and then whatever waits for no other node any more. Those that wait for one
// another are left out.
pub fn sorted(
    alloc: Global,
    flat: &Flat,
    control: &[(u32, u32)],
    syncs: &[(u32, u32)],
) -> Result<Vec<u32>, NoMemory> {
    let mut edges = Vec::with_capacity(alloc, control.len().saturating_add(syncs.len()))?;
    edges.extend_from_slice(control)?;
    edges.extend_from_slice(syncs)?;
    let mut waiting = source_counts(alloc, flat, &edges)?;
    let mut found = without_sources(alloc, flat, &waiting)?;
    let targets = Groups::of(edges)?;
    for i in 0..flat.cards().len() {
        if i < found.len() {
            let node = found[i];
            release(flat, &mut waiting, &mut found, targets.rows_with(node))?;
        }
    }
    Ok(found)
}

// How many edges lead to each node, in document order.
fn source_counts(alloc: Global, flat: &Flat, edges: &[(u32, u32)]) -> Result<Vec<usize>, NoMemory> {
    let mut counts = vec![in alloc; 0usize; flat.cards().len()]?;
    for edge in edges {
        if let Some(place) = flat.place(edge.1)
            && place < counts.len()
        {
            counts[place] = counts[place].saturating_add(1);
        }
    }
    Ok(counts)
}

// The nodes to which none leads.
fn without_sources(alloc: Global, flat: &Flat, counts: &[usize]) -> Result<Vec<u32>, NoMemory> {
    flat.cards()
        .iter()
        .zip(counts)
        .filter(|(_, count)| **count == 0)
        .map(|(card, _)| card.node)
        .collect(alloc)
}

// The targets of these edges wait for one node less; those that wait for none are appended.
fn release(
    flat: &Flat,
    waiting: &mut [usize],
    found: &mut Vec<u32>,
    edges: &[(u32, u32)],
) -> Result<(), NoMemory> {
    for edge in edges {
        if let Some(place) = flat.place(edge.1)
            && place < waiting.len()
        {
            waiting[place] = waiting[place].saturating_sub(1);
            if waiting[place] == 0 {
                found.push(edge.1)?;
            }
        }
    }
    Ok(())
}
