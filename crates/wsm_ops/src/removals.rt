// Rows without a node.
ghost use Rattle.std.specs.Prelude.{◌≡◌, ◌||◌, ◌==◌, not, IfOk, filter};
ghost use Rattle.wsm_lists.specs.Rows.{Ascends};

use std::alloc::Global;
use wsm_schema::{Keys, NoMemory, Reads, Syncs, Table, WriteEdges};

/// The sync edges that the node does not end, at either side.
pub fn syncs_without(alloc: Global, syncs: &Syncs, node: u32) -> Result<Syncs, NoMemory>
    ensures { IfOk result (λ new. new ≡ filter (λ e. not (e.0 == node || e.1 == node)) syncs.now) }
{
    table_of(alloc, &other_edges(alloc, syncs.as_slice(), node)?)
}

/// The reads of other nodes.
pub fn reads_without(alloc: Global, reads: &Reads, node: u32) -> Result<Reads, NoMemory>
    ensures { IfOk result (λ new. new ≡ filter (λ r. not (r.0 == node)) reads.now) }
{
    table_of(alloc, &other_reads(alloc, reads.as_slice(), node)?)
}

/// The writes of other nodes.
pub fn writes_without(alloc: Global, writes: &WriteEdges, node: u32) -> Result<WriteEdges, NoMemory>
    ensures { IfOk result (λ new. new ≡ filter (λ w. not (w.0 == node)) writes.now) }
{
    table_of(alloc, &other_writes(alloc, writes.as_slice(), node)?)
}

fn other_edges(alloc: Global, edges: &[(u32, u32)], node: u32) -> Result<Vec<(u32, u32)>, NoMemory>
    ensures { IfOk result (λ new. new.items ≡ filter (λ e. not (e.0 == node || e.1 == node)) edges.now) }
{
    edges
        .iter()
        .filter(|e| !(e.0 == node || e.1 == node))
        .copied()
        .collect(alloc)
}

fn other_reads(
    alloc: Global,
    reads: &[(u32, u32, bool)],
    node: u32,
) -> Result<Vec<(u32, u32, bool)>, NoMemory>
    ensures { IfOk result (λ new. new.items ≡ filter (λ r. not (r.0 == node)) reads.now) }
{
    reads.iter().filter(|r| r.0 != node).copied().collect(alloc)
}

fn other_writes(
    alloc: Global,
    writes: &[(u32, u32)],
    node: u32,
) -> Result<Vec<(u32, u32)>, NoMemory>
    ensures { IfOk result (λ new. new.items ≡ filter (λ w. not (w.0 == node)) writes.now) }
{
    writes
        .iter()
        .filter(|w| w.0 != node)
        .copied()
        .collect(alloc)
}

// The table of rows that ascend.
fn table_of<K: Keys>(alloc: Global, rows: &[K::Row]) -> Result<Table<K>, NoMemory>
where
    K::Row: Copy,
    requires { Ascends K.key_of rows.now }
    ensures { IfOk result (λ table. table ≡ rows.now) }
{
    let mut table = Table::new(alloc);
    for row in rows {
        table.set(*row)?;
    }
    Ok(table)
}
