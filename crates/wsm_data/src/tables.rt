// Tables of the elements that have a value behind nodes, and the set of a node from those of its sources.
ghost use Rattle.std.specs.{Prelude.{◌≡◌, ◌<◌, ◌||◌, map, length, IfOk, OnOk}, List.{list_all, list_any}};
ghost use Rattle.wsm_schema.specs.Trail.{is_one_of};
ghost use Rattle.wsm_marks.specs.Loops.{HasEdge};
ghost use Rattle.wsm_data.specs.{Sets.{Holds, InOrder}, Tables.{by_node, set_behind, told_at, told_by_syncs}};

use crate::sets::ElementSet;
use std::alloc::Global;
use std::sync::Arc;
use wsm_lists::{Keys, NoMemory, Table};
use wsm_schema::{Card, Enclosures, End, NodeKind};

/// A node, and the elements that have a value behind it, whatever came before. Nodes share one set where it is the same.
#[derive(Drop)]
pub struct Behind {
    pub node: u32,
    pub elements: Arc<ElementSet>,
}

/// Rows by their node.
pub struct ByBehind;

impl Keys for ByBehind {
    type Row = Behind;

    ghost key_of = { by_node };

    fn key(row: &Behind) -> (u32, u32) {
        (row.node, 0)
    }
}

/// Nodes with what is sure behind them.
pub type BehindTable = Table<ByBehind>;

/// The elements that are sure at a card, where the table tells them of its sources: at an AND join those behind some
/// source, elsewhere those behind all; and those behind the sources of sync edges that are bound to the node.
pub fn sure_at(
    alloc: Global,
    table: &BehindTable,
    enclosures: &Enclosures<'_>,
    card: &Card,
) -> Result<Arc<ElementSet>, NoMemory>
    requires { HasEdge card.now.kind card.now.ins }
    ensures { IfOk result (λ set. Holds set.value (told_at enclosures.now table.now card.now)) }
{
    match card.kind {
        NodeKind::Start => shared(alloc, ElementSet::new(alloc)),
        NodeKind::AndJoin => behind_some(alloc, table, card.ins.as_slice()),
        NodeKind::XorJoin => behind_all(alloc, table, card.ins.as_slice()),
        NodeKind::Finish
        | NodeKind::Activity
        | NodeKind::AndSplit
        | NodeKind::XorSplit
        | NodeKind::LoopStart
        | NodeKind::LoopEnd => {
            let set = behind_all(alloc, table, card.ins.as_slice())?;
            with_bound(alloc, table, enclosures, card, set)
        }
    }
}

// The set with the elements behind the sources of sync edges that are bound to the node.
fn with_bound(
    alloc: Global,
    table: &BehindTable,
    enclosures: &Enclosures<'_>,
    card: &Card,
    set: Arc<ElementSet>,
) -> Result<Arc<ElementSet>, NoMemory>
    ensures { IfOk result (λ new. Holds new.value (λ d. is_one_of d set.value || told_by_syncs enclosures.now table.now card.now d)) }
{
    if card.syncs_in.is_empty() {
        return Ok(set);
    }
    let mut more = set.copy(alloc)?;
    add_bound(alloc, table, enclosures, card, &mut more)?;
    shared(alloc, more)
}

// The elements behind the sources of sync edges that are bound to the node, put into a set.
fn add_bound(
    alloc: Global,
    table: &BehindTable,
    enclosures: &Enclosures<'_>,
    card: &Card,
    set: &mut ElementSet,
) -> Result<(), NoMemory>
    ensures { OnOk result (Holds set.new (λ d. is_one_of d set.old || told_by_syncs enclosures.now table.now card.now d)) }
{
    for source in card.syncs_in.as_slice() {
        if enclosures.is_bound(*source, card.node) {
            set.add_all(alloc, set_behind(table, *source))?;
        }
    }
    Ok(())
}

/// The set, to be shared.
pub fn shared(alloc: Global, set: ElementSet) -> Result<Arc<ElementSet>, NoMemory>
    ensures { IfOk result (λ new. new.value ≡ set) }
{
    Ok(Arc::new(alloc, set)?)
}

// The elements behind a node.
fn set_behind(table: &BehindTable, node: u32) -> &[u32]
    ensures set { result.now ≡ set_behind table.now node }
    ensures order { InOrder result.now }
{
    match table.find((node, 0)) {
        None => &[],
        Some(row) => row.elements.as_slice(),
    }
}

// The same, shared with the table.
fn share_behind(alloc: Global, table: &BehindTable, node: u32) -> Result<Arc<ElementSet>, NoMemory>
    ensures { IfOk result (λ set. set.value ≡ set_behind table.now node) }
{
    match table.find((node, 0)) {
        None => shared(alloc, ElementSet::new(alloc)),
        Some(row) => Ok(Arc::try_clone(&row.elements)?),
    }
}

// The elements that are sure behind one of the sources.
fn behind_some(
    alloc: Global,
    table: &BehindTable,
    ends: &[End],
) -> Result<Arc<ElementSet>, NoMemory>
    requires { 0 < length ends.now }
    ensures { IfOk result (λ set. Holds set.value (λ d. list_any (λ b. b) (map (λ e. is_one_of d (set_behind table.now e.node)) ends.now))) }
{
    let first = share_behind(alloc, table, ends[0].node)?;
    let mut set = first.copy(alloc)?;
    for i in 1..ends.len() {
        set.add_all(alloc, set_behind(table, ends[i].node))?;
    }
    shared(alloc, set)
}

// The elements that are sure behind all sources.
fn behind_all(alloc: Global, table: &BehindTable, ends: &[End]) -> Result<Arc<ElementSet>, NoMemory>
    requires { 0 < length ends.now }
    ensures { IfOk result (λ set. Holds set.value (λ d. list_all (λ b. b) (map (λ e. is_one_of d (set_behind table.now e.node)) ends.now))) }
{
    let mut set = share_behind(alloc, table, ends[0].node)?;
    for i in 1..ends.len() {
        set = shared(alloc, set.common(alloc, set_behind(table, ends[i].node))?)?;
    }
    Ok(set)
}
