// Mandatory reads that may find no value.
ghost use Rattle.std.specs.{Prelude.{◌≡◌, ◌||◌, ◌==◌, None, IfOk, OnOk}, List.{list_all, list_any}};
ghost use Rattle.wsm_lists.specs.Rows.{AllRows};
ghost use Rattle.wsm_marks.specs.Loops.{HasEdge};
ghost use Rattle.wsm_schema.specs.{Flat.{flat_of, cards_of}, Rank.IsRank, Sound.{block_fault, first_some, missing_at, sure_of, writes_of}, Trail.is_one_of};
ghost use Rattle.wsm_data.specs.{Tables.{IsPut, Tells, TellsAt}, Sets.Holds};

use crate::sets::ElementSet;
use crate::tables::{Behind, BehindTable, shared, sure_at};
use std::alloc::Global;
use std::sync::Arc;
use wsm_schema::{Card, DataFault, Enclosures, Flat, NoMemory, Rank, Schema};

// The first mandatory read of a card whose element is not one of those that are sure there.
fn missing_at(sure: &ElementSet, card: &Card) -> Option<DataFault>
    ensures { result ≡ missing_at (λ n d. is_one_of d sure.now) card.now }
{
    for read in card.reads.as_slice() {
        if read.1 && !sure.contains(read.0) {
            return Some(DataFault::Missing(card.node, read.0));
        }
    }
    None
}

/// The first mandatory read that may find no value, by one pass over the nodes in the order of a rank, where there are reads.
pub fn missing_read(
    alloc: Global,
    schema: &Schema,
    flat: &Flat,
    rank: &Rank,
) -> Result<Option<DataFault>, NoMemory>
    requires flat { flat.now ≡ flat_of schema.now }
    requires blocks { block_fault schema.now ≡ None }
    requires rank { IsRank (cards_of schema.now) rank.now }
    ensures { IfOk result (λ found. found ≡ first_some (missing_at (sure_of schema.now)) (cards_of schema.now)) }
{
    if schema.reads.is_empty() {
        return Ok(None);
    }
    let enclosures = Enclosures::of(alloc, schema, flat)?;
    let table = behind_each(alloc, schema, flat, rank, &enclosures)?;
    first_missing(alloc, &table, &enclosures, flat.cards())
}

// What is sure behind each node.
fn behind_each(
    alloc: Global,
    schema: &Schema,
    flat: &Flat,
    rank: &Rank,
    enclosures: &Enclosures<'_>,
) -> Result<BehindTable, NoMemory>
    requires flat { flat.now ≡ flat_of schema.now }
    requires blocks { block_fault schema.now ≡ None }
    requires rank { IsRank (cards_of schema.now) rank.now }
    requires enclosed { enclosures.now ≡ schema.now }
    ensures { IfOk result (λ table. Tells schema.now table rank.now) }
{
    let mut table = BehindTable::new(alloc);
    for node in rank.nodes() {
        if let Some(card) = flat.card(*node) {
            let sure = sure_at(alloc, &table, enclosures, card)?;
            put_behind(alloc, &mut table, schema, *node, sure)?;
        }
    }
    Ok(table)
}

// The first mandatory read of the cards that may find no value, by what is sure behind all nodes.
fn first_missing(
    alloc: Global,
    table: &BehindTable,
    enclosures: &Enclosures<'_>,
    cards: &[Card],
) -> Result<Option<DataFault>, NoMemory>
    requires { AllRows (λ c. HasEdge c.kind c.ins × TellsAt enclosures.now table.now c) cards.now }
    ensures { IfOk result (λ found. found ≡ first_some (missing_at (sure_of enclosures.now)) cards.now) }
{
    for card in cards {
        let found = missing_read_at(alloc, table, enclosures, card)?;
        if found.is_some() {
            return Ok(found);
        }
    }
    Ok(None)
}

// The same of one card.
fn missing_read_at(
    alloc: Global,
    table: &BehindTable,
    enclosures: &Enclosures<'_>,
    card: &Card,
) -> Result<Option<DataFault>, NoMemory>
    requires edged { HasEdge card.now.kind card.now.ins }
    requires told { TellsAt enclosures.now table.now card.now }
    ensures { IfOk result (λ found. found ≡ missing_at (sure_of enclosures.now) card.now) }
{
    if card.reads.is_empty() {
        return Ok(None);
    }
    let sure = sure_at(alloc, table, enclosures, card)?;
    Ok(missing_at(&sure, card))
}

// One more row: behind a node there is what is sure there, and what it writes.
fn put_behind(
    alloc: Global,
    table: &mut BehindTable,
    schema: &Schema,
    node: u32,
    sure: Arc<ElementSet>,
) -> Result<(), NoMemory>
    ensures { OnOk result (IsPut (λ d. is_one_of d sure.value || writes_of schema.now node d) node table.old table.new) }
{
    let elements = with_written(alloc, sure, schema.writes.rows_of(node))?;
    table.set(Behind { node, elements })
}

// The set with the elements that are written too; the same one, where it has them all.
fn with_written(
    alloc: Global,
    set: Arc<ElementSet>,
    writes: &[(u32, u32)],
) -> Result<Arc<ElementSet>, NoMemory>
    ensures { IfOk result (λ new. Holds new.value (λ d. is_one_of d set.value || list_any (λ w. w.1 == d) writes.now)) }
{
    if has_written(&set, writes) {
        return Ok(set);
    }
    let mut more = set.copy(alloc)?;
    add_written(&mut more, writes)?;
    shared(alloc, more)
}

// Whether all elements that are written are in the set.
fn has_written(set: &ElementSet, writes: &[(u32, u32)]) -> bool
    ensures { result ≡ list_all (λ w. is_one_of w.1 set.now) writes.now }
{
    for write in writes {
        if !set.contains(write.1) {
            return false;
        }
    }
    true
}

// The set with the elements that are written too.
fn add_written(set: &mut ElementSet, writes: &[(u32, u32)]) -> Result<(), NoMemory>
    ensures { OnOk result (Holds set.new (λ d. is_one_of d set.old || list_any (λ w. w.1 == d) writes.now)) }
{
    for write in writes {
        set.add(write.1)?;
    }
    Ok(())
}
