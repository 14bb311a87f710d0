// Writes of one element side by side.
ghost use Rattle.std.specs.Prelude.{◌≡◌, None, find, IfOk};
ghost use Rattle.wsm_schema.specs.{Flat.{flat_of, cards_of}, Sound.{block_fault, first_some, synced, parallel_write, parallel_writes}, Trail.is_one_of};
ghost use Rattle.wsm_data.specs.Sets.{InOrder, WritesInOrder};

use crate::merges::shared_element;
use std::alloc::Global;
use wsm_schema::{Card, DataFault, Enclosures, Flat, NoMemory, Schema};

/// The first two nodes in document order that write one element in different branches of an AND block with no sync edge
/// between them, and the least such element.
pub fn parallel_writes(
    alloc: Global,
    schema: &Schema,
    flat: &Flat,
) -> Result<Option<DataFault>, NoMemory>
    requires flat { flat.now ≡ flat_of schema.now }
    requires blocks { block_fault schema.now ≡ None }
    ensures { IfOk result (λ found. found ≡ parallel_writes schema.now (cards_of schema.now)) }
{
    if schema.writes.is_empty() {
        return Ok(None);
    }
    let _ = schema.writes.as_slice();
    let enclosures = Enclosures::of(alloc, schema, flat)?;
    Ok(first_parallel(schema, &enclosures, flat.cards()))
}

// The first two of these cards that write side by side.
fn first_parallel(schema: &Schema, enclosures: &Enclosures<'_>, cards: &[Card]) -> Option<DataFault>
    requires enclosed { enclosures.now ≡ schema.now }
    requires order { WritesInOrder cards.now }
    ensures { result ≡ parallel_writes schema.now cards.now }
{
    for place in 0..cards.len() {
        let found = parallel_behind(schema, enclosures, &cards[place], &cards[place + 1..]);
        if found.is_some() {
            return found;
        }
    }
    None
}

// The first of the other cards whose node writes beside that of `card`.
fn parallel_behind(
    schema: &Schema,
    enclosures: &Enclosures<'_>,
    card: &Card,
    others: &[Card],
) -> Option<DataFault>
    requires enclosed { enclosures.now ≡ schema.now }
    requires own { InOrder card.now.writes }
    requires order { WritesInOrder others.now }
    ensures { result ≡ first_some (parallel_write schema.now card.now) others.now }
{
    if card.writes.is_empty() {
        return None;
    }
    for i in 0..others.len() {
        let found = parallel_write(schema, enclosures, card, &others[i]);
        if found.is_some() {
            return found;
        }
    }
    None
}

// Whether two nodes write one element side by side. Most share none, so that is asked first.
fn parallel_write(
    schema: &Schema,
    enclosures: &Enclosures<'_>,
    a: &Card,
    b: &Card,
) -> Option<DataFault>
    requires enclosed { enclosures.now ≡ schema.now }
    requires first { InOrder a.now.writes }
    requires second { InOrder b.now.writes }
    ensures { result ≡ parallel_write schema.now a.now b.now }
{
    match shared_element(a.writes.as_slice(), b.writes.as_slice()) {
        None => None,
        Some(element) => {
            if !enclosures.are_apart(a.node, b.node) || is_synced(schema, a.node, b.node) {
                return None;
            }
            Some(DataFault::ParallelWrite(a.node, b.node, element))
        }
    }
}

// Whether a sync edge joins the nodes, either way.
fn is_synced(schema: &Schema, a: u32, b: u32) -> bool
    ensures { result ≡ synced schema.now a b }
{
    schema.syncs.has((a, b)) || schema.syncs.has((b, a))
}
