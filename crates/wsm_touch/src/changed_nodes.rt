// The nodes that differ between two schemas.
ghost use Rattle.std.specs.{Prelude.{◌≡◌, ℕ, false, not, is_some, filter, IfOk, OnOk, if◌then◌else◌}, Option.option_copied};
ghost use Rattle.wsm_lists.specs.Rows.{AllRows, Ascends, put_row};
ghost use Rattle.wsm_schema.specs.{Flat.card_at, Touched.Touched, Trail.is_one_of};
ghost use Rattle.wsm_touch.specs.TouchedNodes.{differs, is_touched, nodes_in, number, put_all, same_kinds, touched_nodes};
ghost use Rattle.wsm_walk.specs.Untouched.{Untouched};

use crate::same_cards::same_card;
use std::alloc::Global;
use wsm_lists::{GrowingTable, Keys};
use wsm_schema::{Card, Flat, NoMemory, Nodes};

// Numbers in ascending order.
struct ByNumber;

impl Keys for ByNumber {
    type Row = u32;

    ghost key_of = { number };

    fn key(row: &u32) -> (u32, u32) {
        (*row, 0)
    }
}

/// The nodes in one of the schemas alone, those whose cards differ, and those that write an element whose kind differs, in
/// ascending order.
pub fn touched(alloc: Global, old: &Flat, new: &Flat) -> Result<Nodes, NoMemory>
    ensures nodes { IfOk result (λ nodes. nodes ≡ touched_nodes old.now new.now) }
    ensures ascends { IfOk result (Ascends number) }
    ensures each { IfOk result (AllRows (Touched old.now new.now)) }

    // Each other node has one card in both, and writes elements of the same kinds.
    ensures others { IfOk result (λ nodes. (n : ℕ) → is_one_of n nodes ≡ false → Untouched old.now new.now n) }
{
    let mut nodes = GrowingTable::<ByNumber>::new(alloc);
    put_touched(&mut nodes, old, new)?;
    put_absent(&mut nodes, old, new.cards())?;
    let nodes = nodes.into_table(alloc)?;
    let _ = nodes.as_slice();
    Ok(Nodes::from_vec(nodes.into_vec()))
}

// The nodes of the old schema that are touched.
fn put_touched(nodes: &mut GrowingTable<ByNumber>, old: &Flat, new: &Flat) -> Result<(), NoMemory>
    ensures { OnOk result (nodes.new ≡ put_all (filter (is_touched old.now new.now) (nodes_in old.now.cards)) nodes.old) }
{
    let more = new.cards().len().wrapping_sub(old.cards().len());
    for (place, card) in old.cards().iter().enumerate() {
        let chosen = is_touched(old, new, card.node, place, place.wrapping_add(more));
        put_if(nodes, card.node, chosen)?;
    }
    Ok(())
}

// The nodes of the cards that the schema does not have.
fn put_absent(
    nodes: &mut GrowingTable<ByNumber>,
    schema: &Flat,
    cards: &[Card],
) -> Result<(), NoMemory>
    ensures { OnOk result (nodes.new ≡ put_all (filter (λ n. not (is_some (card_at n schema.now.cards))) (nodes_in cards.now)) nodes.old) }
{
    let fewer = schema.cards().len().wrapping_sub(cards.len());
    for (place, card) in cards.iter().enumerate() {
        let there = schema.card_near(card.node, place, place.wrapping_add(fewer));
        put_if(nodes, card.node, there.is_none())?;
    }
    Ok(())
}

// One more node, where it is chosen.
fn put_if(nodes: &mut GrowingTable<ByNumber>, node: u32, chosen: bool) -> Result<(), NoMemory>
    ensures { OnOk result (nodes.new ≡ (if chosen then put_row number node nodes.old else nodes.old)) }
{
    if chosen {
        nodes.set(node)?;
    }
    Ok(())
}

// Whether a node is touched. Its card is looked for at a place of the old schema, and at that and another of the new one.
fn is_touched(old: &Flat, new: &Flat, node: u32, place: usize, moved: usize) -> bool
    ensures { result ≡ is_touched old.now new.now node }
{
    match (
        old.card_near(node, place, place),
        new.card_near(node, place, moved),
    ) {
        (None, None) => false,
        (Some(one), Some(other)) => !same_card(one, other)
            || !same_kinds(old, new, one.writes.as_slice()),
        _ => true,
    }
}

// Whether the elements have the same kinds in both schemas.
fn same_kinds(old: &Flat, new: &Flat, elements: &[u32]) -> bool
    ensures { result ≡ same_kinds old.now new.now elements.now }
{
    elements
        .iter()
        .all(|element| old.kind(*element) == new.kind(*element))
}
