// The marks before any entry.
ghost use Rattle.std.specs.Prelude.{◌≡◌, [], IfOk, OnOk};
ghost use Rattle.wsm_settle.specs.{Opening.{is_opening, opens, waits_for_none}, Timing.MarksRight};
ghost use Rattle.wsm_walk.specs.RankPlaces.{Handed};

use crate::pending::hand_to;
use crate::places::Pending;
use crate::timing::{NoMarks, taken_in};
use crate::walks::walk;
use std::alloc::Global;
use wsm_lists::{GrowingTable, NoMemory};
use wsm_rules::Marks;
use wsm_schema::{Card, Flat, NodeKind, Rank};

/// The marks before any entry, found by a walk from the nodes that wait for no edge.
pub fn opening_marks(alloc: Global, flat: &Flat, rank: &Rank) -> Result<Marks, NoMemory>
    ensures { IfOk result (λ marks. MarksRight flat.now rank.now [] marks.rows) }
{
    let mut changes = GrowingTable::new(alloc);
    let mut pending = opening_places(alloc, flat, rank)?;
    walk(alloc, flat, rank, &mut NoMarks, &mut changes, &mut pending)?;
    taken_in(alloc, changes.into_table(alloc)?)
}

// The places of the nodes that wait for no edge.
fn opening_places(alloc: Global, flat: &Flat, rank: &Rank) -> Result<Pending, NoMemory>
    ensures { IfOk result (λ pending. Handed rank.now (is_opening flat.now.cards) 0 [] pending.keys) }
{
    let mut pending = Pending::new(alloc);
    hand_to_openings(rank, flat.cards(), &mut pending)?;
    Ok(pending)
}

// Those of the cards' nodes that wait for no edge become pending.
fn hand_to_openings(rank: &Rank, cards: &[Card], pending: &mut Pending) -> Result<(), NoMemory>
    ensures handed { OnOk result (Handed rank.now (is_opening cards.now) 0 pending.old.keys pending.new.keys) }
{
    for card in cards {
        hand_to_opening(rank, card, pending)?;
    }
    Ok(())
}

// The card's node becomes pending, where it waits for no edge.
fn hand_to_opening(rank: &Rank, card: &Card, pending: &mut Pending) -> Result<(), NoMemory>
    ensures handed { OnOk result (Handed rank.now (λ k. opens k card.now) 0 pending.old.keys pending.new.keys) }
{
    if waits_for_none(card) {
        hand_to(rank, &[card.node], None, pending)
    } else {
        Ok(())
    }
}

fn waits_for_none(card: &Card) -> bool
    ensures { result ≡ waits_for_none card.now.kind card.now.ins }
{
    card.kind == NodeKind::Start || card.ins.is_empty()
}
