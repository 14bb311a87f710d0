// A walk over a change, in the order of the rank, which stops where no mark changes.
ghost use Rattle.std.specs.Prelude.{◌≡◌, ℕ, ◌<◌, ◌≤◌, ◌+◌, ◌∷◌, ◌||◌, [], length, OnOk};
ghost use Rattle.wsm_adapt.specs.{Border.{FewAmong, SpendsAmong}, Walking.{GoesOn, IsVisit, KeepsTold, ReadsFew, SpendsOn, StaysInside, VisitAmong, is_named, loop_end}};
ghost use Rattle.wsm_lists.specs.{ByNumber.item_at, Keys.first, Rows.put_row};
ghost use Rattle.wsm_walk.specs.{Listed.said, RankPlaces.{AllBehind, AllWithin, Handed}, Targets.leads_to};

use crate::border::{read_card_sources, read_unknown};
use crate::known::Known;
use std::alloc::Global;
use wsm_lists::NoMemory;
use wsm_rules::{Mark, MarkReads};
use wsm_schema::{Card, Flat, NodeKind, Nodes, Rank};
use wsm_settle::{NoMarks, Overlay, Pending, hand_on, hand_to, mark_at, revise, said};

/// What a walk finds: the marks that are known, those of them that changed or are asked for, and the nodes that were visited.
#[derive(Drop)]
pub struct Found {
    pub known: Known,
    pub changes: Overlay,
    pub nodes: Nodes,
}

/// All that is pending is visited, in the order of the rank.
pub fn walk<M: MarkReads>(
    alloc: Global,
    flat: &Flat,
    rank: &Rank,
    marks: &mut M,
    found: &mut Found,
    pending: &mut Pending,
) -> Result<(), NoMemory>
    requires within { AllWithin (length rank.now) pending.old.keys }
    ensures walked { OnOk result (GoesOn flat.now.cards rank.now (M.kept marks.old) pending.old.keys found.old [] found.new) }
    ensures inside { OnOk result (StaysInside flat.now.cards rank.now pending.old.keys found.old [] found.new) }
    ensures told { OnOk result (KeepsTold found.old found.new) }
    ensures same { M.kept marks.new ≡ M.kept marks.old }
    ensures rises { M.reads marks.old ≤ M.reads marks.new }
    ensures few { ReadsFew flat.now.cards rank.now (M.reads marks.old) pending.old.keys found.old (M.reads marks.new) }
{
    while let Some(place) = pending.pop_first() {
        visit(alloc, flat, rank, marks, place, found, pending)?;
    }
    Ok(())
}

// The node at a place gets the time of its equation; where that is another one, the nodes behind it become pending.
fn visit<M: MarkReads>(
    alloc: Global,
    flat: &Flat,
    rank: &Rank,
    marks: &mut M,
    place: usize,
    found: &mut Found,
    pending: &mut Pending,
) -> Result<(), NoMemory>
    requires place { place < length rank.now }
    requires behind { AllBehind place pending.old.keys }
    requires within { AllWithin (length rank.now) pending.old.keys }
    ensures walked { OnOk result (GoesOn flat.now.cards rank.now (M.kept marks.old) (place ∷ pending.old.keys) found.old pending.new.keys found.new) }
    ensures inside { OnOk result (StaysInside flat.now.cards rank.now (place ∷ pending.old.keys) found.old pending.new.keys found.new) }
    ensures told { OnOk result (KeepsTold found.old found.new) }
    ensures spent { OnOk result (SpendsOn flat.now.cards rank.now (M.reads marks.old) (place ∷ pending.old.keys) found.old (M.reads marks.new) found.new) }
    ensures behind { OnOk result (AllBehind place pending.new.keys) }
    ensures within { OnOk result (AllWithin (length rank.now) pending.new.keys) }
    ensures same { M.kept marks.new ≡ M.kept marks.old }
    ensures rises { M.reads marks.old ≤ M.reads marks.new }
    ensures few { ReadsFew flat.now.cards rank.now (M.reads marks.old) (place ∷ pending.old.keys) found.old (M.reads marks.new) }
{
    match flat.card(rank.nodes()[place]) {
        None => Ok(()),
        Some(card) => {
            read_visited(marks, card, found)?;
            let mut mark = mark_at(&mut NoMarks, &found.known, card.node);
            if !revise(alloc, flat, &mut NoMarks, &found.known, card, &mut mark)? {
                return Ok(());
            }
            note(card.node, mark, found)?;
            hand_all(rank, card, place, pending)
        }
    }
}

// The card's node is visited: its mark is known then, and those of the nodes from which edges lead to it.
fn read_visited<M: MarkReads>(marks: &mut M, card: &Card, found: &mut Found) -> Result<(), NoMemory>
    ensures visited { OnOk result (IsVisit (M.kept marks.old) card.now found.old found.new) }
    ensures same { M.kept marks.new ≡ M.kept marks.old }
    ensures rises { M.reads marks.old ≤ M.reads marks.new }
    ensures spent { OnOk result (SpendsAmong (VisitAmong card.now) (M.reads marks.old) found.old.known (M.reads marks.new) found.new.known) }
    ensures few { FewAmong (VisitAmong card.now) (M.reads marks.old) found.old.known (M.reads marks.new) }
{
    found.nodes.push(card.node)?;
    read_unknown(marks, card.node, &mut found.known)?;
    read_card_sources(marks, card, &mut found.known)
}

// The node has another mark.
fn note(node: u32, mark: Mark, found: &mut Found) -> Result<(), NoMemory>
    ensures known { OnOk result ((n : ℕ) → item_at n found.new.known ≡ item_at n (put_row first (node, said mark) found.old.known)) }
    ensures changes { OnOk result (found.new.changes ≡ put_row first (node, said mark) found.old.changes) }
    ensures nodes { OnOk result (found.new.nodes ≡ found.old.nodes) }
{
    let said = said(mark);
    found.known.set(node, said)?;
    found.changes.set((node, said))
}

// The nodes to which edges lead from the card's node become pending, and where it starts a loop the loop's end too: whether that was
// repeated too early goes by the time of the start.
fn hand_all(rank: &Rank, card: &Card, place: usize, pending: &mut Pending) -> Result<(), NoMemory>
    ensures handed { OnOk result (Handed rank.now (λ k. is_named (loop_end card.now) k || leads_to card.now k) (place + 1) pending.old.keys pending.new.keys) }
{
    hand_to_end(rank, loop_end(card), place, pending)?;
    hand_on(rank, card, Some(place), pending)
}

fn hand_to_end(
    rank: &Rank,
    end: Option<u32>,
    place: usize,
    pending: &mut Pending,
) -> Result<(), NoMemory>
    ensures handed { OnOk result (Handed rank.now (is_named end) (place + 1) pending.old.keys pending.new.keys) }
{
    match end {
        None => Ok(()),
        Some(end) => hand_to(rank, &[end], Some(place), pending),
    }
}

// The end of the loop that the card's node starts.
fn loop_end(card: &Card) -> Option<u32>
    ensures { result ≡ loop_end card.now }
{
    if card.kind == NodeKind::LoopStart {
        card.partner
    } else {
        None
    }
}
