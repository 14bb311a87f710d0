// A walk over the nodes behind a change, the least pending place at a time.
ghost use Rattle.std.specs.Prelude.{◌≡◌, ◌+◌, ◌<◌, ◌≤◌, ◌∷◌, [], length, get_or, IfOk, OnOk, Some, None, if◌then◌else◌};
ghost use Rattle.wsm_schema.specs.Flat.{card_at};
ghost use Rattle.wsm_settle.specs.{AllPlaces.{WalksOne, places_from}, Revised.IsRevised};
ghost use Rattle.wsm_walk.specs.{Listed.seen, RankPlaces.{AllBehind, AllWithin}, Spent.{ReadsFew, Spends, visit_cost}, Walk.{Walks, with_time}};

use crate::equations::equation;
use crate::overlays::{MarkRows, Overlay, mark_at, said};
use crate::pending::hand_on;
use crate::places::Pending;
use crate::sources::{Timed, time_of};
use std::alloc::Global;
use wsm_lists::NoMemory;
use wsm_rules::{Flow, Mark, MarkReads};
use wsm_schema::{Card, Flat, Rank};

/// All that is pending is visited, in the order of the rank.
pub fn walk<M: MarkReads>(
    alloc: Global,
    flat: &Flat,
    rank: &Rank,
    marks: &mut M,
    changes: &mut Overlay,
    pending: &mut Pending,
) -> Result<(), NoMemory>
    requires within { AllWithin (length rank.now) pending.old.keys }
    ensures walked { OnOk result (Walks flat.now.cards rank.now (M.kept marks.old) pending.old.keys changes.old [] changes.new) }
    ensures same { M.kept marks.new ≡ M.kept marks.old }
    ensures rises { M.reads marks.old ≤ M.reads marks.new }
    ensures few { ReadsFew flat.now.cards rank.now (M.reads marks.old) pending.old.keys (M.reads marks.new) }
{
    while let Some(place) = pending.pop_first() {
        visit(alloc, flat, rank, marks, changes, pending, place)?;
    }
    Ok(())
}

/// All places of the rank are visited in their order, so that none has to be pending.
pub fn walk_all<M: MarkReads>(
    alloc: Global,
    flat: &Flat,
    rank: &Rank,
    marks: &mut M,
    changes: &mut Overlay,
) -> Result<(), NoMemory>
    ensures walked { OnOk result (Walks flat.now.cards rank.now (M.kept marks.old) (places_from 0 (length rank.now)) changes.old [] changes.new) }
    ensures same { M.kept marks.new ≡ M.kept marks.old }
{
    for place in 0..rank.nodes().len() {
        revise_at(alloc, flat, rank, marks, changes, place)?;
    }
    Ok(())
}

// The node at a place gets the time of its equation.
fn revise_at<M: MarkReads>(
    alloc: Global,
    flat: &Flat,
    rank: &Rank,
    marks: &mut M,
    changes: &mut Overlay,
    place: usize,
) -> Result<(), NoMemory>
    requires { place < length rank.now }
    ensures walked { OnOk result (WalksOne flat.now.cards rank.now (M.kept marks.old) place changes.old changes.new) }
    ensures same { M.kept marks.new ≡ M.kept marks.old }
{
    match flat.card(rank.nodes()[place]) {
        None => Ok(()),
        Some(card) => {
            let mut mark = mark_at(marks, &*changes, card.node);
            if !revise(alloc, flat, marks, &*changes, card, &mut mark)? {
                return Ok(());
            }
            changes.set((card.node, said(mark)))
        }
    }
}

// The node at a place gets the time of its equation; where that is another one, the nodes behind it become pending.
fn visit<M: MarkReads>(
    alloc: Global,
    flat: &Flat,
    rank: &Rank,
    marks: &mut M,
    changes: &mut Overlay,
    pending: &mut Pending,
    place: usize,
) -> Result<(), NoMemory>
    requires place { place < length rank.now }
    requires behind { AllBehind place pending.old.keys }
    requires within { AllWithin (length rank.now) pending.old.keys }
    ensures walked { OnOk result (Walks flat.now.cards rank.now (M.kept marks.old) (place ∷ pending.old.keys) changes.old pending.new.keys changes.new) }
    ensures spent { OnOk result (Spends flat.now.cards rank.now (M.reads marks.old) (place ∷ pending.old.keys) (M.reads marks.new) pending.new.keys) }
    ensures behind { OnOk result (AllBehind place pending.new.keys) }
    ensures within { OnOk result (AllWithin (length rank.now) pending.new.keys) }
    ensures same { M.kept marks.new ≡ M.kept marks.old }
    ensures rises { M.reads marks.old ≤ M.reads marks.new }
    ensures count { M.reads marks.new ≤ M.reads marks.old + visit_cost (card_at (get_or rank.now place 0) flat.now.cards) }
{
    match flat.card(rank.nodes()[place]) {
        None => Ok(()),
        Some(card) => {
            let mut mark = mark_at(marks, &*changes, card.node);
            if !revise(alloc, flat, marks, &*changes, card, &mut mark)? {
                return Ok(());
            }
            changes.set((card.node, said(mark)))?;
            hand_on(rank, card, Some(place), pending)
        }
    }
}

/// The mark of the card's node gets the time of the node's equation. Whether it had another one.
pub fn revise<M: MarkReads, R: MarkRows>(
    alloc: Global,
    flat: &Flat,
    marks: &mut M,
    changes: &R,
    card: &Card,
    mark: &mut Mark,
) -> Result<bool, NoMemory>
    requires { mark.old ≡ seen (M.kept marks.old) (R.rows changes.now) card.now.node }
    ensures mark { IfOk result (λ had_other. IsRevised flat.now.cards (seen (M.kept marks.old) (R.rows changes.now)) card.now (if had_other then Some mark.new else None)) }
    ensures same { M.kept marks.new ≡ M.kept marks.old }
    ensures rises { M.reads marks.old ≤ M.reads marks.new }
    ensures count { M.reads marks.new ≤ M.reads marks.old + (length card.now.ins + length card.now.syncs_in) }
{
    let timed = equation(alloc, flat, marks, changes, card)?;
    if timed == time_of(mark) {
        return Ok(false);
    }
    set_time(mark, timed);
    Ok(true)
}

// The mark gets that time.
fn set_time(mark: &mut Mark, timed: Timed)
    ensures { mark.new ≡ with_time timed mark.old }
{
    mark.ready_at = None;
    mark.skipped_at = None;
    match timed {
        None => {}
        Some((position, Flow::Yes)) => mark.ready_at = Some(position),
        Some((position, Flow::No)) => mark.skipped_at = Some(position),
    }
}
