// What the End of a node does to marks.
ghost use Rattle.std.specs.Prelude.{◌≡◌, ◌+◌, ◌≤◌, [], ◌∷◌, Some, length, IfOk};
ghost use Rattle.wsm_settle.specs.Events.{BehindNode, EndsRight, ReachesFew};
ghost use Rattle.wsm_walk.specs.{RankPlaces.{AllWithin, Handed}, Targets.leads_to};

use crate::overlays::{Overlay, or_blank};
use crate::pending::hand_on;
use crate::places::Pending;
use crate::walks::walk;
use std::alloc::Global;
use wsm_lists::{GrowingTable, NoMemory};
use wsm_rules::{Changes, Mark, MarkReads};
use wsm_schema::{Card, Flat, Rank};

/// The changes after the End of a node with that choice, at a position behind the trail.
pub fn after_end<M: MarkReads>(
    alloc: Global,
    flat: &Flat,
    rank: &Rank,
    marks: &mut M,
    node: u32,
    position: u32,
    choice: Option<u16>,
) -> Result<Changes, NoMemory>
    ensures changes { IfOk result (λ changes. EndsRight flat.now rank.now (M.kept marks.old) node position choice changes) }
    ensures same { M.kept marks.new ≡ M.kept marks.old }
    ensures rises { M.reads marks.old ≤ M.reads marks.new }
    ensures few { ReachesFew flat.now rank.now node (M.reads marks.old) (M.reads marks.new) }
{
    let mark = or_blank(marks.get(node));
    let ended = Mark {
        ended: Some(position),
        choice,
        ..mark
    };
    let mut changes = begun_with(alloc, node, ended)?;
    let mut pending = behind(alloc, flat, rank, node)?;
    walk(alloc, flat, rank, marks, &mut changes, &mut pending)?;
    changes.into_table(alloc)
}

// Changes that begin with a mark of the node.
fn begun_with(alloc: Global, node: u32, mark: Mark) -> Result<Overlay, NoMemory>
    ensures { IfOk result (λ changes. changes ≡ (node, Some mark) ∷ []) }
{
    let mut changes = GrowingTable::new(alloc);
    changes.set((node, Some(mark)))?;
    Ok(changes)
}

// The places of the nodes behind a node.
fn behind(alloc: Global, flat: &Flat, rank: &Rank, node: u32) -> Result<Pending, NoMemory>
    ensures within { IfOk result (λ pending. AllWithin (length rank.now) pending.keys) }
    ensures handed { IfOk result (λ pending. BehindNode flat.now rank.now node pending.keys) }
{
    match flat.card(node) {
        None => Ok(Pending::new(alloc)),
        Some(card) => match rank.place(node) {
            None => Ok(Pending::new(alloc)),
            Some(place) => named_behind(alloc, rank, card, place),
        },
    }
}

// The places of the nodes that a card names, as far as they stand behind a place.
fn named_behind(alloc: Global, rank: &Rank, card: &Card, place: usize) -> Result<Pending, NoMemory>
    ensures { IfOk result (λ pending. Handed rank.now (leads_to card.now) (place + 1) [] pending.keys) }
{
    let mut pending = Pending::new(alloc);
    hand_on(rank, card, Some(place), &mut pending)?;
    Ok(pending)
}
