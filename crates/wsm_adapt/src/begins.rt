// A walk over a change begins with the touched nodes and with those to which their edges lead.
ghost use Rattle.std.specs.{Prelude.{◌≡◌, ◌≤◌, ◌+◌, ◌||◌, [], IfOk, OnOk}, List.list_any};
ghost use Rattle.wsm_adapt.specs.{Adapted.marks_to_read, Begun.{IsEmpty, IsFound, TellsOf, begun_rows, is_led}, Region.{IsNet, is_reached}, Walking.Confined};
ghost use Rattle.wsm_schema.specs.{Flat.card_at, Trail.is_one_of};
ghost use Rattle.wsm_walk.specs.RankPlaces.{Handed};

use crate::border::read_nodes;
use crate::known::Known;
use crate::walks::{Found, walk};
use std::alloc::Global;
use wsm_lists::{GrowingTable, NoMemory};
use wsm_rules::MarkReads;
use wsm_schema::{Flat, Nodes, Rank};
use wsm_settle::{NoMarks, Overlay, Pending, hand_on, hand_to, mark_at, said};

/// The new marks of touched nodes and of all others whose marks change, found by a walk in the order of the rank.
pub fn marks_found<M: MarkReads>(
    alloc: Global,
    flat: &Flat,
    rank: &Rank,
    marks: &mut M,
    touched: &[u32],
) -> Result<Found, NoMemory>
    requires { IsNet flat.now rank.now }
    ensures found { IfOk result (IsFound flat.now.cards rank.now (M.kept marks.old) touched.now) }
    ensures inside { IfOk result (λ found. Confined flat.now.cards rank.now (is_reached flat.now.cards rank.now touched.now) [] found.nodes) }
    ensures told { IfOk result (TellsOf flat.now.cards touched.now) }
    ensures same { M.kept marks.new ≡ M.kept marks.old }
    ensures rises { M.reads marks.old ≤ M.reads marks.new }
    ensures few { M.reads marks.new ≤ M.reads marks.old + marks_to_read flat.now rank.now touched.now }
{
    let mut found = Found {
        known: Known::with_room(alloc, touched.len().saturating_mul(2))?,
        changes: GrowingTable::new(alloc),
        nodes: Nodes::new(alloc),
    };
    find(alloc, flat, rank, marks, touched, &mut found)?;
    Ok(found)
}

// The walk, where nothing is found yet.
fn find<M: MarkReads>(
    alloc: Global,
    flat: &Flat,
    rank: &Rank,
    marks: &mut M,
    touched: &[u32],
    found: &mut Found,
) -> Result<(), NoMemory>
    requires net { IsNet flat.now rank.now }
    requires empty { IsEmpty found.old }
    ensures found { OnOk result (IsFound flat.now.cards rank.now (M.kept marks.old) touched.now found.new) }
    ensures inside { OnOk result (Confined flat.now.cards rank.now (is_reached flat.now.cards rank.now touched.now) [] found.new.nodes) }
    ensures told { OnOk result (TellsOf flat.now.cards touched.now found.new) }
    ensures same { M.kept marks.new ≡ M.kept marks.old }
    ensures rises { M.reads marks.old ≤ M.reads marks.new }
    ensures few { M.reads marks.new ≤ M.reads marks.old + marks_to_read flat.now rank.now touched.now }
{
    read_nodes(marks, touched, &mut found.known)?;
    note_known(flat, touched, &found.known, &mut found.changes)?;
    let mut pending = begun_pending(alloc, flat, rank, touched)?;
    walk(alloc, flat, rank, marks, found, &mut pending)
}

// The changes tell of those of the nodes that the schema has what is known of them.
fn note_known(
    flat: &Flat,
    nodes: &[u32],
    known: &Known,
    changes: &mut Overlay,
) -> Result<(), NoMemory>
    ensures { OnOk result (changes.new ≡ begun_rows flat.now.cards known.now nodes.now changes.old) }
{
    for node in nodes {
        if flat.card(*node).is_some() {
            let mark = mark_at(&mut NoMarks, known, *node);
            changes.set((*node, said(mark)))?;
        }
    }
    Ok(())
}

// The places of the nodes, and of those to which edges lead from them.
fn begun_pending(
    alloc: Global,
    flat: &Flat,
    rank: &Rank,
    nodes: &[u32],
) -> Result<Pending, NoMemory>
    ensures { IfOk result (λ pending. Handed rank.now (λ k. is_one_of k nodes.now || list_any (λ m. is_led (card_at m flat.now.cards) k) nodes.now) 0 [] pending.keys) }
{
    let mut pending = Pending::expecting(alloc, nodes.len(), rank.nodes().len())?;
    hand_to(rank, nodes, None, &mut pending)?;
    hand_on_all(flat, rank, nodes, &mut pending)?;
    Ok(pending)
}

// The nodes to which edges lead from some nodes become pending.
fn hand_on_all(
    flat: &Flat,
    rank: &Rank,
    nodes: &[u32],
    pending: &mut Pending,
) -> Result<(), NoMemory>
    ensures handed { OnOk result (Handed rank.now (λ k. list_any (λ m. is_led (card_at m flat.now.cards) k) nodes.now) 0 pending.old.keys pending.new.keys) }
{
    for node in nodes {
        hand_on_from(flat, rank, *node, pending)?;
    }
    Ok(())
}

// The nodes to which edges lead from a node become pending.
fn hand_on_from(flat: &Flat, rank: &Rank, node: u32, pending: &mut Pending) -> Result<(), NoMemory>
    ensures handed { OnOk result (Handed rank.now (is_led (card_at node flat.now.cards)) 0 pending.old.keys pending.new.keys) }
{
    match flat.card(node) {
        None => Ok(()),
        Some(card) => hand_on(rank, card, None, pending),
    }
}
