// How nodes become pending.
ghost use Rattle.std.specs.{Prelude.{◌≡◌, ◌==◌, ◌≤◌, ◌↔◌, IsTrue, OnOk}, List.list_any};
ghost use Rattle.wsm_schema.specs.Trail.{is_one_of};
ghost use Rattle.wsm_settle.specs.Behind.{WasHanded, low_of};
ghost use Rattle.wsm_walk.specs.{RankPlaces.Handed, Targets.leads_to};

use crate::places::Pending;
use wsm_lists::NoMemory;
use wsm_schema::{Card, End, Rank};

/// The nodes to which edges lead from the card's node become pending, as far as they stand behind a place.
pub fn hand_on(
    rank: &Rank,
    card: &Card,
    from: Option<usize>,
    pending: &mut Pending,
) -> Result<(), NoMemory>
    ensures handed { OnOk result (Handed rank.now (leads_to card.now) (low_of from) pending.old.keys pending.new.keys) }
{
    hand_to_ends(rank, card.outs.as_slice(), from, pending)?;
    hand_to(rank, card.syncs_out.as_slice(), from, pending)
}

/// These nodes become pending, as far as they stand behind a place.
pub fn hand_to(
    rank: &Rank,
    nodes: &[u32],
    from: Option<usize>,
    pending: &mut Pending,
) -> Result<(), NoMemory>
    ensures handed { OnOk result (Handed rank.now (λ k. is_one_of k nodes.now) (low_of from) pending.old.keys pending.new.keys) }
{
    for node in nodes {
        hand_to_node(rank, *node, from, pending)?;
    }
    Ok(())
}

// The other ends of edges become pending.
fn hand_to_ends(
    rank: &Rank,
    ends: &[End],
    from: Option<usize>,
    pending: &mut Pending,
) -> Result<(), NoMemory>
    ensures handed { OnOk result (Handed rank.now (λ k. list_any (λ o. o.node == k) ends.now) (low_of from) pending.old.keys pending.new.keys) }
{
    let mut last = None;
    for end in ends {
        hand_to_other(rank, end.node, last, from, pending)?;
        last = Some(end.node);
    }
    Ok(())
}

// A node becomes pending, if it is not the one that became so last.
fn hand_to_other(
    rank: &Rank,
    node: u32,
    last: Option<u32>,
    from: Option<usize>,
    pending: &mut Pending,
) -> Result<(), NoMemory>
    requires { WasHanded rank.now (low_of from) last pending.old.keys }
    ensures handed { OnOk result (Handed rank.now (λ k. node == k) (low_of from) pending.old.keys pending.new.keys) }
{
    if last == Some(node) {
        return Ok(());
    }
    hand_to_node(rank, node, from, pending)
}

// A node becomes pending.
fn hand_to_node(
    rank: &Rank,
    node: u32,
    from: Option<usize>,
    pending: &mut Pending,
) -> Result<(), NoMemory>
    ensures handed { OnOk result (Handed rank.now (λ k. node == k) (low_of from) pending.old.keys pending.new.keys) }
{
    match rank.place(node) {
        None => Ok(()),
        Some(place) => {
            if is_behind(place, from) {
                pending.insert(place)?;
            }
            Ok(())
        }
    }
}

// Whether a place stands behind another, or there is no other.
fn is_behind(place: usize, from: Option<usize>) -> bool
    ensures { IsTrue result ↔ (low_of from ≤ place) }
{
    match from {
        None => true,
        Some(from) => from < place,
    }
}
