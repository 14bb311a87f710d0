// The settled net, by one pass in the order of a rank.
ghost use Rattle.std.specs.Prelude.{◌≡◌, [], ◌∷◌, IfOk, OnOk, map, None};
ghost use Rattle.wsm_schema.specs.{Flat.card_at, Pass.{pass, ruled_from, ruled_if}, Rank.IsRank, Replay.after, Rules.{spot_in, source_signal, signal_from, sync_from, verdict_at, settle, marking_of}};
ghost use Rattle.wsm_replay.specs.SameSpots.{SameRows, IsMarking};

use crate::spots::{spot_in, spot_of};
use std::alloc::Global;
use wsm_rules::{Flow, Marking, Spot, Verdict, is_begun, judge, signal, state_by};
use wsm_schema::{Card, End, Entry, Flat, NoMemory, Rank};

/// The marking after an entry, where `table` is the marking before it.
pub fn after(
    alloc: Global,
    flat: &Flat,
    rank: &Rank,
    table: &Marking,
    entry: &Entry,
) -> Result<Marking, NoMemory>
    requires rank { IsRank flat.now.cards rank.now }
    requires marking { IsMarking flat.now.cards table.now }
    ensures { IfOk result (λ new. new ≡ marking_of flat.now.cards (after flat.now.cards entry.now table.now)) }
{
    match spot_of(entry) {
        None => table.copy(alloc),
        Some(spot) => given(alloc, flat, rank, table, spot),
    }
}

/// The marking after a node is given a spot.
pub fn given(
    alloc: Global,
    flat: &Flat,
    rank: &Rank,
    table: &Marking,
    spot: Spot,
) -> Result<Marking, NoMemory>
    requires { IsRank flat.now.cards rank.now }
    ensures { IfOk result (λ new. new ≡ marking_of flat.now.cards (settle flat.now.cards (spot ∷ table.now))) }
{
    let mut old = table.copy(alloc)?;
    old.set(spot)?;
    settled(alloc, flat, rank, &old)
}

/// The marking that is settled from the spots of `old`. One pass makes it, since a table that ascends and has the spots of
/// the cards' nodes is the marking.
pub fn settled(alloc: Global, flat: &Flat, rank: &Rank, old: &Marking) -> Result<Marking, NoMemory>
    requires { IsRank flat.now.cards rank.now }
    ensures { IfOk result (λ new. new ≡ marking_of flat.now.cards (settle flat.now.cards old.now)) }
{
    let new = passed(alloc, flat, rank.nodes(), old)?;
    let _ = new.as_slice();
    Ok(new)
}

// The node rule at these nodes, one after another.
fn passed(alloc: Global, flat: &Flat, nodes: &[u32], old: &Marking) -> Result<Marking, NoMemory>
    ensures { IfOk result (λ new. SameRows new (pass flat.now.cards old.now nodes.now [])) }
{
    let mut done = Marking::new(alloc);
    for node in nodes {
        put_ruled(alloc, flat, old, &mut done, *node)?;
    }
    Ok(done)
}

// The node rule at one node more.
fn put_ruled(
    alloc: Global,
    flat: &Flat,
    old: &Marking,
    done: &mut Marking,
    node: u32,
) -> Result<(), NoMemory>
    ensures { OnOk result (SameRows done.new (ruled_if flat.now.cards old.now done.old (card_at node flat.now.cards))) }
{
    match flat.card(node) {
        None => Ok(()),
        Some(card) => {
            let spot = ruled(alloc, flat, old, done, card)?;
            done.put(spot)?;
            Ok(())
        }
    }
}

// The node rule at a card, where `old` says which nodes were begun, and `done` what the earlier nodes are.
fn ruled(
    alloc: Global,
    flat: &Flat,
    old: &Marking,
    done: &Marking,
    card: &Card,
) -> Result<Spot, NoMemory>
    ensures { IfOk result (λ spot. spot ≡ ruled_from flat.now.cards old.now done.now card.now) }
{
    let was = spot_in(old, card.node);
    if is_begun(card.kind, was.state) {
        return Ok(was);
    }
    let verdict = verdict_at(alloc, flat, done, card)?;
    Ok(Spot {
        node: card.node,
        state: state_by(card.kind, verdict),
        choice: None,
    })
}

fn verdict_at(alloc: Global, flat: &Flat, table: &Marking, card: &Card) -> Result<Verdict, NoMemory>
    ensures { IfOk result (λ verdict. verdict ≡ verdict_at flat.now.cards table.now card.now) }
{
    if card.syncs_in.is_empty()
        && let [end] = card.ins.as_slice()
    {
        return Ok(verdict_of_one(flat, table, card, *end));
    }
    let control = control_signals(alloc, flat, table, card)?;
    let syncs = sync_signals(alloc, flat, table, card)?;
    Ok(judge(card, &control, &syncs))
}

// The same where one control edge leads to the card and no sync edge, which takes no memory.
fn verdict_of_one(flat: &Flat, table: &Marking, card: &Card, end: End) -> Verdict
    requires control { card.now.ins ≡ end ∷ [] }
    requires syncs { card.now.syncs_in ≡ [] }
    ensures { result ≡ verdict_at flat.now.cards table.now card.now }
{
    let signal = signal_from(flat, table, end.node, end.label);
    judge(card, &[signal], &[])
}

fn control_signals(
    alloc: Global,
    flat: &Flat,
    table: &Marking,
    card: &Card,
) -> Result<Vec<Option<Flow>>, NoMemory>
    ensures { IfOk result (λ new. new.items ≡ map (signal_from flat.now.cards table.now) card.now.ins) }
{
    card.ins
        .iter()
        .map(|end| signal_from(flat, table, end.node, end.label))
        .collect(alloc)
}

fn sync_signals(
    alloc: Global,
    flat: &Flat,
    table: &Marking,
    card: &Card,
) -> Result<Vec<Option<Flow>>, NoMemory>
    ensures { IfOk result (λ new. new.items ≡ map (sync_from flat.now.cards table.now) card.now.syncs_in) }
{
    card.syncs_in
        .iter()
        .map(|node| signal_from(flat, table, *node, None))
        .collect(alloc)
}

// What an edge from that node signals.
fn signal_from(flat: &Flat, table: &Marking, node: u32, label: Option<u16>) -> Option<Flow>
    ensures { result ≡ source_signal (card_at node flat.now.cards) (spot_in node table.now) label }
{
    match flat.card(node) {
        None => None,
        Some(card) => {
            let spot = spot_in(table, node);
            signal(card, spot.state, spot.choice, label)
        }
    }
}
