// Which entries are applicable.
ghost use Rattle.std.specs.{Prelude.{◌≡◌, ℕ, Option}, Option.option_copied};
ghost use Rattle.wsm_lists.specs.Values.{same_option_value};
ghost use Rattle.wsm_schema.specs.Replay.{applicable, fits_reads, fits_edges, fits_choice, has_label, is_of_kind, partner_completed};
ghost use Rattle.wsm_trail.specs.EntryAt.{value_noted};

use crate::spots::spot_in;
use wsm_schema::{Card, ElementKind, End, Entry, Flat, Marking, NodeKind, State, Value};
use wsm_trail::{LastWrites, Trail};

/// Whether the entry is applicable, where `before` tells the last writes before it.
pub fn applicable(
    flat: &Flat,
    table: &Marking,
    trail: &Trail,
    before: &LastWrites,
    entry: &Entry,
) -> bool
    ensures { result ≡ applicable flat.now table.now (value_noted trail.now.trail.entries before.now.rows) entry.now }
{
    match entry {
        Entry::Start { node, reads, .. } => match flat.card(*node) {
            None => false,
            Some(card) => {
                spot_in(table, *node).state == State::Activated
                    && fits_reads(trail, before, reads.as_slice(), card.reads.as_slice())
            }
        },
        Entry::End {
            node,
            writes,
            choice,
        } => match flat.card(*node) {
            None => false,
            Some(card) => {
                spot_in(table, *node).state == State::Running
                    && fits_edges(flat, writes.as_slice(), card.writes.as_slice())
                    && fits_choice(card, *choice)
            }
        },
        Entry::Again { node, .. } => match flat.card(*node) {
            None => false,
            Some(card) => {
                card.kind == NodeKind::LoopEnd && partner_completed(flat, table, card.partner)
            }
        },
        Entry::Wrote { .. } => true,
    }
}

// The element's value, by the position of its last write.
fn value_before<'a>(trail: &'a Trail, before: &LastWrites, element: u32) -> Option<&'a Value>
    ensures { option_copied result ≡ value_noted trail.now.trail.entries before.now.rows element }
{
    match before.position(element) {
        None => None,
        Some(position) => match trail.entry(position) {
            None => None,
            Some(entry) => entry.written(element),
        },
    }
}

// Whether these are exactly the reads of the edges, with the values of that time.
fn fits_reads(
    trail: &Trail,
    before: &LastWrites,
    reads: &[(u32, Option<Value>)],
    edges: &[(u32, bool)],
) -> bool
    ensures { result ≡ fits_reads (value_noted trail.now.trail.entries before.now.rows) reads.now edges.now }
{
    if reads.len() != edges.len() {
        return false;
    }
    for i in 0..reads.len() {
        let value = value_before(trail, before, edges[i].0);
        let there = !edges[i].1 || value.is_some();
        if !(reads[i].0 == edges[i].0 && same_option_value(&reads[i].1, value) && there) {
            return false;
        }
    }
    true
}

fn same_option_value(a: &Option<Value>, b: Option<&Value>) -> bool
    ensures { result ≡ same_option_value a.now (option_copied b.entry) }
{
    match (a, b) {
        (None, None) => true,
        (Some(x), Some(y)) => x.same(y),
        _ => false,
    }
}

// Whether these are exactly the writes of the edges, with values of their kinds.
fn fits_edges(flat: &Flat, writes: &[(u32, Value)], edges: &[u32]) -> bool
    ensures { result ≡ fits_edges flat.now.elements writes.now edges.now }
{
    if writes.len() != edges.len() {
        return false;
    }
    for i in 0..writes.len() {
        if !(writes[i].0 == edges[i] && is_of_kind(flat.kind(edges[i]), &writes[i].1)) {
            return false;
        }
    }
    true
}

fn is_of_kind(kind: Option<ElementKind>, value: &Value) -> bool
    ensures { result ≡ is_of_kind kind value.now }
{
    match kind {
        None => false,
        Some(kind) => value.kind() == kind,
    }
}

/// Whether the choice is one with which an end stays in the trail: none at an activity, the code of a branch at an XOR split, 0 at a loop's end.
pub fn fits_choice(card: &Card, choice: Option<u16>) -> bool
    ensures { result ≡ fits_choice card.now choice }
{
    match choice {
        None => card.kind == NodeKind::Activity,
        Some(code) => {
            (card.kind == NodeKind::XorSplit && has_label(code, card.outs.as_slice()))
                || (card.kind == NodeKind::LoopEnd && code == 0)
        }
    }
}

fn has_label(code: u16, ends: &[End]) -> bool
    ensures { result ≡ has_label code ends.now }
{
    for end in ends {
        if end.label == Some(code) {
            return true;
        }
    }
    false
}

fn partner_completed(flat: &Flat, table: &Marking, partner: Option<u32>) -> bool
    ensures { result ≡ partner_completed flat.now.cards table.now partner }
{
    match partner {
        None => false,
        Some(node) => match flat.card(node) {
            None => false,
            Some(_) => spot_in(table, node).state == State::Completed,
        },
    }
}
