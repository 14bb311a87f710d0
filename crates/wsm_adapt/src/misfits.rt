// The first position at which something of a region does not fit.
ghost use Rattle.std.specs.{Prelude.{◌≡◌, ◌+◌, ◌≤◌, [], Some, length, map}, Option.option_copied};
ghost use Rattle.wsm_adapt.specs.Misfits.{again_known, again_misfit_in, early_by, early_in, early_start, end_misfit, misfit_by, misfit_in, partner_in, start_fits, start_misfit, reads_in, unless};
ghost use Rattle.wsm_marks.specs.{Fits.partner_done, Timed.early};
ghost use Rattle.wsm_trail.specs.EntryAt.{entry_at};
ghost use Rattle.wsm_walk.specs.{FirstBad.{least, lesser}, Listed.seen, Walk.{facts_by, times_by}};

use crate::fits::{end_fits, is_ready_before, start_fits};
use crate::known::Known;
use wsm_rules::{Mark, is_worked_on};
use wsm_schema::{Card, Entry, Flat, NodeKind};
use wsm_settle::{MarkRows, NoMarks, Timed, mark_at, time_of};
use wsm_trail::TrailReads;

/// The first position at which what was started, ended or repeated of touched nodes does not fit. It reads the trail at most once
/// for each.
pub fn touched_misfit<T: TrailReads>(
    old: &Flat,
    new: &Flat,
    known: &Known,
    trail: &mut T,
    nodes: &[u32],
) -> Option<u32>
    ensures misfit { result ≡ least (map (misfit_in old.now new.now known.now (T.kept trail.old).entries) nodes.now) }
    ensures same { T.kept trail.new ≡ T.kept trail.old }
    ensures rises { T.reads trail.old ≤ T.reads trail.new }
    ensures count { T.reads trail.new ≤ T.reads trail.old + length nodes.now }
{
    let mut first = None;
    for node in nodes {
        let misfit = node_misfit(old, new, known, trail, *node);
        first = lesser(first, misfit);
    }
    first
}

/// The first position at which a node was started or repeated too early.
pub fn early_misfit(new: &Flat, known: &Known, nodes: &[u32]) -> Option<u32>
    ensures { result ≡ least (map (early_in new.now known.now) nodes.now) }
{
    let mut first = None;
    for node in nodes {
        first = lesser(first, node_early(new, known, *node));
    }
    first
}

fn node_misfit<T: TrailReads>(
    old: &Flat,
    new: &Flat,
    known: &Known,
    trail: &mut T,
    node: u32,
) -> Option<u32>
    ensures misfit { result ≡ misfit_in old.now new.now known.now (T.kept trail.old).entries node }
    ensures same { T.kept trail.new ≡ T.kept trail.old }
    ensures rises { T.reads trail.old ≤ T.reads trail.new }
    ensures count { T.reads trail.new ≤ T.reads trail.old + 1 }
{
    match known.row(node) {
        Some(Some(mark)) => mark_misfit(old, new, known, trail, node, mark),
        Some(None) | None => None,
    }
}

// What does not fit of a node with that mark. Most say of no Start, End or repeat.
fn mark_misfit<T: TrailReads>(
    old: &Flat,
    new: &Flat,
    known: &Known,
    trail: &mut T,
    node: u32,
    mark: &Mark,
) -> Option<u32>
    ensures misfit { result ≡ misfit_by old.now new.now known.now (T.kept trail.old).entries node mark.now }
    ensures same { T.kept trail.new ≡ T.kept trail.old }
    ensures rises { T.reads trail.old ≤ T.reads trail.new }
    ensures count { T.reads trail.new ≤ T.reads trail.old + 1 }
{
    if mark.started.is_none() && mark.ended.is_none() && mark.again.is_none() {
        return None;
    }
    let card = new.card(node);
    let start = start_misfit(trail, card, time_of(mark), mark.started);
    let end = end_misfit(old, new, old.card(node), card, mark);
    let again = again_misfit(new, known, card, mark.again);
    lesser(start, lesser(end, again))
}

fn node_early(new: &Flat, known: &Known, node: u32) -> Option<u32>
    ensures { result ≡ early_in new.now known.now node }
{
    match known.row(node) {
        Some(Some(mark)) => mark_early(new, known, node, mark),
        Some(None) | None => None,
    }
}

// What was too early of a node with that mark.
fn mark_early(new: &Flat, known: &Known, node: u32, mark: &Mark) -> Option<u32>
    ensures { result ≡ early_by new.now known.now node mark.now }
{
    if mark.started.is_none() && mark.again.is_none() {
        return None;
    }
    let card = new.card(node);
    let start = early_start(card, time_of(mark), mark.started);
    lesser(start, again_misfit(new, known, card, mark.again))
}

// The node's Start, where it does not fit.
fn start_misfit<T: TrailReads>(
    trail: &mut T,
    card: Option<&Card>,
    time: Timed,
    started: Option<u32>,
) -> Option<u32>
    ensures misfit { result ≡ start_misfit (T.kept trail.old).entries (option_copied card.entry) time started }
    ensures same { T.kept trail.new ≡ T.kept trail.old }
    ensures rises { T.reads trail.old ≤ T.reads trail.new }
    ensures count { T.reads trail.new ≤ T.reads trail.old + 1 }
{
    match started {
        None => None,
        Some(position) => unless(recorded_fits(trail, card, time, position), position),
    }
}

// Whether the Start at a position fits, with what it recorded there.
fn recorded_fits<T: TrailReads>(
    trail: &mut T,
    card: Option<&Card>,
    time: Timed,
    position: u32,
) -> bool
    ensures fits { result ≡ start_fits (option_copied card.entry) time position (reads_in (entry_at position (T.kept trail.old).entries)) }
    ensures same { T.kept trail.new ≡ T.kept trail.old }
    ensures rises { T.reads trail.old ≤ T.reads trail.new }
    ensures count { T.reads trail.new ≤ T.reads trail.old + 1 }
{
    match trail.entry(position) {
        Some(Entry::Start { reads, .. }) => start_fits(card, time, position, reads.as_slice()),
        _ => start_fits(card, time, position, &[]),
    }
}

// The node's Start, where its card has no such thing or it was too early.
fn early_start(card: Option<&Card>, time: Timed, started: Option<u32>) -> Option<u32>
    ensures { result ≡ early_start (option_copied card.entry) time started }
{
    let position = started?;
    let fits = match card {
        None => false,
        Some(card) => is_worked_on(card.kind) && is_ready_before(time, position),
    };
    unless(fits, position)
}

fn end_misfit(
    old: &Flat,
    new: &Flat,
    before: Option<&Card>,
    card: Option<&Card>,
    mark: &Mark,
) -> Option<u32>
    ensures { result ≡ end_misfit old.now new.now (option_copied before.entry) (option_copied card.entry) mark.now.ended mark.now.choice }
{
    match mark.ended {
        None => None,
        Some(position) => unless(end_fits(old, new, before, card, mark.choice), position),
    }
}

fn again_misfit(new: &Flat, known: &Known, card: Option<&Card>, again: Option<u32>) -> Option<u32>
    ensures { result ≡ again_misfit_in new.now.cards known.now (option_copied card.entry) again }
{
    match again {
        None => None,
        Some(position) => unless(again_fits(new, known, card, position), position),
    }
}

// Whether the repeat at a position of the loop that ends with the card's node fits.
fn again_fits(new: &Flat, known: &Known, card: Option<&Card>, position: u32) -> bool
    ensures { result ≡ again_known new.now.cards known.now (option_copied card.entry) position }
{
    match card {
        None => false,
        Some(card) => {
            card.kind == NodeKind::LoopEnd && partner_fits(new, known, card.partner, position)
        }
    }
}

// Whether the start of a loop is done before a position: what is not known of the loop's start is as it was.
fn partner_fits(new: &Flat, known: &Known, partner: Option<u32>, position: u32) -> bool
    ensures { result ≡ partner_in new.now.cards known.now position partner }
{
    match partner {
        None => false,
        Some(node) => !known.has(node) || is_done(new, known, node, position),
    }
}

fn is_done(new: &Flat, known: &Known, node: u32, position: u32) -> bool
    ensures { result ≡ partner_done new.now.cards (facts_by (seen [] known.now)) (times_by (seen [] known.now)) position (Some node) }
{
    match new.card(node) {
        None => false,
        Some(card) => {
            let mark = mark_at(&mut NoMarks, known, node);
            if is_worked_on(card.kind) {
                is_early(mark.ended, position)
            } else {
                is_ready_before(time_of(&mark), position)
            }
        }
    }
}

fn is_early(fact: Option<u32>, position: u32) -> bool
    ensures { result ≡ early position fact }
{
    match fact {
        None => false,
        Some(since) => since < position,
    }
}

// The position, unless what is there fits.
fn unless(fits: bool, position: u32) -> Option<u32>
    ensures { result ≡ unless fits position }
{
    if fits { None } else { Some(position) }
}

/// The lesser of two positions.
pub fn lesser(one: Option<u32>, other: Option<u32>) -> Option<u32>
    ensures { result ≡ lesser one other }
{
    match (one, other) {
        (None, other) => other,
        (Some(one), None) => Some(one),
        (Some(one), Some(other)) => Some(if other < one { other } else { one }),
    }
}
