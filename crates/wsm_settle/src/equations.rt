// The equation of a node over marks: since when it is ready or skipped.
ghost use Rattle.std.specs.Prelude.{◌≡◌, ◌+◌, ◌≤◌, [], ◌∷◌, None, IfOk, IfSome, length, map, option_map};
ghost use Rattle.wsm_marks.specs.Timed.{awaited, eq_of, flow, greater, latest, time, timed_by};
ghost use Rattle.wsm_settle.specs.Signals.{AllOf, awaited_signals, signal_by};
ghost use Rattle.wsm_walk.specs.{Walk.time_by, Listed.seen};

use crate::overlays::MarkRows;
use crate::sources::{Timed, edge_signal, signal_from};
use std::alloc::Global;
use wsm_lists::NoMemory;
use wsm_rules::{Flow, MarkReads, Verdict, judge};
use wsm_schema::{Card, End, Flat, NodeKind};

/// Since when a node is ready or skipped, by what its edges signal over these marks. It reads at most one mark for each edge.
pub fn equation<M: MarkReads, R: MarkRows>(
    alloc: Global,
    flat: &Flat,
    marks: &mut M,
    changes: &R,
    card: &Card,
) -> Result<Timed, NoMemory>
    ensures timed { IfOk result (λ timed. timed ≡ time_by flat.now.cards (seen (M.kept marks.old) (R.rows changes.now)) card.now) }
    ensures same { M.kept marks.new ≡ M.kept marks.old }
    ensures rises { M.reads marks.old ≤ M.reads marks.new }
    ensures count { M.reads marks.new ≤ M.reads marks.old + (length card.now.ins + length card.now.syncs_in) }
{
    match only_edge(card) {
        None => equation_of_all(alloc, flat, marks, changes, card),
        Some(end) => {
            let signal = signal_from(flat, marks, changes, end.node, end.label);
            Ok(equation_of_one(card, signal))
        }
    }
}

// The control edge into a node, where no other edge enters it.
fn only_edge(card: &Card) -> Option<&End>
    ensures { IfSome result (λ end. (card.now.ins ≡ end.now ∷ []) × (card.now.syncs_in ≡ [])) }
{
    let (end, others) = card.ins.as_slice().split_first()?;
    if others.is_empty() && card.syncs_in.is_empty() {
        Some(end)
    } else {
        None
    }
}

// The equation of a node, by all of its edges. It waits where a control edge signals nothing yet, whatever the others signal.
fn equation_of_all<M: MarkReads, R: MarkRows>(
    alloc: Global,
    flat: &Flat,
    marks: &mut M,
    changes: &R,
    card: &Card,
) -> Result<Timed, NoMemory>
    ensures timed { IfOk result (λ timed. timed ≡ time_by flat.now.cards (seen (M.kept marks.old) (R.rows changes.now)) card.now) }
    ensures same { M.kept marks.new ≡ M.kept marks.old }
    ensures rises { M.reads marks.old ≤ M.reads marks.new }
    ensures count { M.reads marks.new ≤ M.reads marks.old + (length card.now.ins + length card.now.syncs_in) }
{
    match control_signals(alloc, flat, marks, changes, card)? {
        None => Ok(None),
        Some(control) => {
            let syncs = sync_signals(alloc, flat, marks, changes, card)?;
            equation_of(alloc, card, &control, &syncs)
        }
    }
}

// The control edges whose signals a node waits for: a start waits for none.
fn awaited_ends(card: &Card) -> &[End]
    ensures { result.now ≡ awaited card.now.kind card.now.ins }
{
    match card.kind {
        NodeKind::Start => &[],
        _ => card.ins.as_slice(),
    }
}

// The signals of the control edges that the node waits for. None as soon as one of them signals nothing.
fn control_signals<M: MarkReads, R: MarkRows>(
    alloc: Global,
    flat: &Flat,
    marks: &mut M,
    changes: &R,
    card: &Card,
) -> Result<Option<Vec<Timed>>, NoMemory>
    ensures signals { IfOk result (λ all. AllOf (awaited_signals flat.now.cards (seen (M.kept marks.old) (R.rows changes.now)) card.now) (option_map (λ v. v.items) all)) }
    ensures same { M.kept marks.new ≡ M.kept marks.old }
    ensures rises { M.reads marks.old ≤ M.reads marks.new }
    ensures count { M.reads marks.new ≤ M.reads marks.old + length card.now.ins }
{
    let mut all = Vec::new(alloc);
    let mut known = None;
    for end in awaited_ends(card) {
        let signal = edge_signal(flat, marks, changes, &mut known, end);
        if signal.is_none() {
            return Ok(None);
        }
        all.push(signal)?;
    }
    Ok(Some(all))
}

fn sync_signals<M: MarkReads, R: MarkRows>(
    alloc: Global,
    flat: &Flat,
    marks: &mut M,
    changes: &R,
    card: &Card,
) -> Result<Vec<Timed>, NoMemory>
    ensures signals { IfOk result (λ all. all.items ≡ map (signal_by flat.now.cards (seen (M.kept marks.old) (R.rows changes.now)) None) card.now.syncs_in) }
    ensures same { M.kept marks.new ≡ M.kept marks.old }
    ensures rises { M.reads marks.old ≤ M.reads marks.new }
    ensures count { M.reads marks.new ≤ M.reads marks.old + length card.now.syncs_in }
{
    let mut all = Vec::new(alloc);
    for node in card.syncs_in.as_slice() {
        all.push(signal_from(flat, marks, changes, *node, None))?;
    }
    Ok(all)
}

// The node rule on the signal of the only edge.
fn equation_of_one(card: &Card, signal: Timed) -> Timed
    ensures { result ≡ eq_of card.now.kind (signal ∷ []) [] }
{
    let verdict = judge(card, &[flow_of(signal)], &[]);
    timed_by(verdict, awaited_latest(card.kind, &[signal]), 0)
}

// The node rule on the signals, with the latest of their positions.
fn equation_of(
    alloc: Global,
    card: &Card,
    control: &[Timed],
    syncs: &[Timed],
) -> Result<Timed, NoMemory>
    ensures { IfOk result (λ timed. timed ≡ eq_of card.now.kind control.now syncs.now) }
{
    let verdict = judge(card, &flows(alloc, control)?, &flows(alloc, syncs)?);
    let control_last = awaited_latest(card.kind, control);
    Ok(timed_by(verdict, control_last, latest(syncs)))
}

fn timed_by(verdict: Verdict, control_last: u32, syncs_last: u32) -> Timed
    ensures { result ≡ timed_by verdict control_last syncs_last }
{
    match verdict {
        Verdict::Waiting => None,
        Verdict::Ready => Some((greater(control_last, syncs_last), Flow::Yes)),
        Verdict::Skipped => Some((control_last, Flow::No)),
    }
}

fn flows(alloc: Global, signals: &[Timed]) -> Result<Vec<Option<Flow>>, NoMemory>
    ensures { IfOk result (λ all. all.items ≡ map flow signals.now) }
{
    signals.iter().map(|signal| flow_of(*signal)).collect(alloc)
}

fn flow_of(signal: Timed) -> Option<Flow>
    ensures { result ≡ flow signal }
{
    match signal {
        None => None,
        Some((_, flow)) => Some(flow),
    }
}

// The latest position of the signals that a node waits for: a start waits for none.
fn awaited_latest(kind: NodeKind, control: &[Timed]) -> u32
    ensures { result ≡ latest (awaited kind control.now) }
{
    match kind {
        NodeKind::Start => 0,
        _ => latest(control),
    }
}

fn latest(signals: &[Timed]) -> u32
    ensures { result ≡ latest signals.now }
{
    let mut last = 0;
    for signal in signals {
        last = greater(last, position_of(*signal));
    }
    last
}

fn position_of(signal: Timed) -> u32
    ensures { result ≡ time signal }
{
    match signal {
        None => 0,
        Some((position, _)) => position,
    }
}

fn greater(a: u32, b: u32) -> u32
    ensures { result ≡ greater a b }
{
    if a < b { b } else { a }
}
