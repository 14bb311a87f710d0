// The nodes that edges leave, and what the edges signal.
ghost use Rattle.std.specs.Prelude.{◌≡◌, ◌+◌, ◌≤◌};
ghost use Rattle.wsm_marks.specs.Timed.{ended_signal, sig_of};
ghost use Rattle.wsm_settle.specs.{Signals.signal_by, Sources.{IsSource, KnowsSource, signal_of}};
ghost use Rattle.wsm_walk.specs.{Kept.timed_of, Listed.seen};

use crate::overlays::{MarkRows, mark_at};
use wsm_rules::{Flow, Mark, MarkReads, is_worked_on};
use wsm_schema::{End, Flat, NodeKind};

/// A position, and what holds from then on: of a node that it is ready or skipped, of an edge what it signals.
pub type Timed = Option<(u32, Flow)>;

/// A node that edges leave, with its kind and its mark. It has none, and signals nothing, where the schema has no such node.
#[derive(Clone, Copy)]
pub struct Source {
    node: u32,
    kept: Option<(NodeKind, Mark)>,
}

impl Source {
    /// What an edge with that label signals, and since when.
    pub fn signal(&self, label: Option<u16>) -> Timed
        ensures { result ≡ signal_of self.now.kept label }
    {
        match &self.kept {
            None => None,
            Some((kind, mark)) => signal(*kind, mark, label),
        }
    }
}

/// What an edge signals, and since when. Its source is read where it is not the one that is known, and is known then.
pub fn edge_signal<M: MarkReads, R: MarkRows>(
    flat: &Flat,
    marks: &mut M,
    changes: &R,
    known: &mut Option<Source>,
    end: &End,
) -> Timed
    requires { KnowsSource flat.now.cards (seen (M.kept marks.old) (R.rows changes.now)) known.old }
    ensures signal { result ≡ signal_by flat.now.cards (seen (M.kept marks.old) (R.rows changes.now)) end.now.label end.now.node }
    ensures known { KnowsSource flat.now.cards (seen (M.kept marks.old) (R.rows changes.now)) known.new }
    ensures same { M.kept marks.new ≡ M.kept marks.old }
    ensures rises { M.reads marks.old ≤ M.reads marks.new }
    ensures count { M.reads marks.new ≤ M.reads marks.old + 1 }
{
    if let Some(source) = known {
        if source.node == end.node {
            return source.signal(end.label);
        }
    }
    let source = read_source(flat, marks, changes, end.node);
    *known = Some(source);
    source.signal(end.label)
}

/// What an edge with that label signals that leaves the node, and since when.
pub fn signal_from<M: MarkReads, R: MarkRows>(
    flat: &Flat,
    marks: &mut M,
    changes: &R,
    node: u32,
    label: Option<u16>,
) -> Timed
    ensures signal { result ≡ signal_by flat.now.cards (seen (M.kept marks.old) (R.rows changes.now)) label node }
    ensures same { M.kept marks.new ≡ M.kept marks.old }
    ensures rises { M.reads marks.old ≤ M.reads marks.new }
    ensures count { M.reads marks.new ≤ M.reads marks.old + 1 }
{
    match flat.card(node) {
        None => None,
        Some(card) => signal(card.kind, &mark_at(marks, changes, node), label),
    }
}

// The node as a source of edges.
fn read_source<M: MarkReads, R: MarkRows>(
    flat: &Flat,
    marks: &mut M,
    changes: &R,
    node: u32,
) -> Source
    ensures source { IsSource flat.now.cards (seen (M.kept marks.old) (R.rows changes.now)) result }
    ensures node { result.node ≡ node }
    ensures same { M.kept marks.new ≡ M.kept marks.old }
    ensures rises { M.reads marks.old ≤ M.reads marks.new }
    ensures count { M.reads marks.new ≤ M.reads marks.old + 1 }
{
    match flat.card(node) {
        None => Source { node, kept: None },
        Some(card) => Source {
            node,
            kept: Some((card.kind, mark_at(marks, changes, node))),
        },
    }
}

/// Since when the mark says that its node is ready or skipped.
pub fn time_of(mark: &Mark) -> Timed
    ensures { result ≡ timed_of mark.now }
{
    match mark.skipped_at {
        Some(position) => Some((position, Flow::No)),
        None => match mark.ready_at {
            Some(position) => Some((position, Flow::Yes)),
            None => None,
        },
    }
}

// The signal of an edge with that label, by its source's kind and mark: a skip goes before an End.
fn signal(kind: NodeKind, mark: &Mark, label: Option<u16>) -> Timed
    ensures { result ≡ sig_of kind (timed_of mark.now) mark.now.ended mark.now.choice label }
{
    match time_of(mark) {
        Some((position, Flow::No)) => Some((position, Flow::No)),
        Some((position, Flow::Yes)) => {
            if is_worked_on(kind) {
                ended_signal(kind, mark, label)
            } else {
                Some((position, Flow::Yes))
            }
        }
        None => {
            if is_worked_on(kind) {
                ended_signal(kind, mark, label)
            } else {
                None
            }
        }
    }
}

// What a node that is worked on signals since its End.
fn ended_signal(kind: NodeKind, mark: &Mark, label: Option<u16>) -> Timed
    ensures { result ≡ ended_signal kind mark.now.ended mark.now.choice label }
{
    match mark.ended {
        None => None,
        Some(position) => {
            let chosen = label.is_none() || label == mark.choice;
            if kind == NodeKind::XorSplit && !chosen {
                Some((position, Flow::No))
            } else {
                Some((position, Flow::Yes))
            }
        }
    }
}
