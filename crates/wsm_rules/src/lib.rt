//! The signals of edges, the rule that gives each node its state, and the marks of nodes.
#![tactic(auto)]

mod marks;

ghost use Rattle.std.specs.{Prelude.{◌≡◌, is_some, count_by}, List.list_all};
ghost use Rattle.wsm_schema.specs.{Kinds.worked_on, Rules.{signal_of, judge_of, is_ready, is_skipped, is_yes, is_no, is_begun, state_by}};

pub use marks::{Changes, CountedMarks, MarkReads, Marks};
use wsm_schema::{Card, NodeKind};
pub use wsm_schema::{BySpot, Flow, Mark, Marking, Spot, State, Verdict};

/// What an edge with that label signals, where its source is in that state, ended with that choice. None where it signals nothing yet. Sync edges have no label.
pub fn signal(source: &Card, state: State, choice: Option<u16>, label: Option<u16>) -> Option<Flow>
    ensures { result ≡ signal_of source.now.kind state choice label }
{
    match state {
        State::Completed => {
            let chosen = label.is_none() || label == choice;
            if source.kind == NodeKind::XorSplit && !chosen {
                Some(Flow::No)
            } else {
                Some(Flow::Yes)
            }
        }
        State::Skipped => Some(Flow::No),
        State::NotActivated | State::Activated | State::Running => None,
    }
}

/// What the signals of its incoming control edges and of its incoming sync edges make of a node, in the order of the card. A node is skipped by its control edges alone; it is ready only once each sync edge has signaled, true or false.
pub fn judge(card: &Card, control: &[Option<Flow>], syncs: &[Option<Flow>]) -> Verdict
    ensures { result ≡ judge_of card.now.kind control.now syncs.now }
{
    if is_ready(card.kind, control) {
        if all_signaled(syncs) {
            Verdict::Ready
        } else {
            Verdict::Waiting
        }
    } else if is_skipped(card.kind, control) {
        Verdict::Skipped
    } else {
        Verdict::Waiting
    }
}

/// Whether an actor starts and ends nodes of this kind. The other kinds are silent.
pub fn is_worked_on(kind: NodeKind) -> bool
    ensures { result ≡ worked_on kind }
{
    kind == NodeKind::Activity || kind == NodeKind::XorSplit || kind == NodeKind::LoopEnd
}

/// Whether an actor started or ended the node, so that no rule changes it any more.
pub fn is_begun(kind: NodeKind, state: State) -> bool
    ensures { result ≡ is_begun kind state }
{
    match state {
        State::Running => true,
        State::Completed => is_worked_on(kind),
        State::NotActivated | State::Activated | State::Skipped => false,
    }
}

/// The state of a node that was not begun.
pub fn state_by(kind: NodeKind, verdict: Verdict) -> State
    ensures { result ≡ state_by kind verdict }
{
    match verdict {
        Verdict::Waiting => State::NotActivated,
        Verdict::Skipped => State::Skipped,
        Verdict::Ready => {
            if is_worked_on(kind) {
                State::Activated
            } else {
                State::Completed
            }
        }
    }
}

// Whether the control edges alone make the node ready.
fn is_ready(kind: NodeKind, control: &[Option<Flow>]) -> bool
    ensures { result ≡ is_ready kind control.now }
{
    match kind {
        NodeKind::Start => true,
        NodeKind::XorJoin => all_signaled(control) && count_yes(control) == 1,
        NodeKind::Finish
        | NodeKind::Activity
        | NodeKind::AndSplit
        | NodeKind::AndJoin
        | NodeKind::XorSplit
        | NodeKind::LoopStart
        | NodeKind::LoopEnd => all_yes(control),
    }
}

fn is_skipped(kind: NodeKind, control: &[Option<Flow>]) -> bool
    ensures { result ≡ is_skipped kind control.now }
{
    match kind {
        NodeKind::Start => false,
        _ => all_no(control),
    }
}

fn all_signaled(signals: &[Option<Flow>]) -> bool
    ensures { result ≡ list_all is_some signals.now }
{
    signals.iter().all(|signal| signal.is_some())
}

fn all_yes(signals: &[Option<Flow>]) -> bool
    ensures { result ≡ list_all is_yes signals.now }
{
    signals.iter().all(|signal| is_yes(*signal))
}

fn all_no(signals: &[Option<Flow>]) -> bool
    ensures { result ≡ list_all is_no signals.now }
{
    signals.iter().all(|signal| is_no(*signal))
}

fn count_yes(signals: &[Option<Flow>]) -> usize
    ensures { result ≡ count_by is_yes signals.now }
{
    signals.iter().filter(|signal| is_yes(**signal)).count()
}

fn is_yes(signal: Option<Flow>) -> bool
    ensures { result ≡ is_yes signal }
{
    signal == Some(Flow::Yes)
}

fn is_no(signal: Option<Flow>) -> bool
    ensures { result ≡ is_no signal }
{
    signal == Some(Flow::No)
}
