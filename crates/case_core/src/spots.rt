// The spots of nodes, by their marks.
ghost use Rattle.std.specs.{Prelude.{◌≡◌, None}, Option.option_copied};
ghost use Rattle.wsm_marks.specs.Timed.{flow, verdict_of};
ghost use Rattle.wsm_schema.specs.Rules.{spot};
ghost use Rattle.wsm_schema.specs.declared.states.State.TheVariants as state;
ghost use Rattle.wsm_walk.specs.{Kept.{mark_or, timed_of}, MarkStates.mark_spot};

use wsm_rules::{Mark, Verdict, state_by};
use wsm_schema::{NodeKind, Spot, State};

/// The spot of a node of that kind, by its mark.
pub fn spot_by(kind: NodeKind, node: u32, mark: Option<&Mark>) -> Spot
    ensures { result ≡ mark_spot kind node (mark_or (option_copied mark.entry)) }
{
    match mark {
        None => unmarked(node),
        Some(mark) => marked(kind, node, mark),
    }
}

/// The spot of a node of which nothing is known.
pub fn unmarked(node: u32) -> Spot
    ensures { result ≡ spot node state.NotActivated None }
{
    Spot {
        node,
        state: State::NotActivated,
        choice: None,
    }
}

fn marked(kind: NodeKind, node: u32, mark: &Mark) -> Spot
    ensures { result ≡ mark_spot kind node mark.now }
{
    if mark.ended.is_some() {
        return Spot {
            node,
            state: State::Completed,
            choice: mark.choice,
        };
    }
    if mark.started.is_some() {
        return Spot {
            node,
            state: State::Running,
            choice: None,
        };
    }
    Spot {
        node,
        state: state_by(kind, verdict(mark)),
        choice: None,
    }
}

// What the edges of a node that was not begun make of it.
fn verdict(mark: &Mark) -> Verdict
    ensures { result ≡ verdict_of (flow (timed_of mark.now)) }
{
    match mark.skipped_at {
        Some(_) => Verdict::Skipped,
        None => match mark.ready_at {
            Some(_) => Verdict::Ready,
            None => Verdict::Waiting,
        },
    }
}
