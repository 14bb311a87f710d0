// Where the round of a loop begins in a trail.
ghost use Rattle.std.specs.{Prelude.{◌≡◌, ◌+◌, ◌≤◌, length}, Option.option_copied};
ghost use Rattle.case_core.specs.Rounds.{first_seen, lesser, seen_before};
ghost use Rattle.wsm_walk.specs.Kept.{mark_or};

use wsm_rules::{Mark, MarkReads};

/// The least of a position and of those at which one of the nodes was started or repeated.
pub fn first_seen<M: MarkReads>(marks: &mut M, nodes: &[u32], position: u32) -> u32
    ensures first { result ≡ first_seen (M.kept marks.old) nodes.now position }
    ensures same { M.kept marks.new ≡ M.kept marks.old }
    ensures rises { M.reads marks.old ≤ M.reads marks.new }
    ensures count { M.reads marks.new ≤ M.reads marks.old + length nodes.now }
{
    let mut first = position;
    for node in nodes {
        first = seen_before(marks.get(*node).as_ref(), first);
    }
    first
}

// The least of a position and of those at which the node of the mark was started and repeated.
fn seen_before(mark: Option<&Mark>, position: u32) -> u32
    ensures { result ≡ seen_before (mark_or (option_copied mark.entry)) position }
{
    match mark {
        None => position,
        Some(mark) => lesser(mark.again, lesser(mark.started, position)),
    }
}

fn lesser(one: Option<u32>, other: u32) -> u32
    ensures { result ≡ lesser one other }
{
    match one {
        None => other,
        Some(position) => { if position < other { position } else { other } }
    }
}
