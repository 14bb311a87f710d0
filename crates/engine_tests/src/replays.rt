// A replay, and the marks that a replay leaves.
use crate::schemas::row_of;
use std::alloc::Global;
use std::test::Fail;
use wsm_replay::{Replayed, replay, spot_in};
use wsm_schema::{Entry, Mark, NoMemory, ReadValues, State, Writes};
use wsm_settle::{TimedMarks, timed};
use wsm_sound::{Checked, check};
use wsm_trail::Trail;

// The activity 2 alone.
fn one_activity(alloc: Global) -> Option<Checked> {
    check(alloc, row_of(alloc, &[2]).ok()?).ok()
}

// The state of a node, where the replay is whole.
fn state(replayed: &Replayed, node: u32) -> Option<State> {
    match replayed {
        Replayed::Whole(marking) => Some(spot_in(marking, node).state),
        Replayed::Fails { .. } => None,
    }
}

// Node 2 was started.
fn started(alloc: Global) -> Result<Trail, NoMemory> {
    let mut trail = Trail::new(alloc);
    trail.reserve(1)?;
    trail.push(Entry::Start {
        node: 2,
        user: 7,
        reads: ReadValues::new(alloc),
    });
    Ok(trail)
}

// Node 2 was started and ended.
fn ended(alloc: Global) -> Result<Trail, NoMemory> {
    let mut trail = Trail::new(alloc);
    trail.reserve(2)?;
    trail.push(Entry::Start {
        node: 2,
        user: 7,
        reads: ReadValues::new(alloc),
    });
    trail.push(Entry::End {
        node: 2,
        writes: Writes::new(alloc),
        choice: None,
    });
    Ok(trail)
}

// The state of a node behind a trail, where that replays whole.
fn state_behind(
    alloc: Global,
    checked: &Checked,
    trail: &Trail,
    node: u32,
) -> Result<Option<State>, NoMemory> {
    let replayed = replay(alloc, checked.flat(), checked.rank(), trail)?;
    Ok(state(&replayed, node))
}

// The state of node 2 at its start, and those of it and of the finish node behind its end.
fn states(alloc: Global, checked: &Checked) -> Result<[Option<State>; 3], NoMemory> {
    let (before, behind) = (started(alloc)?, ended(alloc)?);
    Ok([
        state_behind(alloc, checked, &before, 2)?,
        state_behind(alloc, checked, &behind, 2)?,
        state_behind(alloc, checked, &behind, 1)?,
    ])
}

fn states_of_activity(alloc: Global) -> Option<[Option<State>; 3]> {
    states(alloc, &one_activity(alloc)?).ok()
}

const EXPECTED: [Option<State>; 3] = [
    Some(State::Running),
    Some(State::Completed),
    Some(State::Completed),
];

#[test]
fn a_start_and_then_an_end(rt: HostRuntime) -> Result<(), Fail> {
    assert!(rt; states_of_activity(rt.alloc()) == Some(EXPECTED));
    Ok(())
}

// Where the trail fails.
fn failure_of(alloc: Global, checked: &Checked, trail: &Trail) -> Result<Option<u32>, NoMemory> {
    match timed(alloc, checked.flat(), checked.rank(), trail)? {
        TimedMarks::Whole(_) => Ok(None),
        TimedMarks::Fails { position } => Ok(Some(position)),
    }
}

// Node 2 was started and ended, and then 3 was started.
fn behind_the_first(alloc: Global) -> Result<Trail, NoMemory> {
    let mut trail = ended(alloc)?;
    trail.reserve(1)?;
    if trail.next() == 3 {
        trail.push(Entry::Start {
            node: 3,
            user: 7,
            reads: ReadValues::new(alloc),
        });
    }
    Ok(trail)
}

fn failure_in(alloc: Global, checked: &Checked) -> Result<Option<u32>, NoMemory> {
    failure_of(alloc, checked, &behind_the_first(alloc)?)
}

// Where that fails in a row of these nodes.
fn failure(alloc: Global, nodes: &[u32]) -> Option<Option<u32>> {
    let checked = check(alloc, row_of(alloc, nodes).ok()?).ok()?;
    failure_in(alloc, &checked).ok()
}

#[test]
fn a_node_before_one_that_was_started(rt: HostRuntime) -> Result<(), Fail> {
    assert!(rt; failure(rt.alloc(), &[2, 3]) == Some(None));
    assert!(rt; failure(rt.alloc(), &[2, 4, 3]) == Some(Some(3)));
    Ok(())
}

// The mark of a node, where the trail replays whole.
fn mark_behind(
    alloc: Global,
    checked: &Checked,
    trail: &Trail,
    node: u32,
) -> Result<Option<Mark>, NoMemory> {
    match timed(alloc, checked.flat(), checked.rank(), trail)? {
        TimedMarks::Whole(marks) => Ok(marks.get(node).copied()),
        TimedMarks::Fails { .. } => Ok(None),
    }
}

fn mark_of_started(alloc: Global, checked: &Checked) -> Result<Option<Mark>, NoMemory> {
    mark_behind(alloc, checked, &started(alloc)?, 2)
}

fn mark_of_activity(alloc: Global) -> Option<Mark> {
    mark_of_started(alloc, &one_activity(alloc)?).ok()?
}

const STARTED: Mark = Mark {
    ready_at: Some(0),
    skipped_at: None,
    started: Some(1),
    ended: None,
    choice: None,
    again: None,
};

#[test]
fn marks_behind_a_start(rt: HostRuntime) -> Result<(), Fail> {
    assert!(rt; mark_of_activity(rt.alloc()) == Some(STARTED));
    Ok(())
}
