// The marks of a whole trail.
ghost use Rattle.std.specs.Prelude.{◌≡◌, [], Some, is_some, OnOk, IfOk, if◌then◌else◌};
ghost use Rattle.wsm_lists.specs.ByNumber.{changed};
ghost use Rattle.wsm_schema.specs.{Rank.IsRank, declared.marks.Mark.Mark, Replay.replay_of};
ghost use Rattle.wsm_settle.specs.Timing.{IsTimed, MarksRight, failed_at, position_in};
ghost use Rattle.wsm_walk.specs.{Listed.seen, Told.{node_of, tell, tell_row, told_rows}};

use crate::openings::opening_marks;
use crate::overlays::{Overlay, or_blank};
use crate::walks::walk_all;
use std::alloc::Global;
use wsm_lists::{GrowingTable, NoMemory};
use wsm_replay::{Replayed, replay};
use wsm_rules::{Changes, Mark, MarkReads, Marks};
use wsm_schema::{Entry, Flat, Rank};
use wsm_trail::Trail;

/// The marks of a trail that replays whole, or the position of the first entry that is not applicable.
#[derive(Drop)]
pub enum TimedMarks {
    Whole(Marks),
    Fails { position: u32 },
}

/// No marks at all.
#[derive(Drop)]
pub struct NoMarks;

impl MarkReads for NoMarks {
    ghost kept = { λ m. [] };

    ghost reads = { λ m. 0 };

    fn get(&mut self, _node: u32) -> Option<Mark> {
        None
    }
}

/// The replay of the trail, with the marks that it leaves.
pub fn timed(alloc: Global, flat: &Flat, rank: &Rank, trail: &Trail) -> Result<TimedMarks, NoMemory>
    requires { IsRank flat.now.cards rank.now }
    ensures { IfOk result (λ timed. IsTimed flat.now trail.now.trail.entries timed) }
{
    match failure(alloc, flat, rank, trail)? {
        Some(position) => Ok(TimedMarks::Fails { position }),
        None => Ok(TimedMarks::Whole(marks_of(alloc, flat, rank, trail)?)),
    }
}

// The position of the first entry that is not applicable.
fn failure(alloc: Global, flat: &Flat, rank: &Rank, trail: &Trail) -> Result<Option<u32>, NoMemory>
    requires { IsRank flat.now.cards rank.now }
    ensures { IfOk result (λ position. position ≡ failed_at (replay_of flat.now trail.now.trail.entries)) }
{
    if trail.entries().is_empty() {
        return Ok(None);
    }
    let replayed = replay(alloc, flat, rank, trail)?;
    Ok(position_of(&replayed))
}

fn position_of(replayed: &Replayed) -> Option<u32>
    ensures { result ≡ position_in replayed.now }
{
    match replayed {
        Replayed::Whole(_) => None,
        Replayed::Fails { position } => Some(*position),
    }
}

// The marks of a trail that replays whole: what its entries tell, and then the times, by a walk over all nodes. Before any entry few
// nodes have marks, and the walk visits no others.
fn marks_of(alloc: Global, flat: &Flat, rank: &Rank, trail: &Trail) -> Result<Marks, NoMemory>
    ensures { IfOk result (λ marks. MarksRight flat.now rank.now trail.now.trail.entries marks.rows) }
{
    let entries = trail.entries();
    if entries.is_empty() {
        return opening_marks(alloc, flat, rank);
    }
    let mut changes = told_by(alloc, entries)?;
    walk_all(alloc, flat, rank, &mut NoMarks, &mut changes)?;
    taken_in(alloc, changes.into_table(alloc)?)
}

/// The marks that changes make of none.
pub fn taken_in(alloc: Global, changes: Changes) -> Result<Marks, NoMemory>
    ensures { IfOk result (λ marks. marks.rows ≡ changed changes []) }
{
    let mut marks = Marks::new(alloc);
    marks.reserve(changes.len())?;
    marks.take_in(changes);
    Ok(marks)
}

// What entries tell of their nodes, one after another.
fn told_by(alloc: Global, entries: &[(u32, Entry)]) -> Result<Overlay, NoMemory>
    ensures { IfOk result (λ changes. changes ≡ told_rows entries.now []) }
{
    let mut changes = GrowingTable::new(alloc);
    for (position, entry) in entries {
        note(&mut changes, *position, entry)?;
    }
    Ok(changes)
}

// What one more entry tells of its node.
fn note(changes: &mut Overlay, position: u32, entry: &Entry) -> Result<(), NoMemory>
    ensures { OnOk result (changes.new ≡ tell_row (position, entry.now) (node_of entry.now) changes.old) }
{
    match node_of(entry) {
        None => Ok(()),
        Some(node) => {
            let mark = told(changes, node);
            changes.set((node, Some(tell(position, entry, mark))))
        }
    }
}

// What earlier entries told of a node.
fn told(changes: &Overlay, node: u32) -> Mark
    ensures { result ≡ seen [] changes.now node }
{
    match changes.find((node, 0)) {
        Some(row) => or_blank(row.1),
        None => or_blank(None),
    }
}

// The node of which an entry tells.
fn node_of(entry: &Entry) -> Option<u32>
    ensures { result ≡ node_of entry.now }
{
    match entry {
        Entry::Start { node, .. } => Some(*node),
        Entry::End { node, .. } => Some(*node),
        Entry::Again { node, .. } => Some(*node),
        Entry::Wrote { .. } => None,
    }
}

// The mark with what an entry tells: the first Start, End and Again count.
fn tell(position: u32, entry: &Entry, mark: Mark) -> Mark
    ensures { result ≡ tell position entry.now mark }
{
    match entry {
        Entry::Start { .. } => Mark {
            started: mark.started.or(Some(position)),
            ..mark
        },
        Entry::End { choice, .. } => ended(position, *choice, mark),
        Entry::Again { .. } => Mark {
            again: mark.again.or(Some(position)),
            ..mark
        },
        Entry::Wrote { .. } => mark,
    }
}

// The mark with an End, where it has none.
fn ended(position: u32, choice: Option<u16>, mark: Mark) -> Mark
    ensures { result ≡ (if is_some mark.ended then mark else record mark { ended = Some position; choice = choice }) }
{
    if mark.ended.is_some() {
        return mark;
    }
    Mark {
        ended: Some(position),
        choice,
        ..mark
    }
}
