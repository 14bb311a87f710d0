// What becomes of the marks of a trail on a changed schema.
ghost use Rattle.std.specs.Prelude.{◌≡◌, ◌+◌, ◌<◌, ◌≤◌, ◌^◌, length, OnOk};
ghost use Rattle.wsm_adapt.specs.{Adapted.marks_to_read, Region.IsNet};

use crate::schemas::row_of;
use std::alloc::Global;
use std::marker::Brand;
use std::sync::ledger::{Blank, Ledger};
use std::test::Fail;
use wsm_adapt::{Adapted, adapt};
use wsm_lists::Steps;
use wsm_schema::{
    Block, Branch, Branches, Entry, Flat, Items, NoMemory, Nodes, Rank, ReadValues, Schema, Writes,
};
use wsm_settle::{CountedMarks, Mark, MarkReads, Marks, TimedMarks, timed};
use wsm_sound::{Checked, check};
use wsm_touch::touched;
use wsm_trail::{CountedTrail, Trail, TrailReads};

// Marks, with a number of their reads.
#[derive(Drop)]
struct MarkReader<'a> {
    marks: &'a Marks,
    reads: u32,
}

impl<'a> MarkReads for MarkReader<'a> {
    ghost kept = { λ r. r.marks.now.rows };

    ghost reads = { λ r. r.reads };

    fn get(&mut self, node: u32) -> Option<Mark> {
        self.reads = self.reads.saturating_add(1);
        self.marks.get(node).copied()
    }
}

// A trail, with a number of its reads.
#[derive(Drop)]
struct TrailReader<'a> {
    trail: &'a Trail,
    reads: u32,
}

impl<'a> TrailReads for TrailReader<'a> {
    ghost kept = { λ r. r.trail.now.trail };

    ghost reads = { λ r. r.reads };

    fn entry(&mut self, position: u32) -> Option<&Entry> {
        self.reads = self.reads.saturating_add(1);
        self.trail.entry(position)
    }
}

// A block from 2 to 3 of which one branch is empty and the other has the activity 4 and another, and behind it 6 and a last one.
fn chosen(alloc: Global, inside: u32, last: u32) -> Result<Schema, NoMemory> {
    let block = block_of(alloc, row(alloc, &[4, inside])?)?;
    let mut items = Items::new(alloc);
    items.push(block)?;
    items.push(Block::Act(6))?;
    items.push(Block::Act(last))?;
    Ok(Schema::new(alloc, 0, 1, items))
}

fn row(alloc: Global, nodes: &[u32]) -> Result<Items, NoMemory> {
    let mut items = Items::new(alloc);
    for node in nodes {
        items.push(Block::Act(*node))?;
    }
    Ok(items)
}

fn block_of(alloc: Global, items: Items) -> Result<Block, NoMemory> {
    Ok(Block::Xor {
        split: 2,
        join: 3,
        branches: branches(alloc, items)?,
    })
}

fn branches(alloc: Global, items: Items) -> Result<Branches, NoMemory> {
    let none = Branch {
        code: 3,
        items: Items::new(alloc),
    };
    let some = Branch { code: 1, items };
    Ok(vec![in alloc; none, some]?)
}

// A node was started and ended.
fn work(alloc: Global, trail: &mut Trail, node: u32, choice: Option<u16>) -> Result<(), NoMemory>
    requires { trail.old.trail.next + 2 < 2 ^ 32 }
    ensures { OnOk result (trail.new.trail.next ≡ trail.old.trail.next + 2) }
{
    trail.reserve(2)?;
    trail.push(Entry::Start {
        node,
        user: 7,
        reads: ReadValues::new(alloc),
    });
    trail.push(Entry::End {
        node,
        writes: Writes::new(alloc),
        choice,
    });
    Ok(())
}

// Start 2, End 2 with choice 3, Start 6, End 6, Start 7, End 7, at the positions 1 to 6.
fn worked(alloc: Global) -> Result<Trail, NoMemory> {
    let mut trail = Trail::new(alloc);
    work(alloc, &mut trail, 2, Some(3))?;
    work(alloc, &mut trail, 6, None)?;
    work(alloc, &mut trail, 7, None)?;
    Ok(trail)
}

// The activity 2 was started and ended.
fn begun(alloc: Global) -> Result<Trail, NoMemory> {
    let mut trail = Trail::new(alloc);
    work(alloc, &mut trail, 2, None)?;
    Ok(trail)
}

// What becomes of the marks of a trail that replays on its own schema.
fn adapted(alloc: Global, old: &Checked, new: &Checked, trail: &Trail) -> Option<Adapted> {
    let marks = marks_of(alloc, old, trail)?;
    moved(alloc, old, new, &marks, trail).ok()
}

fn marks_of(alloc: Global, checked: &Checked, trail: &Trail) -> Option<Marks> {
    match timed(alloc, checked.flat(), checked.rank(), trail).ok()? {
        TimedMarks::Whole(marks) => Some(marks),
        TimedMarks::Fails { .. } => None,
    }
}

fn moved(
    alloc: Global,
    old: &Checked,
    new: &Checked,
    marks: &Marks,
    trail: &Trail,
) -> Result<Adapted, NoMemory> {
    let mut marks = MarkReader { marks, reads: 0 };
    let mut trail = TrailReader { trail, reads: 0 };
    moved_by(alloc, old, new, &mut marks, &mut trail)
}

fn moved_by<M: MarkReads, T: TrailReads>(
    alloc: Global,
    old: &Checked,
    new: &Checked,
    marks: &mut M,
    trail: &mut T,
) -> Result<Adapted, NoMemory> {
    let nodes = touched(alloc, old.flat(), new.flat())?;
    adapt(
        alloc,
        old.flat(),
        new.flat(),
        new.rank(),
        &nodes,
        marks,
        trail,
    )
}

fn sound(alloc: Global, schema: Result<Schema, NoMemory>) -> Option<Checked> {
    check(alloc, schema.ok()?).ok()
}

// Where the trail fails once 5 and 7 are exchanged, so that 7 is skipped with its branch.
fn exchanged(alloc: Global) -> Option<u32> {
    let old = sound(alloc, chosen(alloc, 5, 7))?;
    exchanged_in(alloc, &old)
}

fn exchanged_in(alloc: Global, old: &Checked) -> Option<u32> {
    let new = sound(alloc, chosen(alloc, 7, 5))?;
    blocked_at(alloc, old, &new)
}

fn blocked_at(alloc: Global, old: &Checked, new: &Checked) -> Option<u32> {
    let trail = worked(alloc).ok()?;
    position(adapted(alloc, old, new, &trail)?)
}

fn position(adapted: Adapted) -> Option<u32> {
    match adapted {
        Adapted::Blocked { position } => Some(position),
        Adapted::Moved(_) => None,
    }
}

#[test]
fn a_node_that_is_moved_into_a_skipped_branch(rt: HostRuntime) -> Result<(), Fail> {
    assert!(rt; exchanged(rt.alloc()) == Some(5));
    Ok(())
}

// What becomes of the nodes 3 and 4 once 4 is inserted between 2, which was ended, and 3.
fn inserted(alloc: Global) -> Option<[Option<Option<Mark>>; 2]> {
    let old = sound(alloc, row_of(alloc, &[2, 3]))?;
    inserted_in(alloc, &old)
}

fn inserted_in(alloc: Global, old: &Checked) -> Option<[Option<Option<Mark>>; 2]> {
    let new = sound(alloc, row_of(alloc, &[2, 4, 3]))?;
    changes(alloc, old, &new)
}

fn changes(alloc: Global, old: &Checked, new: &Checked) -> Option<[Option<Option<Mark>>; 2]> {
    let trail = begun(alloc).ok()?;
    let adapted = adapted(alloc, old, new, &trail)?;
    Some([change_of(&adapted, 3), change_of(&adapted, 4)])
}

fn change_of(adapted: &Adapted, node: u32) -> Option<Option<Mark>> {
    match adapted {
        Adapted::Moved(changes) => changes.find((node, 0)).map(|change| change.1),
        Adapted::Blocked { .. } => None,
    }
}

const READY: Mark = Mark {
    ready_at: Some(2),
    skipped_at: None,
    started: None,
    ended: None,
    choice: None,
    again: None,
};

#[test]
fn a_node_that_is_inserted_before_a_ready_one(rt: HostRuntime) -> Result<(), Fail> {
    assert!(rt; inserted(rt.alloc()) == Some([Some(None), Some(Some(READY))]));
    Ok(())
}

// How many marks and how many entries are read for that.
fn reads(alloc: Global, old: &Checked, new: &Checked, trail: &Trail) -> Option<[u32; 2]> {
    let marks = marks_of(alloc, old, trail)?;
    let mut marks = MarkReader {
        marks: &marks,
        reads: 0,
    };
    let mut trail = TrailReader { trail, reads: 0 };
    let _ = moved_by(alloc, old, new, &mut marks, &mut trail).ok()?;
    Some([marks.reads, trail.reads])
}

fn reads_of_inserted(alloc: Global) -> Option<[u32; 2]> {
    let old = sound(alloc, row_of(alloc, &[2, 3]))?;
    let new = sound(alloc, row_of(alloc, &[2, 4, 3]))?;
    let trail = begun(alloc).ok()?;
    reads(alloc, &old, &new, &trail)
}

// The schemas differ in 2, 4 and 3, from which the finish 1 is reached: a mark for each of these four and one for the edge from
// the start into 2, and an entry for each of the three.
#[test]
fn no_more_is_read_than_is_touched(rt: HostRuntime) -> Result<(), Fail> {
    let [marks, entries] = reads_of_inserted(rt.alloc()).ok_or("reads")?;
    assert!(rt; 0 < marks && marks <= 5);
    assert!(rt; 0 < entries && entries <= 3);
    Ok(())
}

// The same over readers of which each read is a step: the steps are no more than the bounds.
fn within<L: Ledger, K: Ledger>(
    alloc: Global,
    old: &Flat,
    new: &Flat,
    rank: &Rank,
    touched: &Nodes,
    marks: &mut CountedMarks<'_, L>,
    trail: &mut CountedTrail<'_, K>,
) -> Result<Adapted, NoMemory>
    requires net { IsNet new.now rank.now }
    requires no_marks { marks.old.steps.now ≡ 0 }
    requires no_entries { trail.old.steps.now ≡ 0 }
    ensures marks { marks.new.steps.now ≤ marks_to_read new.now rank.now touched.now }
    ensures entries { trail.new.steps.now ≤ length touched.now }
{
    adapt(alloc, old, new, rank, touched, marks, trail)
}

fn counted<L: Ledger, K: Ledger>(
    alloc: Global,
    old: &Checked,
    new: &Checked,
    trail: &Trail,
    marks_blank: Blank,
    trail_blank: Blank,
) -> Option<Adapted>
    requires marks_name { marks_blank.name ≡ L.name }
    requires marks_parts { marks_blank.parts ≡ L.parts }
    requires marks_some { 0 < marks_blank.parts }
    requires trail_name { trail_blank.name ≡ K.name }
    requires trail_parts { trail_blank.parts ≡ K.parts }
    requires trail_some { 0 < trail_blank.parts }
{
    let mut marks_steps = Steps::<L>::open(marks_blank);
    let mut trail_steps = Steps::<K>::open(trail_blank);
    let nodes = touched(alloc, old.flat(), new.flat()).ok()?;
    let kept = marks_of(alloc, old, trail)?;
    let mut marks = CountedMarks {
        marks: &kept,
        steps: &mut marks_steps,
    };
    let mut trail = CountedTrail {
        trail,
        steps: &mut trail_steps,
    };
    within(
        alloc,
        old.flat(),
        new.flat(),
        new.rank(),
        &nodes,
        &mut marks,
        &mut trail,
    )
    .ok()
}

fn counted_in(alloc: Global, old: &Checked, new: &Checked) -> Option<Adapted> {
    let trail = worked(alloc).ok()?;
    counted::<Brand, Brand>(alloc, old, new, &trail, Blank::new(1), Blank::new(1))
}

fn counted_position(alloc: Global) -> Option<u32> {
    let old = sound(alloc, chosen(alloc, 5, 7))?;
    let new = sound(alloc, chosen(alloc, 7, 5))?;
    position(counted_in(alloc, &old, &new)?)
}

#[test]
fn counted_readers_give_the_same(rt: HostRuntime) -> Result<(), Fail> {
    assert!(rt; counted_position(rt.alloc()) == Some(5));
    Ok(())
}
