// What entries that come, and entries that go, change of a created case.
ghost use Rattle.std.specs.Prelude.{◌≡◌, ◌+◌, ◌<◌, ◌≤◌, ◌^◌, Some, length, OnOk, OnErr, IfOk};
ghost use Rattle.case_core.specs.{Instances.{IsLive, live_in}, Kept.Kept, Machine.{repeated_trail, with_trail}, Remarks.{Remarks, RunsLoop}};
ghost use Rattle.wsm_schema.specs.Trail.{cut_by, pushed};
ghost use Rattle.wsm_schema.specs.declared.entries.Entry.TheVariants.{Again};
ghost use Rattle.wsm_trail.specs.{Cuts.StaysBelow, Withdrawn.{starts_of, withdrawn}};

use crate::item_changes::renew_items;
use crate::live::Live;
use std::alloc::Global;
use std::sync::ledger::Ledger;
use wsm_lists::Steps;
use wsm_rules::{Changes, CountedMarks};
use wsm_schema::{Entry, NoMemory, Nodes, Writes};
use wsm_trail::TrailKeep;

// For how many more marks a case gets room when it is worked on first.
const FIRST_MARKS: usize = 6;

// For how many more marks room is asked before an entry at that position, where so many may come.
fn room_for(position: u32, more: usize) -> usize
    ensures { more ≤ result }
{
    if position == 1 {
        more.max(FIRST_MARKS)
    } else {
        more
    }
}

impl Live {
    /// One more entry, with what it changes of the marks.
    pub(crate) fn append<T: TrailKeep>(
        &mut self,
        trail: &mut T,
        entry: Entry,
        changes: Changes,
    ) -> Result<(), NoMemory>
        requires live { IsLive (T.kept trail.old) self.old }
        requires position { (T.kept trail.old).next + 1 < 2 ^ 32 }
        requires kept { Kept (live_in (pushed entry (T.kept trail.old)) self.old) }
        requires marks { Remarks (live_in (T.kept trail.old) self.old) (pushed entry (T.kept trail.old)) changes }
        ensures live { IsLive (T.kept trail.new) self.new }
        ensures ok { OnOk result (live_in (T.kept trail.new) self.new ≡ live_in (pushed entry (T.kept trail.old)) self.old) }
        ensures err { OnErr result (live_in (T.kept trail.new) self.new ≡ live_in (T.kept trail.old) self.old) }
        ensures count { T.reads trail.new ≡ T.reads trail.old }
    {
        trail.reserve(1)?;
        self.marks.reserve(room_for(trail.next(), changes.len()))?;
        self.items.reserve(changes.len())?;
        renew_items(
            &self.now,
            &mut self.items,
            trail.next(),
            Some(&entry),
            &changes,
        );
        trail.push(entry);
        self.marks.take_in(changes);
        Ok(())
    }

    /// The case without the start of a node, with what that changes of the marks.
    pub(crate) fn drop_start<T: TrailKeep>(
        &mut self,
        trail: &mut T,
        node: u32,
        changes: Changes,
    ) -> Result<(), NoMemory>
        requires live { IsLive (T.kept trail.old) self.old }
        requires one { length (starts_of node (T.kept trail.old).entries) ≡ 1 }
        requires kept { Kept (live_in (withdrawn node (T.kept trail.old)) self.old) }
        requires marks { Remarks (live_in (T.kept trail.old) self.old) (withdrawn node (T.kept trail.old)) changes }
        ensures live { IsLive (T.kept trail.new) self.new }
        ensures ok { OnOk result (live_in (T.kept trail.new) self.new ≡ live_in (withdrawn node (T.kept trail.old)) self.old) }
        ensures err { OnErr result (live_in (T.kept trail.new) self.new ≡ live_in (T.kept trail.old) self.old) }
        ensures count { T.reads trail.new ≡ T.reads trail.old }
    {
        self.marks.reserve(changes.len())?;
        self.items.reserve(changes.len())?;
        renew_items(&self.now, &mut self.items, trail.next(), None, &changes);
        trail.drop_start(node);
        self.marks.take_in(changes);
        Ok(())
    }

    /// The loop that ends with the node goes on once more.
    pub(crate) fn repeat<T: TrailKeep, L: Ledger>(
        &mut self,
        alloc: Global,
        trail: &mut T,
        steps: &mut Steps<L>,
        node: u32,
        writes: Writes,
    ) -> Result<(), NoMemory>
        requires live { IsLive (T.kept trail.old) self.old }
        requires position { (T.kept trail.old).next + 1 < 2 ^ 32 }
        requires kept { Kept (live_in (repeated_trail (live_in (T.kept trail.old) self.old) node writes) self.old) }
        requires running { RunsLoop (live_in (T.kept trail.old) self.old) node }
        ensures live { IsLive (T.kept trail.new) self.new }
        ensures ok { OnOk result (live_in (T.kept trail.new) self.new ≡ live_in (repeated_trail (live_in (T.kept trail.old) self.old) node writes) self.old) }
        ensures err { OnErr result (live_in (T.kept trail.new) self.new ≡ live_in (T.kept trail.old) self.old) }
        ensures count { T.reads trail.new ≡ T.reads trail.old }
    {
        let case = self.of(trail);
        let body = case.checked().flat().loop_body(alloc, node)?;
        let mut marks = CountedMarks {
            marks: case.marks(),
            steps,
        };
        let first = case.first_seen(&mut marks, body.as_slice());
        let changes = case.again_changes(alloc, &mut marks, node)?;
        self.cut_and_append(trail, &body, first, node, writes, changes)
    }

    // The repeat of a loop with these nodes, behind the trail that is cut by it, with what both change of the marks. No entry
    // below `first` is of the loop.
    fn cut_and_append<T: TrailKeep>(
        &mut self,
        trail: &mut T,
        body: &Nodes,
        first: u32,
        node: u32,
        writes: Writes,
        changes: Changes,
    ) -> Result<(), NoMemory>
        requires live { IsLive (T.kept trail.old) self.old }
        requires position { (T.kept trail.old).next + 1 < 2 ^ 32 }
        requires kept { Kept (live_in (pushed (Again node writes) (cut_by body.now (T.kept trail.old))) self.old) }
        requires marks { Remarks (live_in (T.kept trail.old) self.old) (pushed (Again node writes) (cut_by body.now (T.kept trail.old))) changes }
        requires stays { StaysBelow first body.now (T.kept trail.old).entries }
        ensures live { IsLive (T.kept trail.new) self.new }
        ensures ok { OnOk result (live_in (T.kept trail.new) self.new ≡ live_in (pushed (Again node writes) (cut_by body.now (T.kept trail.old))) self.old) }
        ensures err { OnErr result (live_in (T.kept trail.new) self.new ≡ live_in (T.kept trail.old) self.old) }
        ensures count { T.reads trail.new ≡ T.reads trail.old }
    {
        let entry = Entry::Again { node, writes };
        trail.reserve(1)?;
        self.marks.reserve(changes.len())?;
        self.items.reserve(changes.len())?;
        renew_items(
            &self.now,
            &mut self.items,
            trail.next(),
            Some(&entry),
            &changes,
        );
        trail.cut_from(first, body);
        trail.push(entry);
        self.marks.take_in(changes);
        Ok(())
    }
}
