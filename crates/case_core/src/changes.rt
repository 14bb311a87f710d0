// Changes of a case's schema.
ghost use Rattle.std.specs.Prelude.{◌≡◌, ◌+◌, ◌<◌, ◌≤◌, ◌^◌, [], ◌++◌, Ok, length, IfOk, IfErr, OnOk, OnErr};
ghost use Rattle.case_core.specs.{Instances.{IsLive, live_in, reads_onto, reads_where}, Kept.marks_in, Machine.{blocked_in, change_live, migrate_live, migrate_refusal, overlap_with, taken_on}};
ghost use Rattle.wsm_ops.specs.Apply.{applied};
ghost use Rattle.wsm_sound.specs.{Faults.changed_by, Refusals.IsRefusal, Versions.ops_after};

use crate::failing::FailingEntry;
use crate::live::Live;
use crate::live_of::LiveOf;
use crate::replies::{Reply, both};
use std::alloc::Global;
use std::sync::Arc;
use std::sync::ledger::Ledger;
use wsm_foot::{Name, overlap};
use wsm_lists::Steps;
use wsm_ops::{Op, Ops};
use wsm_rules::{CountedMarks, MarkReads};
use wsm_schema::{Entry, NoMemory, Writes};
use wsm_sound::{Checked, SoundRefusal, Version, change};
use wsm_trail::TrailKeep;

impl Live {
    /// The operations change the case's schema, where its trail replays on what they make.
    pub(crate) fn change<T: TrailKeep, L: Ledger>(
        &mut self,
        alloc: Global,
        trail: &mut T,
        steps: &mut Steps<L>,
        ops: &Ops,
    ) -> Result<(Reply, Reply), NoMemory>
        requires live { IsLive (T.kept trail.old) self.old }
        requires few { length self.old.own + length ops.now < 2 ^ 32 }
        ensures kept { IsLive (T.kept trail.new) self.new }
        ensures trail { T.kept trail.new ≡ T.kept trail.old }
        ensures live { IfOk result (λ replies. live_in (T.kept trail.new) self.new ≡ (change_live (live_in (T.kept trail.old) self.old) ops.now).0) }
        ensures first { IfOk result (λ replies. replies.0 ≡ (change_live (live_in (T.kept trail.old) self.old) ops.now).1) }
        ensures second { IfOk result (λ replies. replies.1 ≡ (change_live (live_in (T.kept trail.old) self.old) ops.now).1) }
        ensures err { OnErr result (live_in (T.kept trail.new) self.new ≡ live_in (T.kept trail.old) self.old) }
        ensures rises { T.reads trail.old ≤ T.reads trail.new }
        ensures reads { T.reads trail.new ≤ T.reads trail.old + reads_where self.old.now.value (changed_by self.old.now.value ops.now) }
    {
        let case = self.of(trail);
        let mut marks = CountedMarks {
            marks: case.marks(),
            steps,
        };
        if case.is_finished_read(&mut marks) {
            return both(alloc, Reply::Finished);
        }
        match changed(alloc, case.checked(), ops) {
            Ok(schema) => {
                let base = case.base().share()?;
                let own = joined(alloc, case.own(), ops)?;
                self.take(alloc, trail, steps, base, own, schema, Reply::Changed)
            }
            Err(refusal) => both(alloc, Reply::Unsound(refusal.fault()?)),
        }
    }

    /// The case moves to the version, where its trail replays on what its own operations make of the version's schema.
    pub(crate) fn migrate<T: TrailKeep, L: Ledger>(
        &mut self,
        alloc: Global,
        trail: &mut T,
        steps: &mut Steps<L>,
        version: &Version,
    ) -> Result<(Reply, Reply), NoMemory>
        requires { IsLive (T.kept trail.old) self.old }
        ensures kept { IsLive (T.kept trail.new) self.new }
        ensures trail { T.kept trail.new ≡ T.kept trail.old }
        ensures live { IfOk result (λ replies. live_in (T.kept trail.new) self.new ≡ (migrate_live (live_in (T.kept trail.old) self.old) version.now).0) }
        ensures first { IfOk result (λ replies. replies.0 ≡ (migrate_live (live_in (T.kept trail.old) self.old) version.now).1) }
        ensures second { IfOk result (λ replies. replies.1 ≡ (migrate_live (live_in (T.kept trail.old) self.old) version.now).1) }
        ensures err { OnErr result (live_in (T.kept trail.new) self.new ≡ live_in (T.kept trail.old) self.old) }
        ensures rises { T.reads trail.old ≤ T.reads trail.new }
        ensures reads { T.reads trail.new ≤ T.reads trail.old + reads_where self.old.now.value (changed_by version.now.schema self.old.own) }
    {
        let case = self.of(trail);
        let mut marks = CountedMarks {
            marks: case.marks(),
            steps,
        };
        if let Some(refusal) = case.migrate_refusal(alloc, &mut marks, version)? {
            return both(alloc, refusal);
        }
        match case.schema_on(alloc, version) {
            Ok(schema) => {
                let own = case.own().copy(alloc)?;
                let reply = Reply::Migrated(version.number());
                self.take(alloc, trail, steps, version.share()?, own, schema, reply)
            }
            Err(refusal) => both(alloc, Reply::Unsound(refusal.fault()?)),
        }
    }

    /// What the change would be answered: it is made of a copy, to which the trail is lent.
    pub(crate) fn try_change<T: TrailKeep, L: Ledger>(
        &self,
        alloc: Global,
        trail: &mut T,
        steps: &mut Steps<L>,
        ops: &Ops,
    ) -> Result<Reply, NoMemory>
        requires live { IsLive (T.kept trail.old) self.now }
        requires few { length self.now.own + length ops.now < 2 ^ 32 }
        ensures reply { IfOk result (λ reply. reply ≡ (change_live (live_in (T.kept trail.old) self.entry.now) ops.now).1) }
        ensures trail { T.kept trail.new ≡ T.kept trail.old }
    {
        let mut tried = self.of(trail).copy(alloc)?;
        let (reply, _) = tried.change(alloc, trail, steps, ops)?;
        Ok(reply)
    }

    /// What the migration would be answered: a copy is moved, to which the trail is lent.
    pub(crate) fn try_migrate<T: TrailKeep, L: Ledger>(
        &self,
        alloc: Global,
        trail: &mut T,
        steps: &mut Steps<L>,
        version: &Version,
    ) -> Result<Reply, NoMemory>
        requires { IsLive (T.kept trail.old) self.now }
        ensures reply { IfOk result (λ reply. reply ≡ (migrate_live (live_in (T.kept trail.old) self.entry.now) version.now).1) }
        ensures trail { T.kept trail.new ≡ T.kept trail.old }
    {
        let mut tried = self.of(trail).copy(alloc)?;
        let (reply, _) = tried.migrate(alloc, trail, steps, version)?;
        Ok(reply)
    }

    // The case on another schema, where its trail replays on it; else the first entry that fails is named.
    fn take<T: TrailKeep, L: Ledger>(
        &mut self,
        alloc: Global,
        trail: &mut T,
        steps: &mut Steps<L>,
        base: Version,
        own: Ops,
        schema: Arc<Checked>,
        reply: Reply,
    ) -> Result<(Reply, Reply), NoMemory>
        requires live { IsLive (T.kept trail.old) self.old }
        requires own { applied base.schema own ≡ Ok schema.value }
        requires few { length own < 2 ^ 32 }
        ensures kept { IsLive (T.kept trail.new) self.new }
        ensures trail { T.kept trail.new ≡ T.kept trail.old }
        ensures live { IfOk result (λ replies. live_in (T.kept trail.new) self.new ≡ (taken_on (live_in (T.kept trail.old) self.old) base own schema.value reply).0) }
        ensures first { IfOk result (λ replies. replies.0 ≡ (taken_on (live_in (T.kept trail.old) self.old) base own schema.value reply).1) }
        ensures second { IfOk result (λ replies. replies.1 ≡ (taken_on (live_in (T.kept trail.old) self.old) base own schema.value reply).1) }
        ensures err { OnErr result (live_in (T.kept trail.new) self.new ≡ live_in (T.kept trail.old) self.old) }
        ensures rises { T.reads trail.old ≤ T.reads trail.new }
        ensures reads { T.reads trail.new ≤ T.reads trail.old + reads_onto self.old.now.value schema.value }
    {
        let replies = both(alloc, reply)?;
        match self.try_on(alloc, trail, steps, base, own, schema)? {
            None => Ok(replies),
            Some(position) => both(alloc, blocked(alloc, trail, position)?),
        }
    }
}

// The reply that names the trail's entry at the position.
fn blocked<T: TrailKeep>(alloc: Global, trail: &mut T, position: u32) -> Result<Reply, NoMemory>
    ensures reply { IfOk result (λ reply. reply ≡ blocked_in (T.kept trail.old) position) }
    ensures trail { T.kept trail.new ≡ T.kept trail.old }
    ensures rises { T.reads trail.old ≤ T.reads trail.new }
    ensures reads { T.reads trail.new ≤ T.reads trail.old + 1 }
{
    let entry = match trail.entry(position) {
        Some(entry) => entry.copy(alloc)?,
        None => nothing_written(alloc),
    };
    Ok(Reply::Blocked(position, FailingEntry::of(alloc, entry)?))
}

impl<'a, T: TrailKeep> LiveOf<'a, T> {
    // The first reason, before any schema is made, why the case may not move to the version.
    fn migrate_refusal<M: MarkReads>(
        &self,
        alloc: Global,
        marks: &mut M,
        version: &Version,
    ) -> Result<Option<Reply>, NoMemory>
        requires marks { M.kept marks.old ≡ marks_in self.now }
        ensures refusal { IfOk result (λ refusal. refusal ≡ migrate_refusal self.now version.now) }
        ensures same { M.kept marks.new ≡ M.kept marks.old }
        ensures rises { M.reads marks.old ≤ M.reads marks.new }
        ensures count { M.reads marks.new ≤ M.reads marks.old + 1 }
    {
        let base = self.base().number();
        if version.number() <= base {
            return Ok(Some(Reply::NotNewer(base)));
        }
        if self.is_finished_read(marks) {
            return Ok(Some(Reply::Finished));
        }
        match self.overlap_with(alloc, version)? {
            Some(name) => Ok(Some(Reply::Overlap(name))),
            None => Ok(None),
        }
    }

    // What the case's own operations and those that made the versions since its base have in common. Where it has none, that
    // is nothing.
    #[tactic(auto, unfolding(crate::specs::Machine::overlap_with))]
    fn overlap_with(&self, alloc: Global, version: &Version) -> Result<Option<Name>, NoMemory>
        ensures { IfOk result (λ name. name ≡ overlap_with self.now version.now) }
    {
        let own = self.own();
        if own.is_empty() {
            return Ok(None);
        }
        let later = ops_after(alloc, version, self.base().number())?;
        overlap(alloc, own, &later)
    }

    // What the case's own operations make of the version's schema, which is shared where there are none.
    fn schema_on(&self, alloc: Global, version: &Version) -> Result<Arc<Checked>, SoundRefusal>
        ensures ok { IfOk result (λ schema. changed_by version.now.schema self.now.own ≡ Ok schema.value) }
        ensures fault { IfErr result (λ refusal. IsRefusal (changed_by version.now.schema self.now.own) refusal) }
    {
        if self.own().is_empty() {
            return Ok(version.share_schema()?);
        }
        changed(alloc, version.checked(), self.own())
    }
}

// The operations that made the versions after the one with this number.
fn ops_after(alloc: Global, version: &Version, number: u32) -> Result<Ops, NoMemory>
    requires { 0 < number }
    ensures { IfOk result (λ ops. ops ≡ ops_after number version.now) }
{
    let lists = version.lineage().as_slice();
    let mut all = Vec::new(alloc);
    for i in number as usize - 1..lists.len() {
        append(&mut all, &lists[i])?;
    }
    Ok(Ops::from_vec(all))
}

// The operations, and then more.
fn joined(alloc: Global, first: &Ops, more: &Ops) -> Result<Ops, NoMemory>
    ensures { IfOk result (λ ops. ops ≡ first.now ++ more.now) }
{
    let mut all = Vec::with_capacity(alloc, first.len().saturating_add(more.len()))?;
    append(&mut all, first)?;
    append(&mut all, more)?;
    Ok(Ops::from_vec(all))
}

fn append(all: &mut Vec<Op>, ops: &Ops) -> Result<(), NoMemory>
    ensures { OnOk result (all.new.items ≡ all.old.items ++ ops.now) }
{
    all.extend_from_slice(ops.as_slice())?;
    Ok(())
}

// What the operations make of a schema, to be shared.
fn changed(alloc: Global, checked: &Checked, ops: &Ops) -> Result<Arc<Checked>, SoundRefusal>
    requires { length ops.now < 2 ^ 32 }
    ensures ok { IfOk result (λ schema. changed_by checked.now ops.now ≡ Ok schema.value) }
    ensures fault { IfErr result (λ refusal. IsRefusal (changed_by checked.now ops.now) refusal) }
{
    let checked = change(alloc, checked, ops)?;
    Ok(shared(alloc, checked)?)
}

// The schema, to be shared.
fn shared(alloc: Global, checked: Checked) -> Result<Arc<Checked>, NoMemory>
    ensures { IfOk result (λ schema. schema.value ≡ checked) }
{
    Ok(Arc::new(alloc, checked)?)
}

fn nothing_written(alloc: Global) -> Entry
    ensures { result ≡ Entry.Wrote [] }
{
    Entry::Wrote {
        writes: Writes::new(alloc),
    }
}
