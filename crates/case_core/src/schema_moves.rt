// A created case on another schema.
ghost use Rattle.std.specs.Prelude.{◌≡◌, ◌+◌, ◌<◌, ◌≤◌, ◌^◌, Ok, length, IfOk, OnOk, OnErr};
ghost use Rattle.case_core.specs.{CaseModel.{on_schema, replay_of_case, tried_on}, Instances.{IsLive, live_in}, Kept.Kept, Machine.failed_at, Remarks.{IsAdaptedTo, Moves, ReadsOnto}};
ghost use Rattle.wsm_ops.specs.Apply.{applied};
ghost use Rattle.wsm_schema.specs.Flat.{flat_of};
ghost use Rattle.wsm_sound.specs.Flattened.{IsChecked};
ghost use Rattle.wsm_touch.specs.TouchedNodes.{touched_nodes};

use crate::item_changes::renew_items;
use crate::live::Live;
use std::alloc::Global;
use std::sync::Arc;
use std::sync::ledger::Ledger;
use wsm_adapt::{Adapted, adapt};
use wsm_lists::Steps;
use wsm_ops::Ops;
use wsm_rules::{Changes, CountedMarks, MarkReads};
use wsm_schema::NoMemory;
use wsm_sound::{Checked, Version};
use wsm_touch::touched;
use wsm_trail::TrailKeep;

impl Live {
    /// The case on another version or schema, where its trail replays on that; else the case is as before, and this is the
    /// position of the first entry that fails.
    pub(crate) fn try_on<T: TrailKeep, L: Ledger>(
        &mut self,
        alloc: Global,
        trail: &mut T,
        steps: &mut Steps<L>,
        base: Version,
        own: Ops,
        schema: Arc<Checked>,
    ) -> Result<Option<u32>, NoMemory>
        requires live { IsLive (T.kept trail.old) self.old }
        requires own { applied base.schema own ≡ Ok schema.value }
        requires few { length own < 2 ^ 32 }
        ensures kept { IsLive (T.kept trail.new) self.new }
        ensures trail { T.kept trail.new ≡ T.kept trail.old }
        ensures failed { IfOk result (λ failed. failed ≡ failed_at (replay_of_case (on_schema (live_in (T.kept trail.old) self.old) base own schema.value))) }
        ensures live { IfOk result (λ failed. live_in (T.kept trail.new) self.new ≡ tried_on (live_in (T.kept trail.old) self.old) base own schema.value failed) }
        ensures err { OnErr result (live_in (T.kept trail.new) self.new ≡ live_in (T.kept trail.old) self.old) }
        ensures rises { T.reads trail.old ≤ T.reads trail.new }
        ensures reads { T.reads trail.new ≤ T.reads trail.old + length (touched_nodes (flat_of self.old.now.value) (flat_of schema.value)) }
    {
        let mut marks = CountedMarks {
            marks: &self.marks,
            steps,
        };
        match self.adapted_to(alloc, &mut marks, trail, &schema)? {
            Adapted::Blocked { position } => Ok(Some(position)),
            Adapted::Moved(changes) => {
                self.move_to(trail, base, own, schema, changes)?;
                Ok(None)
            }
        }
    }

    // What becomes of the marks on another schema, by a look at what differs there.
    fn adapted_to<M: MarkReads, T: TrailKeep>(
        &self,
        alloc: Global,
        marks: &mut M,
        trail: &mut T,
        schema: &Checked,
    ) -> Result<Adapted, NoMemory>
        requires live { IsLive (T.kept trail.old) self.now }
        requires marks { M.kept marks.old ≡ self.now.marks.rows }
        ensures adapted { IfOk result (IsAdaptedTo (live_in (T.kept trail.old) self.entry.now) schema.now) }
        ensures checked { IsChecked schema.now }
        ensures trail { T.kept trail.new ≡ T.kept trail.old }
        ensures rises { T.reads trail.old ≤ T.reads trail.new }
        ensures reads { T.reads trail.new ≤ T.reads trail.old + length (touched_nodes (flat_of self.entry.now.now.value) (flat_of schema.now)) }
        ensures marks_rise { M.reads marks.old ≤ M.reads marks.new }
        ensures marks_few { ReadsOnto self.entry.now.now.value schema.now (M.reads marks.old) (M.reads marks.new) }
    {
        let old = self.now.flat();
        let new = schema.flat();
        let nodes = touched(alloc, old, new)?;
        adapt(alloc, old, new, schema.rank(), &nodes, marks, trail)
    }

    // The case on another version or schema, with what that changes of the marks.
    fn move_to<T: TrailKeep>(
        &mut self,
        trail: &T,
        base: Version,
        own: Ops,
        schema: Arc<Checked>,
        changes: Changes,
    ) -> Result<(), NoMemory>
        requires live { IsLive (T.kept trail.now) self.old }
        requires kept { Kept (on_schema (live_in (T.kept trail.now) self.old) base own schema.value) }
        requires moves { Moves (live_in (T.kept trail.now) self.old) schema.value changes }
        ensures live { IsLive (T.kept trail.now) self.new }
        ensures ok { OnOk result (live_in (T.kept trail.now) self.new ≡ on_schema (live_in (T.kept trail.now) self.old) base own schema.value) }
        ensures err { OnErr result (live_in (T.kept trail.now) self.new ≡ live_in (T.kept trail.now) self.old) }
    {
        self.marks.reserve(changes.len())?;
        self.items.reserve(changes.len())?;
        renew_items(&schema, &mut self.items, trail.next(), None, &changes);
        self.base = base;
        self.own = own;
        self.now = schema;
        self.marks.take_in(changes);
        Ok(())
    }
}
