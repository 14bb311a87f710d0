// Cases, over all that keep a trail.
ghost use Rattle.std.specs.{Prelude.{◌≡◌, ◌==◌, ◌+◌, ◌<◌, ◌≤◌, true, not, Some, None, IfOk, OnErr}, Option.{option_copied, option_map}};
ghost use Rattle.case_core.specs.{Ages.{age, weight}, CaseModel.not_created, Instances.{allowed, uncounted}, Journals.JournalsKeep, Kept.{KeptIn, OnceIn}, Machine.next_case, Promises.{HolderStarted, IsFairView, NamesEntryIn}};
ghost use Rattle.case_core.specs.{Promises.{ShowsLastWrites, StartsFilled, goes_on}, Shown.{own_of, shown, shown_state, shown_holder}};
ghost use Rattle.wsm_schema.specs.Trail.{no_trail};

use crate::events::Event;
use crate::live::Live;
use crate::live_of::LiveOf;
use crate::replies::{Reply, both};
use crate::views::View;
use std::alloc::Global;
use std::marker::{Brand, Model};
use std::sync::ledger::{Blank, Ledger};
use turn_cell::Machine;
use wsm_lists::Steps;
use wsm_ops::Ops;
use wsm_schema::{NoMemory, State};
use wsm_sound::{Checked, Version};
use wsm_trail::{Trail, TrailKeep};

/// A case of a process type, with its trail. Where it is not created, the trail is empty and its next position is 1.
#[derive(Drop)]
pub struct Instance<T: TrailKeep> {
    type_no: u32,
    trail: T,
    live: Option<Live>,
}

/// A case of a process type.
pub type Case = Instance<Trail>;

/// A case of a process type that was created, borrowed.
pub type LiveCase<'a> = LiveOf<'a, Trail>;

impl<T: TrailKeep> Model for Instance<T> {
    ghost use Rattle.case_core.specs.Instances.{CountedCase, counted_code};

    ghost Value = { CountedCase };

    ghost coded = { counted_code };

    ghost use Rattle.case_core.specs.Instances.{IsKept, case_in};

    ghost view = { λ a. record { state = case_in a.type_no (T.kept a.trail) a.live; reads = T.reads a.trail } };

    ghost invariant = { λ a. IsKept (T.kept a.trail) a.live };
}

impl Instance<Trail> {
    /// A case of the type that is not created.
    pub fn new(alloc: Global, type_no: u32) -> Case
        ensures case { result ≡ uncounted (not_created type_no) }

        // Whatever events come to it, it keeps what a case keeps: what it shows is never stuck, and finds its data.
        ensures journals { JournalsKeep type_no }
    {
        Instance::with_trail(type_no, Trail::new(alloc))
    }

    /// An equal case, which shares the version and the schema.
    pub fn copy(&self, alloc: Global) -> Result<Case, NoMemory>
        ensures { IfOk result (λ new. new.state ≡ self.now.state) }
    {
        let trail = self.trail.copy(alloc)?;
        match self.live() {
            None => Ok(Instance {
                type_no: self.type_no,
                trail,
                live: None,
            }),
            Some(live) => Ok(Instance {
                type_no: self.type_no,
                trail,
                live: Some(live.copy(alloc)?),
            }),
        }
    }

    /// What the event would be answered. The case is as before.
    pub fn try_step(&mut self, alloc: Global, event: &Event) -> Result<Reply, NoMemory>
        requires room { age self.old.state + weight event.now ≤ 4000000000 }
        ensures reply { IfOk result (λ reply. reply ≡ (next_case self.old.state event.now).1) }
        ensures same { self.new.state ≡ self.old.state }
    {
        let _ = self.live();
        self.try_counted::<Brand>(alloc, event, Blank::new(1))
    }

    // The same, with a count of the marks that are read. A change and a migration leave the trail as it is, so there it is not
    // copied.
    fn try_counted<L: Ledger>(
        &mut self,
        alloc: Global,
        event: &Event,
        blank: Blank,
    ) -> Result<Reply, NoMemory>
        requires room { age self.old.state + weight event.now ≤ 4000000000 }
        requires name { blank.name ≡ L.name }
        requires parts { blank.parts ≡ L.parts }
        requires some { 0 < blank.parts }
        ensures reply { IfOk result (λ reply. reply ≡ (next_case self.old.state event.now).1) }
        ensures same { self.new.state ≡ self.old.state }
    {
        let mut steps = Steps::<L>::open(blank);
        match event {
            Event::Create(_) | Event::Start { .. } | Event::End { .. } | Event::Withdraw { .. } => {
                self.try_on_copy(alloc, event)
            }
            Event::Change(ops) => self.try_change(alloc, ops, &mut steps),
            Event::Migrate(version) => self.try_migrate(alloc, version, &mut steps),
        }
    }

    // The event comes to a copy of the case.
    fn try_on_copy(&self, alloc: Global, event: &Event) -> Result<Reply, NoMemory>
        requires room { age self.now.state + weight event.now ≤ 4000000000 }
        ensures { IfOk result (λ reply. reply ≡ (next_case self.now.state event.now).1) }
    {
        let mut copy = self.copy(alloc)?;
        let (reply, _) = copy.step(alloc, event)?;
        Ok(reply)
    }

    fn try_change<L: Ledger>(
        &mut self,
        alloc: Global,
        ops: &Ops,
        steps: &mut Steps<L>,
    ) -> Result<Reply, NoMemory>
        requires room { age self.old.state + weight (Event.Change ops.now) ≤ 4000000000 }
        ensures reply { IfOk result (λ reply. reply ≡ (next_case self.old.state (Event.Change ops.now)).1) }
        ensures same { self.new.state ≡ self.old.state }
    {
        match &self.live {
            None => Ok(Reply::NoCase),
            Some(live) => live.try_change(alloc, &mut self.trail, steps, ops),
        }
    }

    fn try_migrate<L: Ledger>(
        &mut self,
        alloc: Global,
        version: &Version,
        steps: &mut Steps<L>,
    ) -> Result<Reply, NoMemory>
        ensures reply { IfOk result (λ reply. reply ≡ (next_case self.old.state (Event.Migrate version.now)).1) }
        ensures same { self.new.state ≡ self.old.state }
    {
        let is_of_another_type = self.is_of_another_type(version);
        match &self.live {
            None => Ok(Reply::NoCase),
            Some(_) if is_of_another_type => Ok(Reply::OtherType),
            Some(live) => live.try_migrate(alloc, &mut self.trail, steps, version),
        }
    }

    /// What was started and ended. None where the case is not created. Each node has one Start, one End and one Again there,
    /// or none.
    pub fn trail(&self) -> Option<&Trail>
        ensures once { OnceIn self.now.state.live }
        ensures trail { option_map (λ t. t.trail) (option_copied result) ≡ option_map (λ l. l.trail) self.now.state.live }
    {
        match self.live() {
            None => None,
            Some(live) => Some(live.trail()),
        }
    }
}

impl<T: TrailKeep> Instance<T> {
    /// A case of the type that is not created, with an empty trail.
    pub fn with_trail(type_no: u32, trail: T) -> Instance<T>
        requires { T.kept trail ≡ no_trail }
        ensures case { result.state ≡ not_created type_no }
        ensures reads { result.reads ≡ T.reads trail }
        ensures journals { JournalsKeep type_no }
    {
        Instance {
            type_no,
            trail,
            live: None,
        }
    }

    /// What the event does to the case, and two equal replies to it, one to keep and one to hand out.
    pub fn step(&mut self, alloc: Global, event: &Event) -> Result<(Reply, Reply), NoMemory>
        requires room { age self.old.state + weight event.now ≤ 4000000000 }
        ensures case { IfOk result (λ replies. self.new.state ≡ (next_case self.old.state event.now).0) }
        ensures first { IfOk result (λ replies. replies.0 ≡ (next_case self.old.state event.now).1) }
        ensures second { IfOk result (λ replies. replies.1 ≡ (next_case self.old.state event.now).1) }
        ensures age { IfOk result (λ replies. age self.new.state ≤ age self.old.state + weight event.now) }

        // A start that is accepted read a value for each element that the node must read.
        ensures filled { IfOk result (λ replies. StartsFilled self.old.state.live event.now replies.0) }

        // The entry that a blocked reply names stands in the trail at its position.
        ensures named { IfOk result (λ replies. NamesEntryIn self.old.state.live replies.0) }
        ensures err { OnErr result (self.new.state ≡ self.old.state) }

        // Of the trail are read few entries, and none but where the schema changes.
        ensures rises { self.old.reads ≤ self.new.reads }
        ensures reads { self.new.reads ≤ self.old.reads + allowed self.old.state event.now }
    {
        let _ = self.live();
        self.counted::<Brand>(alloc, event, Blank::new(1))
    }

    // The same, with a count of the marks that are read.
    fn counted<L: Ledger>(
        &mut self,
        alloc: Global,
        event: &Event,
        blank: Blank,
    ) -> Result<(Reply, Reply), NoMemory>
        requires room { age self.old.state + weight event.now ≤ 4000000000 }
        requires name { blank.name ≡ L.name }
        requires parts { blank.parts ≡ L.parts }
        requires some { 0 < blank.parts }
        ensures case { IfOk result (λ replies. self.new.state ≡ (next_case self.old.state event.now).0) }
        ensures first { IfOk result (λ replies. replies.0 ≡ (next_case self.old.state event.now).1) }
        ensures second { IfOk result (λ replies. replies.1 ≡ (next_case self.old.state event.now).1) }
        ensures err { OnErr result (self.new.state ≡ self.old.state) }
        ensures rises { self.old.reads ≤ self.new.reads }
        ensures reads { self.new.reads ≤ self.old.reads + allowed self.old.state event.now }
    {
        let mut steps = Steps::<L>::open(blank);
        self.answer(alloc, event, &mut steps)
    }

    fn answer<L: Ledger>(
        &mut self,
        alloc: Global,
        event: &Event,
        steps: &mut Steps<L>,
    ) -> Result<(Reply, Reply), NoMemory>
        requires room { age self.old.state + weight event.now ≤ 4000000000 }
        ensures case { IfOk result (λ replies. self.new.state ≡ (next_case self.old.state event.now).0) }
        ensures first { IfOk result (λ replies. replies.0 ≡ (next_case self.old.state event.now).1) }
        ensures second { IfOk result (λ replies. replies.1 ≡ (next_case self.old.state event.now).1) }
        ensures err { OnErr result (self.new.state ≡ self.old.state) }
        ensures rises { self.old.reads ≤ self.new.reads }
        ensures reads { self.new.reads ≤ self.old.reads + allowed self.old.state event.now }
    {
        match event {
            Event::Create(version) => self.create(alloc, version),
            Event::Start { node, user, roles } => match &mut self.live {
                None => both(alloc, Reply::NoCase),
                Some(live) => live.start(alloc, &mut self.trail, steps, *node, *user, roles),
            },
            Event::End {
                node,
                user,
                writes,
                choice,
            } => match &mut self.live {
                None => both(alloc, Reply::NoCase),
                Some(live) => live.end(
                    alloc,
                    &mut self.trail,
                    steps,
                    *node,
                    *user,
                    writes,
                    *choice,
                ),
            },
            Event::Withdraw { node, user } => match &mut self.live {
                None => both(alloc, Reply::NoCase),
                Some(live) => live.withdraw(alloc, &mut self.trail, steps, *node, *user),
            },
            Event::Change(ops) => match &mut self.live {
                None => both(alloc, Reply::NoCase),
                Some(live) => live.change(alloc, &mut self.trail, steps, ops),
            },
            Event::Migrate(version) => self.migrate(alloc, version, steps),
        }
    }

    fn create(&mut self, alloc: Global, version: &Version) -> Result<(Reply, Reply), NoMemory>
        ensures case { IfOk result (λ replies. self.new.state ≡ (next_case self.old.state (Event.Create version.now)).0) }
        ensures first { IfOk result (λ replies. replies.0 ≡ (next_case self.old.state (Event.Create version.now)).1) }
        ensures second { IfOk result (λ replies. replies.1 ≡ (next_case self.old.state (Event.Create version.now)).1) }
        ensures err { OnErr result (self.new.state ≡ self.old.state) }
        ensures reads { self.new.reads ≡ self.old.reads }
    {
        if self.live.is_some() {
            return both(alloc, Reply::Already);
        }
        if self.is_of_another_type(version) {
            return both(alloc, Reply::OtherType);
        }
        self.live = Some(Live::new(alloc, version)?);
        Ok((Reply::Created, Reply::Created))
    }

    fn migrate<L: Ledger>(
        &mut self,
        alloc: Global,
        version: &Version,
        steps: &mut Steps<L>,
    ) -> Result<(Reply, Reply), NoMemory>
        ensures case { IfOk result (λ replies. self.new.state ≡ (next_case self.old.state (Event.Migrate version.now)).0) }
        ensures first { IfOk result (λ replies. replies.0 ≡ (next_case self.old.state (Event.Migrate version.now)).1) }
        ensures second { IfOk result (λ replies. replies.1 ≡ (next_case self.old.state (Event.Migrate version.now)).1) }
        ensures err { OnErr result (self.new.state ≡ self.old.state) }
        ensures rises { self.old.reads ≤ self.new.reads }
        ensures reads { self.new.reads ≤ self.old.reads + allowed self.old.state (Event.Migrate version.now) }
    {
        let is_of_another_type = self.is_of_another_type(version);
        match &mut self.live {
            None => both(alloc, Reply::NoCase),
            Some(_) if is_of_another_type => both(alloc, Reply::OtherType),
            Some(live) => live.migrate(alloc, &mut self.trail, steps, version),
        }
    }

    fn is_of_another_type(&self, version: &Version) -> bool
        ensures { result ≡ not (version.now.type_no == self.now.state.type_no) }
    {
        version.type_no() != self.type_no
    }

    /// What the case shows.
    pub fn view(&self, alloc: Global) -> Result<View, NoMemory>
        ensures view { IfOk result (λ view. view ≡ shown self.now.state) }

        // A case that was created is finished, or somebody may work on it.
        ensures goes_on { IfOk result (λ view. goes_on view ≡ true) }

        // What an offered node must read is there, and no two held nodes write one element.
        ensures fair { IfOk result (IsFairView self.now.state) }

        // The values are those of the last writes below the next position.
        ensures values { IfOk result (ShowsLastWrites self.now.state.live) }
    {
        match self.live() {
            None => Ok(View::None),
            Some(live) => live.view(alloc),
        }
    }

    /// The case, where it is created, and what it keeps then: its schema is sound and is its own operations applied to
    /// its version's, its trail replays whole on it, and repeats no loop's end twice.
    pub fn live(&self) -> Option<LiveOf<'_, T>>
        ensures live { result ≡ self.now.state.live }
        ensures kept { KeptIn self.now.state.live }
    {
        match &self.live {
            None => None,
            Some(live) => Some(live.of(&self.trail)),
        }
    }

    /// The case's schema. None where the case is not created.
    pub fn checked(&self) -> Option<&Checked>
        ensures { option_copied result ≡ option_map (λ l. l.schema) self.now.state.live }
    {
        match self.live() {
            None => None,
            Some(live) => Some(live.checked()),
        }
    }

    /// The version that the case stands on. None where the case is not created.
    pub fn base(&self) -> Option<&Version>
        ensures { option_copied result ≡ option_map (λ l. l.base) self.now.state.live }
    {
        match self.live() {
            None => None,
            Some(live) => Some(live.base()),
        }
    }

    /// The state of a node. None where the case is not created, or its schema has no such node.
    pub fn state(&self, node: u32) -> Option<State>
        ensures { result ≡ shown_state self.now.state.live node }
    {
        match self.live() {
            None => None,
            Some(live) => match live.card(node) {
                None => None,
                Some(_) => Some(live.state(node)),
            },
        }
    }

    /// The number of the case's own operations.
    pub fn own(&self) -> u32
        ensures { result ≡ own_of self.now.state.live }
    {
        match self.live() {
            None => 0,
            Some(live) => live.own().len() as u32,
        }
    }

    /// The user who holds a running node. None where the node is not running.
    pub fn holder(&self, node: u32) -> Option<u32>
        ensures holder { result ≡ shown_holder self.now.state.live node }

        // The trail has the Start of who holds the node.
        ensures started { HolderStarted self.now.state.live node result }
    {
        match self.live() {
            None => None,
            Some(live) => live.holder(node),
        }
    }
}

impl<T: TrailKeep + Send + Sync> Machine for Instance<T> {
    ghost use Rattle.case_core.specs.Ages.{age, weight};
    ghost use Rattle.case_core.specs.Instances.{allowed};
    ghost use Rattle.case_core.specs.Kept.{KeptIn};
    ghost use Rattle.case_core.specs.Machine.{case_after, case_reply};
    ghost use Rattle.case_core.specs.Shown.{shown};

    type Event = Event;

    type Reply = Reply;

    type View = View;

    type State = CaseState;

    ghost state = { λ s. s.state };

    ghost after = { case_after };

    ghost reply = { case_reply };

    ghost shown = { shown };

    ghost age = { age };

    ghost weight = { weight };

    ghost reads = { λ s. s.reads };

    ghost allowance = { allowed };

    fn step(&mut self, alloc: Global, event: &Event) -> Result<(Reply, Reply), NoMemory> {
        Instance::step(self, alloc, event)
    }

    fn view(&self, alloc: Global) -> Result<View, NoMemory> {
        Instance::view(self, alloc)
    }

    fn copy_event(alloc: Global, event: &Event) -> Result<Event, NoMemory> {
        event.copy(alloc)
    }
}

/// The state that contracts see of a case. No value of it is made.
#[derive(Drop)]
pub struct CaseState {
    type_no: u32,
}

impl Model for CaseState {
    ghost use Rattle.case_core.specs.CaseModel.{CaseModel, not_created};
    ghost use Rattle.case_core.specs.Codes.{case_code};

    ghost Value = { CaseModel };

    ghost coded = { case_code };

    ghost view = { λ a. not_created a.type_no };
}
