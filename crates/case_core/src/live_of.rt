// A case that was created.
ghost use Rattle.std.specs.{Prelude.{◌≡◌, ℕ, ◌+◌, ◌<◌, ◌≤◌, ◌^◌, Some, length, IfOk}, Option.option_copied};
ghost use Rattle.case_core.specs.{CaseModel.{state_of, value_now}, Instances.{IsLive, live_in}, Kept.{IsOnceEach, Kept, marks_in}, KeptItems.held_in, Machine.reads_now, Promises.HolderStarted, Remarks.{AgainRemarks, EndRemarks}};
ghost use Rattle.case_core.specs.{Remarks.{ReadsBehind, ReadsInLoop, Remarks, Runs, RunsLoop, StartRemarks}, Shown.{is_finished, items_of, shown_holder, shown_spots}};
ghost use Rattle.wsm_items.specs.WorkItems.{items_in};
ghost use Rattle.wsm_lists.specs.ByNumber.{item_at};
ghost use Rattle.wsm_schema.specs.{Flat.{flat_of, card_at, cards_of}, Rules.spot_in};
ghost use Rattle.wsm_trail.specs.{Cuts.StaysBelow, Withdrawn.withdrawn};

use crate::live::Live;
use crate::rounds::first_seen;
use crate::spots::{spot_by, unmarked};
use std::alloc::Global;
use std::marker::Model;
use wsm_items::{Item, Items};
use wsm_lists::{GrowingTable, copy_option};
use wsm_ops::Ops;
use wsm_rules::{Changes, MarkReads, Marks};
use wsm_schema::{BySpot, Card, Marking, NoMemory, ReadValues, Spot, State, Value};
use wsm_settle::{after_again, after_end, after_start, after_withdraw};
use wsm_sound::{Checked, Version};
use wsm_trail::TrailKeep;

/// A case that was created, borrowed: its trail, and what it is besides.
#[derive(Drop)]
pub struct LiveOf<'a, T: TrailKeep> {
    pub(crate) trail: &'a T,
    pub(crate) live: &'a Live,
}

impl<'a, T: TrailKeep> Model for LiveOf<'a, T> {
    ghost use Rattle.case_core.specs.CaseModel.{LiveModel};
    ghost use Rattle.case_core.specs.Codes.{live_code};

    ghost Value = { LiveModel };

    ghost coded = { live_code };

    ghost use Rattle.case_core.specs.Instances.{IsLive, live_in};

    ghost view = { λ a. live_in (T.kept a.trail.now) a.live.now };

    ghost invariant = { λ a. IsLive (T.kept a.trail.now) a.live.now };
}

impl<'a, T: TrailKeep> LiveOf<'a, T> {
    /// What an equal case is besides its trail.
    pub(crate) fn copy(&self, alloc: Global) -> Result<Live, NoMemory>
        ensures kept { IfOk result (IsLive self.now.trail) }
        ensures live { IfOk result (λ new. live_in self.now.trail new ≡ self.now) }
    {
        let _ = self.base();
        self.live.copy(alloc)
    }

    /// The version that the case stands on.
    pub fn base(&self) -> &'a Version
        ensures base { result.now ≡ self.now.base }
        ensures kept { Kept self.now }
    {
        &self.live.base
    }

    /// The case's own operations, which made its schema of that of its version.
    pub fn own(&self) -> &'a Ops
        ensures own { result.now ≡ self.now.own }
        ensures few { length result.now < 2 ^ 32 }
    {
        &self.live.own
    }

    /// The case's schema.
    pub fn checked(&self) -> &'a Checked
        ensures { result.now ≡ self.now.schema }
    {
        &self.live.now
    }

    /// What was started and ended. Each node has one Start, one End and one Again there, or none.
    pub fn trail(&self) -> &'a T
        ensures trail { T.kept result.now ≡ self.now.trail }
        ensures once { IsOnceEach self.now.trail.entries }
    {
        self.trail
    }

    /// The card of a node.
    pub fn card(&self, node: u32) -> Option<&'a Card>
        ensures card { option_copied result ≡ card_at node (flat_of self.now.schema).cards }
        ensures kept { Kept self.now }
    {
        self.live.now.flat().card(node)
    }

    /// The state of a node, which is NotActivated where the schema has no such node.
    pub fn state(&self, node: u32) -> State
        ensures { result ≡ state_of self.now node }
    {
        self.spot(node).state
    }

    /// The spot of a node, by its mark.
    pub fn spot(&self, node: u32) -> Spot
        ensures { result ≡ spot_in node (shown_spots self.now) }
    {
        match self.card(node) {
            None => unmarked(node),
            Some(card) => spot_by(card.kind, node, self.marks().get(node)),
        }
    }

    /// The state of a node, by a read of its mark.
    pub(crate) fn state_read<M: MarkReads>(&self, marks: &mut M, node: u32) -> State
        requires marks { M.kept marks.old ≡ marks_in self.now }
        ensures state { result ≡ state_of self.now node }
        ensures same { M.kept marks.new ≡ M.kept marks.old }
        ensures rises { M.reads marks.old ≤ M.reads marks.new }
        ensures count { M.reads marks.new ≤ M.reads marks.old + 1 }
    {
        match self.card(node) {
            None => State::NotActivated,
            Some(card) => spot_by(card.kind, node, marks.get(node).as_ref()).state,
        }
    }

    /// Whether the finish node is completed, by a read of its mark.
    pub(crate) fn is_finished_read<M: MarkReads>(&self, marks: &mut M) -> bool
        requires marks { M.kept marks.old ≡ marks_in self.now }
        ensures finished { result ≡ is_finished self.now }
        ensures same { M.kept marks.new ≡ M.kept marks.old }
        ensures rises { M.reads marks.old ≤ M.reads marks.new }
        ensures count { M.reads marks.new ≤ M.reads marks.old + 1 }
    {
        self.state_read(marks, self.live.now.schema().finish) == State::Completed
    }

    /// The marks of the nodes of which something is known.
    pub(crate) fn marks(&self) -> &'a Marks
        ensures rows { result.now.rows ≡ marks_in self.now }
        ensures kept { Kept self.now }
    {
        &self.live.marks
    }

    /// The work items, by node.
    pub fn items(&self) -> &'a Items
        ensures items { items_in result.now.rows ≡ items_of self.now }
        ensures held { (node : ℕ) → held_in (item_at node result.now.rows) ≡ shown_holder (Some self.now) node }
    {
        let _ = self.live.items.as_slice();
        &self.live.items
    }

    // The cards of the schema's nodes.
    fn cards(&self) -> &'a [Card]
        ensures cards { result.now ≡ cards_of self.now.schema }
        ensures kept { Kept self.now }
    {
        self.live.now.flat().cards()
    }

    /// The marking: the spots of the case's nodes.
    pub fn marking(&self, alloc: Global) -> Result<Marking, NoMemory>
        ensures { IfOk result (λ marking. marking ≡ shown_spots self.now) }
    {
        let mut spots = GrowingTable::<BySpot>::new(alloc);
        for card in self.cards() {
            spots.set(self.spot(card.node))?;
        }
        spots.into_table(alloc)
    }

    /// Whether the finish node is completed.
    pub fn is_finished(&self) -> bool
        ensures { result ≡ is_finished self.now }
    {
        self.state(self.live.now.schema().finish) == State::Completed
    }

    /// The value of an element.
    pub fn value(&self, element: u32) -> Option<&'a Value>
        ensures { option_copied result ≡ value_now self.now element }
    {
        self.trail.value(element)
    }

    /// The user who holds a running node. None where the node is not running.
    pub fn holder(&self, node: u32) -> Option<u32>
        ensures holder { result ≡ shown_holder (Some self.now) node }

        // The trail has the Start of who holds the node.
        ensures started { HolderStarted (Some self.now) node result }
    {
        let _ = self.base();
        match self.items().get(node) {
            Some(Item::Held { user, .. }) => Some(*user),
            Some(Item::Offered { .. }) | None => None,
        }
    }

    /// The values that a start of the node would read.
    pub fn reads(&self, alloc: Global, card: &Card) -> Result<ReadValues, NoMemory>
        ensures { IfOk result (λ reads. reads ≡ reads_now self.now card.now) }
    {
        let mut reads = Vec::new(alloc);
        for edge in card.reads.as_slice() {
            reads.push((edge.0, copy_option(alloc, self.value(edge.0))?))?;
        }
        Ok(ReadValues::from_vec(reads))
    }

    /// What the start of a node would change of the marks.
    pub(crate) fn start_changes<M: MarkReads>(
        &self,
        alloc: Global,
        marks: &mut M,
        node: u32,
    ) -> Result<Changes, NoMemory>
        requires marks { M.kept marks.old ≡ marks_in self.now }
        ensures changes { IfOk result (StartRemarks self.now node) }
        ensures rises { M.reads marks.old ≤ M.reads marks.new }
        ensures count { M.reads marks.new ≤ M.reads marks.old + 1 }
    {
        let _ = self.base();
        after_start(
            alloc,
            self.checked().flat(),
            marks,
            node,
            self.trail().next(),
        )
    }

    /// What the end of a node with that choice would change of the marks.
    pub(crate) fn end_changes<M: MarkReads>(
        &self,
        alloc: Global,
        marks: &mut M,
        node: u32,
        choice: Option<u16>,
    ) -> Result<Changes, NoMemory>
        requires marks { M.kept marks.old ≡ marks_in self.now }
        ensures changes { IfOk result (EndRemarks self.now node choice) }
        ensures rises { M.reads marks.old ≤ M.reads marks.new }
        ensures few { ReadsBehind self.now.schema node (M.reads marks.old) (M.reads marks.new) }
    {
        let _ = self.base();
        let schema = self.checked();
        let position = self.trail().next();
        after_end(
            alloc,
            schema.flat(),
            schema.rank(),
            marks,
            node,
            position,
            choice,
        )
    }

    /// What the loop that ends with the node would change of the marks if it went on once more.
    pub(crate) fn again_changes<M: MarkReads>(
        &self,
        alloc: Global,
        marks: &mut M,
        node: u32,
    ) -> Result<Changes, NoMemory>
        requires runs { RunsLoop self.now node }
        requires marks { M.kept marks.old ≡ marks_in self.now }
        ensures changes { IfOk result (AgainRemarks self.now node) }
        ensures rises { M.reads marks.old ≤ M.reads marks.new }
        ensures few { ReadsInLoop self.now.schema node (M.reads marks.old) (M.reads marks.new) }
    {
        let _ = self.base();
        let schema = self.checked();
        let position = self.trail().next();
        after_again(alloc, schema.flat(), schema.rank(), marks, node, position)
    }

    /// What it would change of the marks if the node were given back.
    pub(crate) fn withdraw_changes<M: MarkReads>(
        &self,
        alloc: Global,
        marks: &mut M,
        node: u32,
    ) -> Result<Changes, NoMemory>
        requires runs { Runs self.now node }
        requires marks { M.kept marks.old ≡ marks_in self.now }
        ensures changes { IfOk result (Remarks self.now (withdrawn node self.now.trail)) }
        ensures rises { M.reads marks.old ≤ M.reads marks.new }
        ensures count { M.reads marks.new ≤ M.reads marks.old + 1 }
    {
        let _ = self.base();
        after_withdraw(alloc, marks, node)
    }

    /// The position below which no entry is of these nodes.
    pub(crate) fn first_seen<M: MarkReads>(&self, marks: &mut M, nodes: &[u32]) -> u32
        requires marks { M.kept marks.old ≡ marks_in self.now }
        ensures stays { StaysBelow result nodes.now self.now.trail.entries }
        ensures same { M.kept marks.new ≡ M.kept marks.old }
        ensures rises { M.reads marks.old ≤ M.reads marks.new }
        ensures count { M.reads marks.new ≤ M.reads marks.old + length nodes.now }
    {
        let _ = self.base();
        first_seen(marks, nodes, self.trail().next())
    }
}
