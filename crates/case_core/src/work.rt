// Starts and ends of nodes, and nodes that are given back.
ghost use Rattle.std.specs.Prelude.{◌≡◌, ◌==◌, ◌+◌, ◌<◌, ◌≤◌, ◌^◌, ◌||◌, not, IfOk, OnErr};
ghost use Rattle.case_core.specs.{Instances.{IsLive, live_in}, Kept.marks_in, Machine.{start_refusal, hold_refusal, end_refusal, start_live, end_live, withdraw_live, may_work, repeats, when_reply, wrong_reply, ended_reply}};
ghost use Rattle.case_core.specs.declared.replies.Reply.TheVariants as reply;
ghost use Rattle.wsm_schema.specs.Replay.{fits_choice};

use crate::live::Live;
use crate::live_of::LiveOf;
use crate::replies::{Reply, both};
use case_writes::{by_element, is_one_of, wrong_elements};
use std::alloc::Global;
use std::sync::ledger::Ledger;
use wsm_lists::Steps;
use wsm_replay::fits_choice;
use wsm_rules::{CountedMarks, MarkReads};
use wsm_schema::{Card, Entry, NoMemory, NodeKind, Nodes, RoleList, State, Writes};
use wsm_trail::TrailKeep;

impl Live {
    /// A user with these roles starts the node.
    pub(crate) fn start<T: TrailKeep, L: Ledger>(
        &mut self,
        alloc: Global,
        trail: &mut T,
        steps: &mut Steps<L>,
        node: u32,
        user: u32,
        roles: &RoleList,
    ) -> Result<(Reply, Reply), NoMemory>
        requires live { IsLive (T.kept trail.old) self.old }
        requires position { (T.kept trail.old).next + 1 < 2 ^ 32 }
        ensures kept { IsLive (T.kept trail.new) self.new }
        ensures live { IfOk result (λ replies. live_in (T.kept trail.new) self.new ≡ (start_live (live_in (T.kept trail.old) self.old) node user roles.now).0) }
        ensures first { IfOk result (λ replies. replies.0 ≡ (start_live (live_in (T.kept trail.old) self.old) node user roles.now).1) }
        ensures second { IfOk result (λ replies. replies.1 ≡ (start_live (live_in (T.kept trail.old) self.old) node user roles.now).1) }
        ensures err { OnErr result (live_in (T.kept trail.new) self.new ≡ live_in (T.kept trail.old) self.old) }
        ensures count { T.reads trail.new ≡ T.reads trail.old }
    {
        let case = self.of(trail);
        let mut marks = CountedMarks {
            marks: case.marks(),
            steps,
        };
        let card = match case.card(node) {
            None => return both(alloc, Reply::NoNode),
            Some(card) => card,
        };
        if let Some(refusal) = case.start_refusal(&mut marks, card, node, roles) {
            return both(alloc, refusal);
        }
        let reads = case.reads(alloc, card)?;
        let replies = both(alloc, Reply::Started(reads.duplicate(alloc)?))?;
        let changes = case.start_changes(alloc, &mut marks, node)?;
        self.append(trail, Entry::Start { node, user, reads }, changes)?;
        Ok(replies)
    }

    /// A user ends the node with these values and this choice.
    pub(crate) fn end<T: TrailKeep, L: Ledger>(
        &mut self,
        alloc: Global,
        trail: &mut T,
        steps: &mut Steps<L>,
        node: u32,
        user: u32,
        writes: &Writes,
        choice: Option<u16>,
    ) -> Result<(Reply, Reply), NoMemory>
        requires live { IsLive (T.kept trail.old) self.old }
        requires position { (T.kept trail.old).next + 1 < 2 ^ 32 }
        ensures kept { IsLive (T.kept trail.new) self.new }
        ensures live { IfOk result (λ replies. live_in (T.kept trail.new) self.new ≡ (end_live (live_in (T.kept trail.old) self.old) node user writes.now choice).0) }
        ensures first { IfOk result (λ replies. replies.0 ≡ (end_live (live_in (T.kept trail.old) self.old) node user writes.now choice).1) }
        ensures second { IfOk result (λ replies. replies.1 ≡ (end_live (live_in (T.kept trail.old) self.old) node user writes.now choice).1) }
        ensures err { OnErr result (live_in (T.kept trail.new) self.new ≡ live_in (T.kept trail.old) self.old) }
        ensures count { T.reads trail.new ≡ T.reads trail.old }
    {
        let case = self.of(trail);
        let mut marks = CountedMarks {
            marks: case.marks(),
            steps,
        };
        let card = match case.card(node) {
            None => return both(alloc, Reply::NoNode),
            Some(card) => card,
        };
        if let Some(refusal) = case.end_refusal(
            alloc, &mut marks, card, node, user, writes, choice,
        )? {
            return both(alloc, refusal);
        }
        let repeated = repeats(card, choice);
        let writes = by_element(alloc, writes)?;
        if repeated {
            self.repeat(alloc, trail, steps, node, writes)?;
            return Ok((Reply::Repeated, Reply::Repeated));
        }
        let changes = case.end_changes(alloc, &mut marks, node, choice)?;
        self.append(
            trail,
            Entry::End {
                node,
                writes,
                choice,
            },
            changes,
        )?;
        Ok((Reply::Ended, Reply::Ended))
    }

    /// A user gives the node back, which is activated again.
    pub(crate) fn withdraw<T: TrailKeep, L: Ledger>(
        &mut self,
        alloc: Global,
        trail: &mut T,
        steps: &mut Steps<L>,
        node: u32,
        user: u32,
    ) -> Result<(Reply, Reply), NoMemory>
        requires { IsLive (T.kept trail.old) self.old }
        ensures kept { IsLive (T.kept trail.new) self.new }
        ensures live { IfOk result (λ replies. live_in (T.kept trail.new) self.new ≡ (withdraw_live (live_in (T.kept trail.old) self.old) node user).0) }
        ensures first { IfOk result (λ replies. replies.0 ≡ (withdraw_live (live_in (T.kept trail.old) self.old) node user).1) }
        ensures second { IfOk result (λ replies. replies.1 ≡ (withdraw_live (live_in (T.kept trail.old) self.old) node user).1) }
        ensures err { OnErr result (live_in (T.kept trail.new) self.new ≡ live_in (T.kept trail.old) self.old) }
        ensures count { T.reads trail.new ≡ T.reads trail.old }
    {
        let case = self.of(trail);
        let mut marks = CountedMarks {
            marks: case.marks(),
            steps,
        };
        let _ = match case.card(node) {
            None => return both(alloc, Reply::NoNode),
            Some(card) => card,
        };
        if let Some(refusal) = case.hold_refusal(&mut marks, node, user) {
            return both(alloc, refusal);
        }
        let changes = case.withdraw_changes(alloc, &mut marks, node)?;
        self.drop_start(trail, node, changes)?;
        Ok((Reply::Withdrawn, Reply::Withdrawn))
    }
}

impl<'a, T: TrailKeep> LiveOf<'a, T> {
    // The first reason why the user may not start the node of this card.
    fn start_refusal<M: MarkReads>(
        &self,
        marks: &mut M,
        card: &Card,
        node: u32,
        roles: &RoleList,
    ) -> Option<Reply>
        requires marks { M.kept marks.old ≡ marks_in self.now }
        ensures refusal { result ≡ start_refusal self.now card.now node roles.now }
        ensures same { M.kept marks.new ≡ M.kept marks.old }
        ensures rises { M.reads marks.old ≤ M.reads marks.new }
        ensures count { M.reads marks.new ≤ M.reads marks.old + 1 }
    {
        let state = self.state_read(marks, node);
        if state != State::Activated {
            return Some(Reply::NotReady(state));
        }
        if !may_work(card.role, roles.as_slice()) {
            return Some(Reply::NotAllowed(card.role));
        }
        None
    }

    // The first reason why the user may not end the node of this card so.
    fn end_refusal<M: MarkReads>(
        &self,
        alloc: Global,
        marks: &mut M,
        card: &Card,
        node: u32,
        user: u32,
        writes: &Writes,
        choice: Option<u16>,
    ) -> Result<Option<Reply>, NoMemory>
        requires marks { M.kept marks.old ≡ marks_in self.now }
        ensures refusal { IfOk result (λ refusal. refusal ≡ end_refusal self.now card.now node user writes.now choice) }
        ensures same { M.kept marks.new ≡ M.kept marks.old }
        ensures rises { M.reads marks.old ≤ M.reads marks.new }
        ensures count { M.reads marks.new ≤ M.reads marks.old + 1 }
    {
        if let Some(refusal) = self.hold_refusal(marks, node, user) {
            return Ok(Some(refusal));
        }
        let wrong = wrong_elements(
            alloc,
            self.checked().flat(),
            card.writes.as_slice(),
            writes.as_slice(),
        )?;
        if let Some(refusal) = wrong_reply(wrong) {
            return Ok(Some(refusal));
        }
        if !(fits_choice(card, choice) || repeats(card, choice)) {
            return Ok(Some(Reply::NoBranch(choice)));
        }
        Ok(None)
    }

    // Why the user has not the node in hand.
    fn hold_refusal<M: MarkReads>(&self, marks: &mut M, node: u32, user: u32) -> Option<Reply>
        requires marks { M.kept marks.old ≡ marks_in self.now }
        ensures refusal { result ≡ hold_refusal self.now node user }
        ensures same { M.kept marks.new ≡ M.kept marks.old }
        ensures rises { M.reads marks.old ≤ M.reads marks.new }
        ensures count { M.reads marks.new ≤ M.reads marks.old + 1 }
    {
        let _ = self.base();
        match self.holder(node) {
            None => Some(Reply::NotRunning(self.state_read(marks, node))),
            Some(holder) => not_holder(holder, user),
        }
    }
}

// The refusal of another user than the holder.
fn not_holder(holder: u32, user: u32) -> Option<Reply>
    ensures { result ≡ when_reply (not (holder == user)) (reply.NotHolder holder) }
{
    if holder == user {
        None
    } else {
        Some(Reply::NotHolder(holder))
    }
}

// Whether somebody with these roles may work on a node of that role.
fn may_work(role: u32, roles: &[u32]) -> bool
    ensures { result ≡ may_work role roles.now }
{
    role == 0 || is_one_of(role, roles)
}

// Whether an end with that choice makes a loop go on once more.
fn repeats(card: &Card, choice: Option<u16>) -> bool
    ensures { result ≡ repeats card.now choice }
{
    card.kind == NodeKind::LoopEnd && choice == Some(1)
}

// The refusal of an end with wrong elements, where there are some.
fn wrong_reply(elements: Nodes) -> Option<Reply>
    ensures { result ≡ wrong_reply elements }
{
    if elements.is_empty() {
        return None;
    }
    Some(Reply::WrongWrites(elements))
}
