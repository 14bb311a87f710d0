// The calls that a desk makes.
ghost use Rattle.std.specs.Prelude.{◌≡◌, ◌<◌, ◌≤◌, ◌⊎◌, None, Ok, true, length, OnOk, IfOk, IfErr, slice_get};
ghost use Rattle.adept_server.specs.{Calling.{CallsCase, CallsKind, Creates, HasRoom, answer_tells, tells_newest}, Desks.{IsDefinedFor, IsDeskOf, case_pass, desk_view, has_case, has_kind}};
ghost use Rattle.case_core.specs.Ages.{weight};
ghost use Rattle.type_core.specs.Machine.{weight as kind_weight};
ghost use Rattle.wsm_schema.specs.Flat.{cards_of};
ghost use Rattle.wsm_sound.specs.Faults.{fault_of};

use crate::desks::Desk;
use crate::one_call::call_at;
use crate::servers::Server;
use case_core::{Event, Reply};
use std::alloc::Global;
use std::sync::Wait;
use turn_cell::{CallFault, Gate};
use type_core::{KindEvent, KindReply};
use wsm_lists::{RoleList, Writes};
use wsm_ops::Ops;
use wsm_schema::Schema;
use wsm_sound::{CaseId, Version};

// Whether a desk that is answered so knows that the type has a version.
fn tells_version(answer: &Result<KindReply, CallFault>) -> bool
    ensures { result ≡ answer_tells answer.now }
{
    matches!(
        answer,
        Ok(KindReply::Defined | KindReply::Installed(_) | KindReply::Is(_) | KindReply::Already)
    )
}

// The version that a type which has one answers.
pub(crate) fn answered_version(reply: KindReply) -> Version
    requires { tells_newest reply ≡ true }
    ensures { reply ≡ KindReply.Is result }
{
    match reply {
        KindReply::Is(version) => version,
        _ => unreachable!(),
    }
}

impl Server {
    /// One call of a type: where it answers Defined, Installed or Is, the type is defined for the desk behind it.
    pub fn call_kind<R: Wait, G: Gate>(
        &self,
        rt: &R,
        alloc: Global,
        desk: &mut Desk,
        type_no: u32,
        event: &KindEvent,
        gate: &G,
        line: u32,
    ) -> Result<KindReply, CallFault>
        requires desk { IsDeskOf self.now desk.old }
        requires there { has_kind (desk_view desk.old) type_no }
        requires light { kind_weight event.now ≤ 60000 }
        ensures desk { IsDeskOf self.now desk.new }
        ensures called { CallsKind event.now type_no result (desk_view desk.old) (desk_view desk.new) }
        ensures memory { IfErr result (λ f. f ≡ CallFault.NoMemory → HasRoom (slice_get (desk_view desk.new).kinds type_no)) }
    {
        let index = type_no as usize;
        let answer = call_at(
            rt,
            alloc,
            &self.kinds,
            &mut desk.kinds,
            index,
            event,
            gate,
            line,
        );
        if tells_version(&answer) {
            desk.defined[index] = true;
        }
        answer
    }

    /// One call of a case.
    pub fn call_case<R: Wait, G: Gate>(
        &self,
        rt: &R,
        alloc: Global,
        desk: &mut Desk,
        id: CaseId,
        event: &Event,
        gate: &G,
        line: u32,
    ) -> Result<Reply, CallFault>
        requires desk { IsDeskOf self.now desk.old }
        requires there { has_case (desk_view desk.old) id }
        requires light { weight event.now ≤ 60000 }
        ensures desk { IsDeskOf self.now desk.new }
        ensures called { CallsCase event.now id result (desk_view desk.old) (desk_view desk.new) }
        ensures memory { IfErr result (λ f. f ≡ CallFault.NoMemory → HasRoom (case_pass (desk_view desk.new) id)) }
    {
        let index = id.type_no as usize;
        let cells = &self.cases[index];
        let passes = &mut desk.cases[index];
        call_at(
            rt,
            alloc,
            cells,
            passes,
            id.place as usize,
            event,
            gate,
            line,
        )
    }

    /// Defines a type. Behind a sound schema the desk knows a version of the type.
    pub fn define<R: Wait, G: Gate>(
        &self,
        rt: &R,
        alloc: Global,
        desk: &mut Desk,
        type_no: u32,
        schema: &Schema,
        gate: &G,
        line: u32,
    ) -> Result<KindReply, CallFault>
        requires desk { IsDeskOf self.now desk.old }
        requires there { has_kind (desk_view desk.old) type_no }
        requires light { length (cards_of schema.now) ≤ 60000 }
        ensures desk { IsDeskOf self.now desk.new }
        ensures called { CallsKind (KindEvent.Define schema.now) type_no result (desk_view desk.old) (desk_view desk.new) }
        ensures defined { fault_of schema.now ≡ None → OnOk result (IsDefinedFor (desk_view desk.new) type_no) }
    {
        let event = KindEvent::Define(schema.copy(alloc)?);
        self.call_kind(rt, alloc, desk, type_no, &event, gate, line)
    }

    /// Installs a version that the operations make of the newest.
    pub fn install<R: Wait, G: Gate>(
        &self,
        rt: &R,
        alloc: Global,
        desk: &mut Desk,
        type_no: u32,
        ops: &Ops,
        gate: &G,
        line: u32,
    ) -> Result<KindReply, CallFault>
        requires desk { IsDeskOf self.now desk.old }
        requires there { has_kind (desk_view desk.old) type_no }
        requires light { length ops.now ≤ 20000 }
        ensures desk { IsDeskOf self.now desk.new }
        ensures called { CallsKind (KindEvent.Install ops.now) type_no result (desk_view desk.old) (desk_view desk.new) }
    {
        let event = KindEvent::Install(ops.copy(alloc)?);
        self.call_kind(rt, alloc, desk, type_no, &event, gate, line)
    }

    /// Asks a type for its newest version.
    pub fn newest<R: Wait, G: Gate>(
        &self,
        rt: &R,
        alloc: Global,
        desk: &mut Desk,
        type_no: u32,
        gate: &G,
        line: u32,
    ) -> Result<KindReply, CallFault>
        requires desk { IsDeskOf self.now desk.old }
        requires there { has_kind (desk_view desk.old) type_no }
        ensures desk { IsDeskOf self.now desk.new }
        ensures called { CallsKind KindEvent.Newest type_no result (desk_view desk.old) (desk_view desk.new) }
        ensures memory { IfErr result (λ f. f ≡ CallFault.NoMemory → HasRoom (slice_get (desk_view desk.new).kinds type_no)) }
    {
        self.call_kind(rt, alloc, desk, type_no, &KindEvent::Newest, gate, line)
    }

    /// Asks the type for its newest version, and creates the case on it.
    pub fn create<R: Wait, G: Gate>(
        &self,
        rt: &R,
        alloc: Global,
        desk: &mut Desk,
        id: CaseId,
        gate: &G,
        line: u32,
    ) -> Result<Reply, CallFault>
        requires desk { IsDeskOf self.now desk.old }
        requires there { has_case (desk_view desk.old) id }
        requires defined { IsDefinedFor (desk_view desk.old) id.type_no }
        ensures desk { IsDeskOf self.now desk.new }
        ensures called { Creates id result (desk_view desk.old) (desk_view desk.new) }
        ensures memory { IfErr result (λ f. f ≡ CallFault.NoMemory → HasRoom (slice_get (desk_view desk.new).kinds id.type_no) ⊎ HasRoom (case_pass (desk_view desk.new) id)) }
    {
        let reply = self.newest(rt, alloc, desk, id.type_no, gate, line)?;
        let event = Event::Create(answered_version(reply));
        self.call_case(rt, alloc, desk, id, &event, gate, line)
    }

    /// Starts a node. The user is the desk's number.
    pub fn start<R: Wait, G: Gate>(
        &self,
        rt: &R,
        alloc: Global,
        desk: &mut Desk,
        id: CaseId,
        node: u32,
        roles: &RoleList,
        gate: &G,
        line: u32,
    ) -> Result<Reply, CallFault>
        requires desk { IsDeskOf self.now desk.old }
        requires there { has_case (desk_view desk.old) id }
        ensures desk { IsDeskOf self.now desk.new }
        ensures called { CallsCase (Event.Start node (desk_view desk.old).number roles.now) id result (desk_view desk.old) (desk_view desk.new) }
    {
        let event = Event::Start {
            node,
            user: desk.number,
            roles: roles.copy(alloc)?,
        };
        self.call_case(rt, alloc, desk, id, &event, gate, line)
    }

    /// Gives a node back. The user is the desk's number.
    pub fn withdraw<R: Wait, G: Gate>(
        &self,
        rt: &R,
        alloc: Global,
        desk: &mut Desk,
        id: CaseId,
        node: u32,
        gate: &G,
        line: u32,
    ) -> Result<Reply, CallFault>
        requires desk { IsDeskOf self.now desk.old }
        requires there { has_case (desk_view desk.old) id }
        ensures desk { IsDeskOf self.now desk.new }
        ensures called { CallsCase (Event.Withdraw node (desk_view desk.old).number) id result (desk_view desk.old) (desk_view desk.new) }
        ensures memory { IfErr result (λ f. f ≡ CallFault.NoMemory → HasRoom (case_pass (desk_view desk.new) id)) }
    {
        let event = Event::Withdraw {
            node,
            user: desk.number,
        };
        self.call_case(rt, alloc, desk, id, &event, gate, line)
    }

    /// Ends a node with these writes and with a choice. The user is the desk's number.
    pub fn end<R: Wait, G: Gate>(
        &self,
        rt: &R,
        alloc: Global,
        desk: &mut Desk,
        id: CaseId,
        node: u32,
        writes: &Writes,
        choice: Option<u16>,
        gate: &G,
        line: u32,
    ) -> Result<Reply, CallFault>
        requires desk { IsDeskOf self.now desk.old }
        requires there { has_case (desk_view desk.old) id }
        ensures desk { IsDeskOf self.now desk.new }
        ensures called { CallsCase (Event.End node (desk_view desk.old).number choice writes.now) id result (desk_view desk.old) (desk_view desk.new) }
    {
        let event = Event::End {
            node,
            user: desk.number,
            writes: writes.duplicate(alloc)?,
            choice,
        };
        self.call_case(rt, alloc, desk, id, &event, gate, line)
    }

    /// Changes the schema of a case.
    pub fn change<R: Wait, G: Gate>(
        &self,
        rt: &R,
        alloc: Global,
        desk: &mut Desk,
        id: CaseId,
        ops: &Ops,
        gate: &G,
        line: u32,
    ) -> Result<Reply, CallFault>
        requires desk { IsDeskOf self.now desk.old }
        requires there { has_case (desk_view desk.old) id }
        requires light { length ops.now ≤ 20000 }
        ensures desk { IsDeskOf self.now desk.new }
        ensures called { CallsCase (Event.Change ops.now) id result (desk_view desk.old) (desk_view desk.new) }
    {
        let event = Event::Change(ops.copy(alloc)?);
        self.call_case(rt, alloc, desk, id, &event, gate, line)
    }
}
