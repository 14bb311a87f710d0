// The calls of a line.
ghost use Rattle.std.specs.Prelude.{◌≡◌};
ghost use Rattle.adept_actor.specs.Work.{Acts, CanAct, CanCall, Makes, first_fault};
ghost use Rattle.adept_server.specs.Desks.{IsDeskOf, desk_view};

use adept_server::{Desk, Server};
use case_core::Case;
use file_model::Act;
use line_calls::{Call, Told, call_of};
use std::alloc::Global;
use std::sync::Wait;
use std::thread::Threads;
use turn_batch::Answers;
use turn_cell::{CallFault, Gate};
use wsm_lists::RoleList;

/// Makes the calls of an act, and answers the fault that they met. The answers of the machines stand in the journals.
pub fn act<R: Threads + Wait + Sync, G: Gate + Sync>(
    rt: &R,
    alloc: Global,
    server: &Server,
    desk: &mut Desk,
    roles: &RoleList,
    act: &Act,
    gate: &G,
    line: u32,
) -> Option<CallFault>
    requires desk { IsDeskOf server.now desk.old }
    requires able { CanAct (desk_view desk.old) act.now }
    ensures desk { IsDeskOf server.now desk.new }
    ensures worked { Acts roles.now act.now result (desk_view desk.old) (desk_view desk.new) }
{
    match call_of(alloc, desk.number(), roles.as_slice(), act) {
        Ok(call) => make(rt, alloc, server, desk, &call, gate, line),
        Err(_) => Some(CallFault::NoMemory),
    }
}

// Makes a call, and those that its answer brings.
fn make<R: Threads + Wait + Sync, G: Gate + Sync>(
    rt: &R,
    alloc: Global,
    server: &Server,
    desk: &mut Desk,
    call: &Call,
    gate: &G,
    line: u32,
) -> Option<CallFault>
    requires desk { IsDeskOf server.now desk.old }
    requires able { CanCall (desk_view desk.old) call.now }
    ensures desk { IsDeskOf server.now desk.new }
    ensures made { Makes call.now result (desk_view desk.old) (desk_view desk.new) }
{
    match call {
        Call::Kind { type_no, event } => server
            .call_kind(rt, alloc, desk, *type_no, event, gate, line)
            .err(),
        Call::Case { id, event } => server
            .call_case(rt, alloc, desk, *id, event, gate, line)
            .err(),
        Call::Newest { type_no, then } => match then {
            Told::Create(id) => server.create(rt, alloc, desk, *id, gate, line).err(),
            Told::Migrate(many) => {
                match server.migrate_first(rt, alloc, desk, *type_no, *many, gate, line) {
                    Ok(answers) => first_fault(answers),
                    Err(fault) => Some(fault),
                }
            }
        },
    }
}

// The first fault among the answers of cells, in their order.
fn first_fault(answers: Answers<Case>) -> Option<CallFault>
    ensures { result ≡ first_fault answers.items.items }
{
    for answer in answers.items {
        if let Err(fault) = answer {
            return Some(fault);
        }
    }
    None
}
