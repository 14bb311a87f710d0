// The lines of an actor.
ghost use Rattle.std.specs.Result.{result_err};
ghost use Rattle.adept_actor.specs.Work.{Acts, CanAct, CanWork, WorksLines};
ghost use Rattle.adept_server.specs.Desks.{IsDeskOf, desk_view};

use crate::calls::act;
use adept_server::{Desk, Server};
use file_model::{Line, Lines};
use std::alloc::Global;
use std::sync::Wait;
use std::thread::Threads;
use turn_cell::{CallFault, Gate, Side};
use wsm_lists::RoleList;

/// Makes the calls of the desk's own lines among these, in order, for an actor with these roles. The gate is reached before
/// and after each of them. The first fault of a call is answered, and no line after that one is worked. Passes of cells that no
/// line names are as before.
pub fn work<R: Threads + Wait + Sync, G: Gate + Sync>(
    rt: &R,
    alloc: Global,
    server: &Server,
    desk: &mut Desk,
    roles: &RoleList,
    lines: &Lines,
    gate: &G,
) -> Result<(), CallFault>
    requires desk { IsDeskOf server.now desk.old }
    requires able { CanWork (desk_view desk.old) lines.now }
    ensures desk { IsDeskOf server.now desk.new }
    ensures worked { WorksLines roles.now lines.now (result_err result) (desk_view desk.old) (desk_view desk.new) }
{
    for line in lines.as_slice() {
        if line.actor == desk.number() {
            work_line(rt, alloc, server, desk, roles, line, gate)?;
        }
    }
    Ok(())
}

/// Makes the calls of a line, for an actor with these roles. The gate is reached before and after it. Passes of cells that the line
/// does not name are as before.
pub fn work_line<R: Threads + Wait + Sync, G: Gate + Sync>(
    rt: &R,
    alloc: Global,
    server: &Server,
    desk: &mut Desk,
    roles: &RoleList,
    line: &Line,
    gate: &G,
) -> Result<(), CallFault>
    requires desk { IsDeskOf server.now desk.old }
    requires able { CanAct (desk_view desk.old) line.now.act }
    ensures desk { IsDeskOf server.now desk.new }
    ensures worked { Acts roles.now line.now.act (result_err result) (desk_view desk.old) (desk_view desk.new) }
{
    let actor = desk.number();
    gate.reach(actor, line.order, Side::Before);
    let fault = act(rt, alloc, server, desk, roles, &line.act, gate, line.order);
    gate.reach(actor, line.order, Side::After);
    match fault {
        None => Ok(()),
        Some(fault) => Err(fault),
    }
}
