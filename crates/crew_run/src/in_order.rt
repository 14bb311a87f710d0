// A phase of few lines, worked by the caller in the order of the file.
ghost use Rattle.std.specs.{Prelude.{◌≡◌, ◌<◌, None, length, slice_index_or}, List.AllZip};
ghost use Rattle.adept_actor.specs.Work.{CanAct};
ghost use Rattle.adept_server.specs.Desks.{IsDeskOf, desk_view};
ghost use Rattle.crew_run.specs.Phases.{HasForgotten, HasWorked, IsReadyAt, TakesLine};
ghost use Rattle.file_facts.specs.Facts.{IsKnown};
ghost use Rattle.wsm_lists.specs.Rows.{AllRows};

use crate::workers::Worker;
use adept_actor::work_line;
use adept_server::Server;
use file_model::{File, Line, Lines};
use std::alloc::Global;
use std::sync::Wait;
use std::thread::Threads;
use turn_cell::Gate;
use wsm_lists::RoleList;

/// Each worker works its own lines, and keeps the fault that it met: the line that stands first among all goes first.
pub fn work_in_order<R: Threads + Wait + Sync, G: Gate + Sync>(
    rt: &R,
    alloc: Global,
    server: &Server,
    file: &File,
    crew: &mut [Worker],
    lines: &Lines,
    gate: &G,
)
    requires actors { length crew.old ≡ length file.now.actors }
    requires known { AllRows (IsKnown (length file.now.types) (length file.now.actors) file.now.cases) lines.now }
    requires ready { (i : _) (d : _) → i < length crew.old → IsReadyAt server.now lines.now i (slice_index_or crew.old i d) }
    ensures { (i : _) (d : _) → i < length crew.old → HasWorked server.now file.now lines.now (slice_index_or crew.old i d) (slice_index_or crew.new i d) }
{
    forget_faults(crew);
    for line in lines.as_slice() {
        let index = line.actor as usize - 1;
        let roles = &file.actors.as_slice()[index].roles;
        take_line(rt, alloc, server, &mut crew[index], roles, line, gate);
    }
}

// No worker has met a fault yet.
fn forget_faults(crew: &mut [Worker])
    ensures { AllZip HasForgotten crew.old crew.new }
{
    let Some((worker, rest)) = crew.split_first_mut() else {
        return;
    };
    worker.fault = None;
    forget_faults(rest);
}

// The worker's next line. Who has met a fault takes none.
fn take_line<R: Threads + Wait + Sync, G: Gate + Sync>(
    rt: &R,
    alloc: Global,
    server: &Server,
    worker: &mut Worker,
    roles: &RoleList,
    line: &Line,
    gate: &G,
)
    requires desk { IsDeskOf server.now worker.old.desk }
    requires able { worker.old.fault ≡ None → CanAct (desk_view worker.old.desk) line.now.act }
    ensures desk { IsDeskOf server.now worker.new.desk }
    ensures taken { TakesLine roles.now line.now worker.old worker.new worker.old.fault }
{
    if worker.fault.is_some() {
        return;
    }
    worker.fault = work_line(rt, alloc, server, &mut worker.desk, roles, line, gate).err();
}
