// How a crew works.
ghost use Rattle.std.specs.{Prelude.{◌≡◌, ◌<◌, [], length, is_some, true, false, IfErr, OnOk, slice_index_or, ◌≤◌, ◌/◌}, List.list_any, Thread.IsSync};
ghost use Rattle.adept_server.specs.{Desks.desk_view, Noting.{IsCalledOf, rows_of}};
ghost use Rattle.crew_run.specs.{Crew.{IsCrew, KnowsTypes, SeesMany}, Desks.DeskHeard, Phases.{HasWorkedAll, HasWorked, IsAlong, IsOverfull, IsReadyAt, PhaseWorked, is_full_fault}};
ghost use Rattle.file_facts.specs.Facts.{IsKnown, IsWorkable};
ghost use Rattle.legal_run.specs.Legal.{IsTrace, Trace};
ghost use Rattle.wsm_lists.specs.Rows.{AllRows};

use crate::in_order::work_in_order;
use crate::meeting::meet_all;
use crate::naming::note_lines;
use crate::workers::Worker;
use adept_actor::work;
use adept_server::{CallFlags, Desk, Server};
use file_model::{File, Lines};
use std::alloc::Global;
use std::sync::Wait;
use std::thread::{Threads, available_parallelism, for_each_mut};
use turn_cell::{CallFault, Gate};

/// A phase of fewer lines is worked before threads were started for it.
const LINES_OF_A_START: usize = 64;

/// A phase has a thread for each actor where it has at least so many lines for each of them.
const LINES_OF_A_THREAD: usize = 1024;

/// Works the phases one after another, each in the order of its lines or in threads among which the workers are shared. Behind each of them all have met, at
/// the cells that its lines name.
pub fn work_phases<R: Threads + Wait + Sync, G: Gate + Sync>(
    rt: &R,
    alloc: Global,
    server: &Server,
    file: &File,
    first: &mut Desk,
    crew: &mut [Worker],
    called: &mut CallFlags,
    gate: &G,
) -> Result<(), CallFault>
    requires file { IsWorkable file.now }
    requires crew { IsCrew server.now file.now first.old crew.old }
    requires knows { KnowsTypes (length file.now.types) (desk_view first.old) }
    requires called { IsCalledOf server.now called.old }
    requires along { IsAlong file.now (length file.now.types) [] (desk_view first.old) crew.old }
    ensures crew { IsCrew server.now file.now first.new crew.new }
    ensures full { IfErr result (λ fault. fault ≡ CallFault.Full → IsOverfull file.now (desk_view first.new) crew.new) }
    ensures done { OnOk result (HasWorkedAll file.now (desk_view first.new) crew.new) }
{
    let processors = processor_count(rt);
    for lines in file.phases.as_slice() {
        work_phase(
            rt, alloc, server, file, first, crew, called, lines, processors, gate,
        )?;
    }
    Ok(())
}

// How many processors there are. One counts as two, so that actors work side by side there too.
fn processor_count<R: Threads>(rt: &R) -> usize
    ensures { 0 < result }
{
    match available_parallelism(rt) {
        Ok(count) => count.get().max(2),
        Err(_) => 2,
    }
}

// In how many threads a phase with so many lines is worked: each actor has one of its own where there are many, and else they
// share as many as there are processors, since the start of more would cost too much beside the lines.
fn thread_count(lines: usize, actors: usize, processors: usize) -> usize
    requires { 0 < processors }
    ensures some { 0 < result }
    ensures own { actors ≤ lines / LINES_OF_A_THREAD → actors ≤ result }
{
    if actors <= lines / LINES_OF_A_THREAD {
        processors.max(actors)
    } else {
        processors
    }
}

fn work_phase<R: Threads + Wait + Sync, G: Gate + Sync>(
    rt: &R,
    alloc: Global,
    server: &Server,
    file: &File,
    first: &mut Desk,
    crew: &mut [Worker],
    called: &mut CallFlags,
    lines: &Lines,
    processors: usize,
    gate: &G,
) -> Result<(), CallFault>
    requires processors { 0 < processors }
    requires file { IsWorkable file.now }
    requires lines { AllRows (IsKnown (length file.now.types) (length file.now.actors) file.now.cases) lines.now }
    requires crew { IsCrew server.now file.now first.old crew.old }
    requires knows { KnowsTypes (length file.now.types) (desk_view first.old) }
    requires called { IsCalledOf server.now called.old }
    ensures called { rows_of called.new ≡ rows_of called.old }
    ensures crew { IsCrew server.now file.now first.new crew.new }
    ensures heard { DeskHeard (desk_view first.old) (desk_view first.new) }
    ensures worked { (trace : Trace) × PhaseWorked file.now lines.now trace crew.old crew.new × OnOk result (IsTrace file.now lines.now trace) }
    ensures full { IfErr result (λ fault. fault ≡ CallFault.Full → SeesMany (desk_view first.new)) }
{
    work_lines(rt, alloc, server, file, crew, lines, processors, gate);
    note_lines(called, lines);
    meet_all(server, called, first, crew);
    outcome(crew)
}

// How a phase ended for the crew: with a full journal where one of them met that, else without memory where one met a fault.
fn outcome(crew: &[Worker]) -> Result<(), CallFault>
    ensures full { IfErr result (λ fault. fault ≡ CallFault.Full → list_any (λ w. is_full_fault w.fault) crew.now ≡ true) }
    ensures well { OnOk result (list_any (λ w. is_some w.fault) crew.now ≡ false) }
{
    if is_full(crew) {
        return Err(CallFault::Full);
    }
    if has_fault(crew) {
        return Err(CallFault::NoMemory);
    }
    Ok(())
}

// Whether one of the crew met a full journal.
fn is_full(crew: &[Worker]) -> bool
    ensures { result ≡ list_any (λ w. is_full_fault w.fault) crew.now }
{
    crew.iter()
        .any(|worker| matches!(worker.fault, Some(CallFault::Full)))
}

// Whether one of the crew met a fault.
fn has_fault(crew: &[Worker]) -> bool
    ensures { result ≡ list_any (λ w. is_some w.fault) crew.now }
{
    crew.iter().any(|worker| worker.fault.is_some())
}

// Each worker works its own lines of a phase, and keeps the fault that it met: a phase of few lines is worked in the order of the
// file, and one of more in threads.
fn work_lines<R: Threads + Wait + Sync, G: Gate + Sync>(
    rt: &R,
    alloc: Global,
    server: &Server,
    file: &File,
    crew: &mut [Worker],
    lines: &Lines,
    processors: usize,
    gate: &G,
)
    requires processors { 0 < processors }
    requires actors { length crew.old ≡ length file.now.actors }
    requires known { AllRows (IsKnown (length file.now.types) (length file.now.actors) file.now.cases) lines.now }
    requires ready { (i : _) (d : _) → i < length crew.old → IsReadyAt server.now lines.now i (slice_index_or crew.old i d) }
    ensures { (i : _) (d : _) → i < length crew.old → HasWorked server.now file.now lines.now (slice_index_or crew.old i d) (slice_index_or crew.new i d) }
{
    if lines.len() < LINES_OF_A_START {
        work_in_order(rt, alloc, server, file, crew, lines, gate);
    } else {
        let threads = thread_count(lines.len(), crew.len(), processors);
        work_side_by_side(rt, alloc, server, file, crew, lines, threads, gate);
    }
}

// Each worker works its own lines of a phase in one of so many threads, and keeps the fault that it met.
fn work_side_by_side<R: Threads + Wait + Sync, G: Gate + Sync>(
    rt: &R,
    alloc: Global,
    server: &Server,
    file: &File,
    crew: &mut [Worker],
    lines: &Lines,
    threads: usize,
    gate: &G,
)
    requires threads { 0 < threads }
    requires actors { length crew.old ≡ length file.now.actors }
    requires ready { (i : _) (d : _) → i < length crew.old → IsReadyAt server.now lines.now i (slice_index_or crew.old i d) }
    ensures { (i : _) (d : _) → i < length crew.old → HasWorked server.now file.now lines.now (slice_index_or crew.old i d) (slice_index_or crew.new i d) }
{
    let work_own = |index: usize, worker: &mut Worker|
        requires { IsSync R.row × IsSync G.row × (index < length file.now.actors) × IsReadyAt server.now lines.now index worker.now }
        ensures { HasWorked server.entry.now file.entry.now lines.entry.now worker.entry.now worker.exit.now }
    {
        let roles = &file.actors.as_slice()[index].roles;
        worker.fault = work(rt, alloc, server, &mut worker.desk, roles, lines, gate).err();
    };
    for_each_mut(rt, crew, threads, &work_own);
}
