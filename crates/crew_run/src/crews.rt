// A file's script, worked by a crew.
ghost use Rattle.std.specs.Prelude.{◌≡◌, ◌≢◌, length, IfErr, IfOk, OnOk};
ghost use Rattle.adept_server.specs.{Desks.desk_view, Noting.{AllCalled, IsCalledOf}};
ghost use Rattle.crew_run.specs.{Crew.{AreHired, HasShape, IsCrew}, Phases.{HasWorkedAll, IsOverfull}};
ghost use Rattle.file_facts.specs.Facts.{IsWorkable};
ghost use Rattle.legal_run.specs.Legal.{Legal};

use crate::closing::{dismiss, run_of};
use crate::counting::case_counts;
use crate::definitions::define_types;
use crate::hiring::hire;
use crate::meeting::meet_all;
use crate::phases::work_phases;
use crate::rooms::rooms_of;
use crate::workers::Worker;
use adept_server::{CallFlags, Desk, Server};
use file_model::File;
use script_run::Run;
use std::alloc::Global;
use std::sync::Wait;
use std::thread::Threads;
use turn_cell::{CallFault, Gate, NoMemory};

/// Works a file's script with a crew: each actor its own lines, in order, in work of its own that runs beside the others',
/// phase after phase. The run is a legal one, whatever way the actors' turns fall.
pub fn crew_run<R: Threads + Wait + Sync, G: Gate + Sync>(
    rt: &R,
    alloc: Global,
    file: &File,
    gate: &G,
) -> Result<Run, NoMemory>
    requires { IsWorkable file.now }
    ensures { IfOk result (λ run. Legal file.now run) }
{
    let counts = case_counts(alloc, file)?;
    let rooms = rooms_of(alloc, file, &counts)?;
    let (server, mut first) = Server::with_rooms(alloc, &counts, &rooms)?;
    let mut crew = hire(alloc, &server, &mut first, file.actors.len())?;
    let mut called = server.all_called(alloc)?;
    let worked = work_file(
        rt,
        alloc,
        &server,
        file,
        &mut first,
        &mut crew,
        &mut called,
        gate,
    );
    dismiss(&server, &mut first, crew);
    let closed = server.close(first);
    match worked {
        Ok(()) => run_of(alloc, file, closed),
        Err(fault) => Err(no_memory(fault)),
    }
}

// The fault of a run: a journal takes more entries than a file has lines, so none was full.
fn no_memory(fault: CallFault) -> NoMemory
    requires { fault ≢ CallFault.Full }
{
    match fault {
        CallFault::NoMemory => NoMemory,
        CallFault::Full => unreachable!(),
    }
}

// The first desk defines the types, all meet, and the crew works the phases.
fn work_file<R: Threads + Wait + Sync, G: Gate + Sync>(
    rt: &R,
    alloc: Global,
    server: &Server,
    file: &File,
    first: &mut Desk,
    crew: &mut [Worker],
    called: &mut CallFlags,
    gate: &G,
) -> Result<(), CallFault>
    requires file { IsWorkable file.now }
    requires hired { AreHired server.now first.old crew.old }
    requires actors { length crew.old ≡ length file.now.actors }
    requires shape { HasShape file.now (desk_view first.old) }
    requires called { IsCalledOf server.now called.old × AllCalled called.old }
    ensures crew { IsCrew server.now file.now first.new crew.new }
    ensures full { IfErr result (λ fault. fault ≡ CallFault.Full → IsOverfull file.now (desk_view first.new) crew.new) }
    ensures done { OnOk result (HasWorkedAll file.now (desk_view first.new) crew.new) }
{
    let defined = define_types(rt, alloc, server, first, file.types.as_slice(), gate);
    meet_all(server, called, first, crew);
    defined?;
    work_phases(rt, alloc, server, file, first, crew, called, gate)
}
