// How a run ends.
ghost use Rattle.std.specs.{Prelude.{◌≡◌, ◌+◌, ◌≤◌, map, length, IfOk}, List.AllZip};
ghost use Rattle.adept_server.specs.Desks.{IsDeskOf, desk_view};
ghost use Rattle.crew_run.specs.{CaseCounts.AreCounts, Closing.{IsClosedAt, IsRunOf, closed_case, closed_kind}, Desks.all_joined};
ghost use Rattle.file_facts.specs.Facts.{IsWorkable};
ghost use Rattle.wsm_lists.specs.Rows.{AllRows};

use crate::workers::Worker;
use adept_server::{ClosedServer, Desk, Server};
use case_core::Case;
use file_model::File;
use script_run::{ClosedCase, ClosedCases, ClosedKind, ClosedKinds, Run};
use std::alloc::Global;
use turn_cell::{Closed, NoMemory};
use type_core::Kind;
use wsm_lists::Listing;

/// Takes the desk of each worker into the first desk, in order. It takes no memory.
pub fn dismiss(server: &Server, first: &mut Desk, crew: Vec<Worker>)
    requires first { IsDeskOf server.now first.old }
    requires desks { AllRows (λ w. IsDeskOf server.now w.desk) crew.items }
    requires number { (desk_view first.old).number ≡ 0 }
    requires few { (desk_view first.old).taken + length crew.items ≤ 33 }
    ensures desk { IsDeskOf server.now first.new }
    ensures joined { desk_view first.new ≡ all_joined (desk_view first.old) crew.items }
{
    for worker in crew {
        server.join(first, worker.desk);
    }
}

/// The run that a closed server leaves: its types in their order, and each case where it was declared. No entry of a
/// journal is copied.
pub fn run_of(alloc: Global, file: &File, closed: ClosedServer) -> Result<Run, NoMemory>
    requires file { IsWorkable file.now }
    requires cases { AreCounts file.now (map (λ row. length row.items) closed.cases.items) }
    ensures { IfOk result (λ run. IsRunOf file.now closed run) }
{
    let ClosedServer { kinds, cases } = closed;
    Ok(Run {
        kinds: closed_kinds(alloc, kinds)?,
        cases: closed_cases(alloc, file, cases)?,
    })
}

fn closed_kind(closed: Closed<Kind>) -> ClosedKind
    ensures { result ≡ closed_kind closed }
{
    ClosedKind {
        machine: closed.machine,
        journal: Listing::from_vec(closed.journal.items),
    }
}

fn closed_case(closed: Closed<Case>) -> ClosedCase
    ensures { result ≡ closed_case closed }
{
    ClosedCase {
        machine: closed.machine,
        journal: Listing::from_vec(closed.journal.items),
    }
}

fn closed_kinds(alloc: Global, kinds: Vec<Closed<Kind>>) -> Result<ClosedKinds, NoMemory>
    ensures { IfOk result (λ all. all ≡ map closed_kind kinds.items) }
{
    let all: Vec<ClosedKind> = kinds.into_iter().map(closed_kind).collect(alloc)?;
    Ok(Listing::from_vec(all))
}

// The cases where they were declared. From the last to the first, each stands at the end of what is left of its type's.
fn closed_cases(
    alloc: Global,
    file: &File,
    mut rows: Vec<Vec<Closed<Case>>>,
) -> Result<ClosedCases, NoMemory>
    requires file { IsWorkable file.now }
    requires cases { AreCounts file.now (map (λ row. length row.items) rows.items) }
    ensures { IfOk result (λ all. AllZip (IsClosedAt (map (λ row. row.items) rows.items)) file.now.cases all) }
{
    let decls = file.cases.as_slice();
    let mut all = Vec::with_capacity(alloc, decls.len())?;
    for index in (0..decls.len()).rev() {
        let row = &mut rows[decls[index].id.type_no as usize];
        all.push_reserved(closed_case(row.pop().unwrap()));
    }
    all.reverse();
    Ok(Listing::from_vec(all))
}
