// How a crew is hired.
ghost use Rattle.std.specs.Prelude.{◌≡◌, ◌≤◌, length, IfOk};
ghost use Rattle.adept_server.specs.Desks.{IsDeskOf, desk_view};
ghost use Rattle.crew_run.specs.{Crew.AreHired, Desks.{HasShapeOf, IsIdle}};

use crate::workers::Worker;
use adept_server::{Desk, Server};
use std::alloc::Global;
use wsm_lists::NoMemory;

/// A desk for each of so many actors, numbered one after another.
pub fn hire(
    alloc: Global,
    server: &Server,
    first: &mut Desk,
    actors: usize,
) -> Result<Vec<Worker>, NoMemory>
    requires first { IsDeskOf server.now first.old }
    requires number { (desk_view first.old).number ≡ 0 }
    requires made { (desk_view first.old).made ≡ 1 }
    requires taken { (desk_view first.old).taken ≡ 0 }
    requires idle { IsIdle (desk_view first.old) }
    requires few { actors ≤ 32 }
    ensures many { IfOk result (λ crew. length crew.items ≡ actors) }
    ensures shape { IfOk result (λ crew. HasShapeOf (desk_view first.old) (desk_view first.new)) }
    ensures hired { IfOk result (λ crew. AreHired server.now first.new crew.items) }
{
    let mut crew = Vec::with_capacity(alloc, actors)?;
    for _ in 0..actors {
        let desk = server.desk(alloc, first)?;
        crew.push(Worker { desk, fault: None })?;
    }
    Ok(crew)
}
