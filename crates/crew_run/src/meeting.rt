// How a crew meets.
ghost use Rattle.std.specs.List.{AllZip};
ghost use Rattle.adept_server.specs.{Desks.{IsDeskOf, desk_view}, Noting.{AreLevelDesks, IsCalledOf}, Opening.SeesMore};
ghost use Rattle.crew_run.specs.{Crew.{AreMet, HasMet}, Desks.{DeskHeard, HasTold}};
ghost use Rattle.wsm_lists.specs.Rows.{AllRows};

use crate::workers::Worker;
use adept_server::{CallFlags, Desk, Server};

/// All have then seen the longest list of each cell: the first desk meets each of the crew, and then each of them again.
/// Cells that were not called are passed over: of them all have seen the same.
pub fn meet_all(server: &Server, called: &CallFlags, first: &mut Desk, crew: &mut [Worker])
    requires called { IsCalledOf server.now called.now }
    requires first { IsDeskOf server.now first.old }
    requires crew { AllRows (λ w. IsDeskOf server.now w.desk) crew.old }
    requires level { AllRows (λ w. AreLevelDesks called.now (desk_view first.old) (desk_view w.desk)) crew.old }
    ensures first { IsDeskOf server.now first.new × DeskHeard (desk_view first.old) (desk_view first.new) }
    ensures met { AreMet server.now (desk_view first.new) crew.old crew.new }
{
    meet_each(server, called, first, crew);
    // The first desk has seen all, and tells it.
    meet_each(server, called, first, crew);
}

// The first desk then has seen all that one of the crew has. Where it had seen that before, each of the crew then has seen what the first desk has.
fn meet_each(server: &Server, called: &CallFlags, first: &mut Desk, crew: &mut [Worker])
    requires called { IsCalledOf server.now called.now }
    requires first { IsDeskOf server.now first.old }
    requires crew { AllRows (λ w. IsDeskOf server.now w.desk) crew.old }
    requires level { AllRows (λ w. AreLevelDesks called.now (desk_view first.old) (desk_view w.desk)) crew.old }
    ensures first { IsDeskOf server.now first.new × DeskHeard (desk_view first.old) (desk_view first.new) }
    ensures calm { AreLevelDesks called.now (desk_view first.old) (desk_view first.new) }
    ensures met { AllZip (HasMet server.now called.now (desk_view first.new)) crew.old crew.new }
    ensures stays { AllRows (λ w. SeesMore (desk_view w.desk) (desk_view first.old)) crew.old → HasTold (desk_view first.old) (desk_view first.new) crew.new }
{
    let Some((worker, rest)) = crew.split_first_mut() else {
        return;
    };
    server.meet_called(called, first, &mut worker.desk);
    meet_each(server, called, first, rest);
}
