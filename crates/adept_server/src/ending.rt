// How servers end.
ghost use Rattle.std.specs.Prelude.{◌≡◌, ◌+◌};
ghost use Rattle.adept_server.specs.{Desks.{IsDeskOf, desk_view}, Opening.IsClosedServer};

use crate::all_rows::close_all;
use crate::closing::ClosedServer;
use crate::desks::Desk;
use crate::servers::Server;
use turn_rows::close_into;

impl Server {
    /// The machines and journals of all cells, once all desks were taken into the first. It takes no memory.
    pub fn close(self, first: Desk) -> ClosedServer
        requires desk { IsDeskOf self first }
        requires first { (desk_view first).number ≡ 0 }
        requires all { (desk_view first).made ≡ (desk_view first).taken + 1 }
        ensures { IsClosedServer (desk_view first) result }
    {
        let Desk {
            kinds: first_kinds,
            cases: first_cases,
            ..
        } = first;
        let Server {
            kinds,
            cases,
            mut closed_kinds,
            mut closed_cases,
        } = self;
        close_into(kinds, first_kinds, &mut closed_kinds);
        close_all(
            cases.into_iter(),
            first_cases.into_iter(),
            &mut closed_cases,
        );
        ClosedServer {
            kinds: closed_kinds,
            cases: closed_cases,
        }
    }
}
