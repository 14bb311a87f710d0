// Servers.
ghost use Rattle.std.specs.Prelude.{◌≡◌, vec_len, vec_capacity};
ghost use Rattle.adept_server.specs.Rooms.{HaveRoomFor};

use case_core::Case;
use turn_cell::{Cell, Closed};
use type_core::Kind;
use wsm_sound::CaseId;

/// A cell for each process type, and one for each case, by its type and its place there.
/// What `close` answers has its room from the beginning.
#[derive(Drop)]
pub struct Server {
    pub(crate) kinds: Vec<Cell<Kind>>,
    pub(crate) cases: Vec<Vec<Cell<Case>>>,
    pub(crate) closed_kinds: Vec<Closed<Kind>>,
    pub(crate) closed_cases: Vec<Vec<Closed<Case>>>,
    ghost room_for_kinds: { (vec_len closed_kinds ≡ 0) × (vec_capacity closed_kinds ≡ vec_len kinds) },
    ghost room_for_cases: { HaveRoomFor cases.items closed_cases.items },
}

impl Server {
    ghost use Rattle.std.specs.Prelude.{◌≡◌, ◌↔◌, IsTrue, IsSome, map};
    ghost use Rattle.adept_server.specs.Desks.{IsDeskOf, at_case, desk_view, has_case};

    /// Whether there is such a case.
    pub fn has(&self, case: CaseId) -> bool
        ensures cell { IsTrue result ↔ IsSome (at_case (map (λ row. row.items) self.now.cases.items) case) }
        ensures pass { (d : _) → IsDeskOf self.now d → (IsTrue result ↔ has_case (desk_view d) case) }
    {
        match self.cases.get(case.type_no as usize) {
            None => false,
            Some(row) => (case.place as usize) < row.len(),
        }
    }
}
