// Closed servers.
use case_core::Case;
use turn_cell::Closed;
use type_core::Kind;

/// What a server was when it was closed: its types, and the cases of each type by their places.
#[derive(Drop)]
pub struct ClosedServer {
    pub kinds: Vec<Closed<Kind>>,
    pub cases: Vec<Vec<Closed<Case>>>,
}
