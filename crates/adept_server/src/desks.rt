// Desks.
use case_core::Case;
use turn_cell::Pass;
use type_core::Kind;

/// An actor's right to call: a pass of each cell of one server. All of its passes have the desk's number.
#[derive(Drop)]
pub struct Desk {
    pub(crate) number: u32,
    pub(crate) made: u32,
    pub(crate) taken: u32,
    pub(crate) defined: Vec<bool>,
    pub(crate) kinds: Vec<Pass<Kind>>,
    pub(crate) cases: Vec<Vec<Pass<Case>>>,
}

impl Desk {
    ghost use Rattle.std.specs.Prelude.{◌≡◌, ◌↔◌, IsTrue, Some, true, slice_get};
    ghost use Rattle.adept_server.specs.Desks.{IsDefinedFor, IsDesk, desk_view};

    /// The number of all of its passes. It is the user of the nodes that it starts and ends.
    pub fn number(&self) -> u32
        ensures { result ≡ (desk_view self.now).number }
    {
        self.number
    }

    /// How many desks were made, where it is the first of them.
    pub fn made(&self) -> u32
        ensures { result ≡ (desk_view self.now).made }
    {
        self.made
    }

    /// How many desks were taken into it.
    pub fn taken(&self) -> u32
        ensures { result ≡ (desk_view self.now).taken }
    {
        self.taken
    }

    /// Whether a call of this desk, or of one that it was told of, was answered so that the type has a version.
    pub fn defined(&self, type_no: u32) -> bool
        ensures flag { IsTrue result ↔ (slice_get (desk_view self.now).defined type_no ≡ Some true) }
        ensures known { IsDesk (desk_view self.now) → IsTrue result → IsDefinedFor (desk_view self.now) type_no }
    {
        self.defined.get(type_no as usize).copied() == Some(true)
    }
}
