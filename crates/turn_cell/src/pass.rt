//! The right to call a cell.
ghost use Rattle.std.specs.Prelude.{◌≡◌, [], Some, None, IsTrue, IsSome, ◌↔◌};
ghost use Rattle.turn_cell.specs.declared.seat_view.Phase.TheVariants.{Idle};

use crate::cell::PassSeat;
use crate::faults::CallFault;
use crate::machine::Machine;

/// The right to call one cell, with what was seen of its journal. Each call on a cell is made with one of its passes.
#[derive(Drop)]
pub struct Pass<M: Machine> {
    pub(crate) number: u32,
    pub(crate) made: u32,
    pub(crate) taken: u32,
    pub(crate) seat: PassSeat<M>,
    pub(crate) kept: Option<Result<M::Reply, CallFault>>,
    ghost idle: { (seat.me.0.phase ≡ Idle) × (seat.me.1 ≡ []) },
    ghost counts: { (seat.me.0.number ≡ number) × (seat.me.0.made ≡ made) × (seat.me.0.taken ≡ taken) },
}

impl<M: Machine> Pass<M> {
    ghost use Rattle.turn_cell.specs.Passes.{view_of};

    /// The number of its calls in the journal, which no other pass of the cell has.
    pub fn number(&self) -> u32
        ensures { result ≡ (view_of self.now).number }
    {
        self.number
    }

    /// How many passes of the cell were made, where it is the first of them.
    pub fn made(&self) -> u32
        ensures { result ≡ (view_of self.now).made }
    {
        self.made
    }

    /// How many passes were joined into it.
    pub fn taken(&self) -> u32
        ensures { result ≡ (view_of self.now).taken }
    {
        self.taken
    }

    /// Keeps the answer of a call for whoever takes it later, in place of one that was kept.
    pub fn keep(&mut self, answer: Result<M::Reply, CallFault>)
        ensures { view_of self.new ≡ record (view_of self.old) { kept = Some answer } }
    {
        self.kept = Some(answer);
    }

    /// Whether it keeps an answer.
    pub fn has_kept(&self) -> bool
        ensures { IsTrue result ↔ IsSome (view_of self.now).kept }
    {
        self.kept.is_some()
    }

    /// The answer that it keeps, which it then keeps no longer.
    pub fn take_kept(&mut self) -> Option<Result<M::Reply, CallFault>>
        ensures answer { result ≡ (view_of self.old).kept }
        ensures same { view_of self.new ≡ record (view_of self.old) { kept = None } }
    {
        self.kept.take()
    }
}
