//! The calls on a cell.
ghost use Rattle.std.specs.Prelude.{◌≡◌, ◌≢◌, ◌+◌, ◌≤◌, ◌<◌, [], length, IfOk, IfErr, OnErr, MatchResult, None};
ghost use Rattle.turn_cell.specs.declared.seat_view.Phase.TheVariants.{Idle, Entered, Inside};
ghost use Rattle.turn_cell.specs.{History.IsViewAfter, Passes.{view_of, view_at, cell_id, IsPassOf, Stays, Sees, Calls}};

use crate::cell::{Cell, PassSeat};
use crate::faults::{CallFault, TryFault};
use crate::gate::{Gate, Side};
use crate::limits::{MAX_ENTRIES, MAX_WEIGHT};
use crate::machine::{Machine, NoMemory};
use crate::pass::Pass;
use std::alloc::Global;
use std::sync::Wait;
use std::thread;

impl<M: Machine> Cell<M> {
    // Waits until it has the turn.
    fn acquire<R: Wait>(&self, rt: &R, seat: &mut PassSeat<M>)
        requires cell { seat.old.table_id ≡ cell_id self.now }
        requires idle { (seat.old.me.0.phase ≡ Idle) × (seat.old.me.1 ≡ []) }
        ensures entered { (seat.new.me.0.phase ≡ Entered) × (seat.new.me.1 ≡ []) }
        ensures stays { Stays (view_at seat.old.table_id None seat.old.me.0) (view_at seat.new.table_id None seat.new.me.0) }
        ensures same { (seat.new.me.0.seen ≡ seat.old.me.0.seen) × (seat.new.me.0.own_calls ≡ seat.old.me.0.own_calls) }
    {
        for _ in rt.forever() {
            if self.try_acquire(seat) {
                return;
            }
            thread::yield_now();
        }
        unreachable!()
    }

    // Makes the call, and ends the turn.
    fn serve<G: Gate>(
        &self,
        alloc: Global,
        seat: &mut PassSeat<M>,
        number: u32,
        event: &M::Event,
        gate: &G,
        line: u32,
    ) -> Result<M::Reply, CallFault>
        requires cell { seat.old.table_id ≡ cell_id self.now }
        requires turn { (seat.old.me.0.phase ≡ Entered) × (seat.old.me.1 ≡ []) }
        requires number { number ≡ seat.old.me.0.number }
        requires light { M.weight event.now ≤ MAX_WEIGHT }
        ensures idle { (seat.new.me.0.phase ≡ Idle) × (seat.new.me.1 ≡ []) }
        ensures stays { Stays (view_at seat.old.table_id None seat.old.me.0) (view_at seat.new.table_id None seat.new.me.0) }
        ensures met { seat.new.me.0.met ≡ seat.old.me.0.met }
        ensures ok { IfOk result (λ r. Calls M.after M.reply event.now (view_at seat.old.table_id None seat.old.me.0) r (view_at seat.new.table_id None seat.new.me.0)) }
        ensures err { OnErr result (Sees M.after M.reply (view_at seat.old.table_id None seat.old.me.0) (view_at seat.new.table_id None seat.new.me.0)) }
        ensures room { length seat.new.me.0.seen ≤ MAX_ENTRIES }
        ensures full { IfErr result (λ f. f ≡ CallFault.Full → length seat.new.me.0.seen ≡ MAX_ENTRIES) }
        ensures memory { IfErr result (λ f. f ≡ CallFault.NoMemory → length seat.new.me.0.seen < MAX_ENTRIES) }
    {
        let mut guarded = self.take_out(seat);
        gate.reach(number, line, Side::Inside(self.label));
        match guarded.make_call(alloc, number, event) {
            Ok(reply) => {
                let count = guarded.journal.items.len() as u64;
                self.publish(seat, guarded, count);
                Ok(reply)
            }
            Err(fault) => {
                self.put_back(seat, guarded);
                Err(fault)
            }
        }
    }

    /// Waits for the turn and makes one call. The gate is reached once, Inside the cell's label, with the pass's
    /// number and that line, while the pass has the turn.
    pub fn call<R: Wait, G: Gate>(
        &self,
        rt: &R,
        alloc: Global,
        pass: &mut Pass<M>,
        event: &M::Event,
        gate: &G,
        line: u32,
    ) -> Result<M::Reply, CallFault>
        requires cell { IsPassOf self.now pass.old }
        requires light { M.weight event.now ≤ MAX_WEIGHT }
        ensures cell { IsPassOf self.now pass.new }
        ensures stays { Stays (view_of pass.old) (view_of pass.new) }
        ensures ok { IfOk result (λ r. Calls M.after M.reply event.now (view_of pass.old) r (view_of pass.new)) }
        ensures err { OnErr result (Sees M.after M.reply (view_of pass.old) (view_of pass.new)) }
        ensures room { length (view_of pass.new).seen ≤ MAX_ENTRIES }
        ensures full { IfErr result (λ f. f ≡ CallFault.Full → length (view_of pass.new).seen ≡ MAX_ENTRIES) }
        ensures memory { IfErr result (λ f. f ≡ CallFault.NoMemory → length (view_of pass.new).seen < MAX_ENTRIES) }
    {
        let number = pass.number;
        let seat = &mut pass.seat;
        self.acquire(rt, seat);
        self.serve(alloc, seat, number, event, gate, line)
    }

    /// Makes one call, as `call` does, if no other pass has the turn.
    pub fn try_call<G: Gate>(
        &self,
        alloc: Global,
        pass: &mut Pass<M>,
        event: &M::Event,
        gate: &G,
        line: u32,
    ) -> Result<M::Reply, TryFault>
        requires cell { IsPassOf self.now pass.old }
        requires light { M.weight event.now ≤ MAX_WEIGHT }
        ensures cell { IsPassOf self.now pass.new }
        ensures stays { Stays (view_of pass.old) (view_of pass.new) }
        ensures ok { IfOk result (λ r. Calls M.after M.reply event.now (view_of pass.old) r (view_of pass.new)) }

        // A pass finds the turn taken only where it has not got it.
        ensures busy { IfErr result (λ f. f ≡ TryFault.Busy → view_of pass.new ≡ record (view_of pass.old) { met = (view_of pass.old).met + 1 }) }
        ensures met { MatchResult result (λ _. (view_of pass.new).met ≡ (view_of pass.old).met) (λ f. f ≢ TryFault.Busy → (view_of pass.new).met ≡ (view_of pass.old).met) }

        ensures err { IfErr result (λ f. f ≢ TryFault.Busy → Sees M.after M.reply (view_of pass.old) (view_of pass.new)) }
        ensures room { MatchResult result (λ _. length (view_of pass.new).seen ≤ MAX_ENTRIES) (λ f. f ≢ TryFault.Busy → length (view_of pass.new).seen ≤ MAX_ENTRIES) }
        ensures full { IfErr result (λ f. f ≡ TryFault.Full → length (view_of pass.new).seen ≡ MAX_ENTRIES) }
        ensures memory { IfErr result (λ f. f ≡ TryFault.NoMemory → length (view_of pass.new).seen < MAX_ENTRIES) }
    {
        let number = pass.number;
        let seat = &mut pass.seat;
        if !self.try_acquire(seat) {
            return Err(TryFault::Busy);
        }
        Ok(self.serve(alloc, seat, number, event, gate, line)?)
    }

    /// Waits for the turn and answers the view of the machine, after the journal that the pass has then seen.
    pub fn look<R: Wait>(
        &self,
        rt: &R,
        alloc: Global,
        pass: &mut Pass<M>,
    ) -> Result<M::View, NoMemory>
        requires cell { IsPassOf self.now pass.old }
        ensures cell { IsPassOf self.now pass.new }
        ensures stays { Stays (view_of pass.old) (view_of pass.new) }
        ensures seen { Sees M.after M.reply (view_of pass.old) (view_of pass.new) }
        ensures view { IfOk result (λ w. IsViewAfter M.after M.shown (view_of pass.new).opening (view_of pass.new).seen w) }
    {
        let seat = &mut pass.seat;
        self.acquire(rt, seat);
        let guarded = self.take_out(seat);
        let view = guarded.machine.view(alloc);
        self.put_back(seat, guarded);
        view
    }
}
