//! The atomic steps of a pass on the table of its cell.
ghost use Rattle.std.specs.Prelude.{◌≡◌, ◌+◌, ◌*◌, ◌≤◌, ◌++◌, ◌∷◌, [], true, false, length, None, Some};
ghost use Rattle.turn_cell.specs.declared.seat_view.Phase.TheVariants.{Idle, Entered, Inside};
ghost use Rattle.turn_cell.specs.{History.{IsLegalFrom, IsStateAfter}, Rule.{IsSeen, TakesOut, with_log}};

use crate::cell::{COUNT, Cell, GUARDED, HELD, PassSeat};
use crate::guarded::Guarded;
use crate::limits::{MAX_ENTRIES, MAX_OPENING_AGE, MAX_WEIGHT};
use crate::machine::Machine;
use crate::rule::{Acquire, Commit, Observe, Release, TakeOut};

impl<M: Machine> Cell<M> {
    // Takes the turn, if nobody has it.
    pub(crate) fn try_acquire(&self, seat: &mut PassSeat<M>) -> bool
        requires cell { seat.old.table_id ≡ self.now.table.shared.table_id }
        requires idle { (seat.old.me.0.phase ≡ Idle) × (seat.old.me.1 ≡ []) }
        ensures cell { seat.new.table_id ≡ seat.old.table_id }
        ensures taken { result ≡ true → seat.new.me ≡ (record seat.old.me.0 { phase = Entered }, []) }
        ensures missed { result ≡ false → seat.new.me ≡ (record seat.old.me.0 { met = seat.old.me.0.met + 1 }, []) }
    {
        self.table
            .shared
            .compare_exchange::<Acquire>(seat, HELD, 0, 1)
            == 0
    }

    // Takes machine and journal out of the slot.
    pub(crate) fn take_out(&self, seat: &mut PassSeat<M>) -> Guarded<M>
        requires cell { seat.old.table_id ≡ self.now.table.shared.table_id }
        requires turn { (seat.old.me.0.phase ≡ Entered) × (seat.old.me.1 ≡ []) }
        ensures cell { seat.new.table_id ≡ seat.old.table_id }
        ensures out { TakesOut M.after M.reply M.state M.age seat.old.me result seat.new.me }
    {
        self.table.shared.load::<TakeOut>(seat, COUNT);
        self.table.shared.exchange(seat, GUARDED, None).unwrap()
    }

    // Ends the turn. Machine and journal go back as they were.
    pub(crate) fn put_back(&self, seat: &mut PassSeat<M>, guarded: Guarded<M>)
        requires cell { seat.old.table_id ≡ self.now.table.shared.table_id }
        requires turn { (seat.old.me.0.phase ≡ Inside) × (seat.old.me.1 ≡ (0, None) ∷ []) }
        requires same { (guarded.journal.items.items ≡ seat.old.me.0.seen) × IsStateAfter M.after seat.old.me.0.opening seat.old.me.0.seen (M.state guarded.machine.value) }
        ensures cell { seat.new.table_id ≡ seat.old.table_id }
        ensures left { seat.new.me ≡ (record seat.old.me.0 { phase = Idle }, []) }
    {
        self.table.shared.exchange(seat, GUARDED, Some(guarded));
        self.table.shared.store::<Release>(seat, HELD, 0);
    }

    // The journal has one call more. The call is made by the store of the count, and then the turn ends.
    pub(crate) fn publish(&self, seat: &mut PassSeat<M>, guarded: Guarded<M>, count: u64)
        requires cell { seat.old.table_id ≡ self.now.table.shared.table_id }
        requires turn { (seat.old.me.0.phase ≡ Inside) × (seat.old.me.1 ≡ (0, None) ∷ []) }
        requires count { count ≡ length seat.old.me.0.seen + 1 }
        requires grown { (e : _) × (guarded.journal.items.items ≡ seat.old.me.0.seen ++ e ∷ []) × (e.caller ≡ seat.old.me.0.number) }
        requires legal { IsLegalFrom M.after M.reply seat.old.me.0.opening guarded.journal.items.items }
        requires state { IsStateAfter M.after seat.old.me.0.opening guarded.journal.items.items (M.state guarded.machine.value) }
        requires young { M.age (M.state guarded.machine.value) ≤ MAX_OPENING_AGE + MAX_WEIGHT * length guarded.journal.items.items }
        requires short { length guarded.journal.items.items ≤ MAX_ENTRIES }
        ensures cell { seat.new.table_id ≡ seat.old.table_id }
        ensures left { seat.new.me ≡ (with_log guarded.journal.items.items (record seat.old.me.0 { phase = Idle }), []) }
    {
        self.table.shared.exchange(seat, GUARDED, Some(guarded));
        self.table.shared.store::<Commit>(seat, COUNT, count);
        self.table.shared.store::<Release>(seat, HELD, 0);
    }

    // Learns what holds of all that was seen.
    pub(crate) fn observe(&self, seat: &mut PassSeat<M>)
        requires cell { seat.old.table_id ≡ self.now.table.shared.table_id }
        requires idle { (seat.old.me.0.phase ≡ Idle) × (seat.old.me.1 ≡ []) }
        ensures cell { seat.new.table_id ≡ seat.old.table_id }
        ensures same { seat.new.me ≡ seat.old.me }
        ensures seen { IsSeen M.after M.reply seat.old.me.0 }
    {
        self.table.shared.load::<Observe>(seat, COUNT);
    }
}
