//! The rule of a cell, and what each atomic step tells the seat that makes it. These types are for the proofs alone.
ghost use Rattle.turn_cell.specs.Rule.{IsKept, first, note_of, spent, split_from, split_off, heard, joined, acquired, took_out, committed, released, observed};

use crate::guarded::Guarded;
use crate::machine::Machine;
use crate::seat_view::SeatView;
use atomic_table::{Join, Play, Split, TableRule};
use std::snapshot::Snapshot;

/// What holds of the table of a cell between any two steps.
pub struct CellRule;

impl<M: Machine> TableRule<Option<Guarded<M>>, SeatView<M>, Snapshot<M>> for CellRule {
    ghost holds = { λ k. IsKept M.state M.after M.reply M.age };

    ghost first = { λ k. first (M.state k.value) };
}

/// A compare and exchange of the word that says who has the turn.
pub struct Acquire;

impl<M: Machine> Play<Option<Guarded<M>>, SeatView<M>> for Acquire {
    ghost then = { acquired };
}

/// A load of the count by the pass with the turn, which takes the slot out.
pub struct TakeOut;

impl<M: Machine> Play<Option<Guarded<M>>, SeatView<M>> for TakeOut {
    ghost then = { took_out M.after M.reply M.state M.age };
}

/// A store of the count: the call is made.
pub struct Commit;

impl<M: Machine> Play<Option<Guarded<M>>, SeatView<M>> for Commit {
    ghost then = { committed };
}

/// A store that ends the turn, and puts the slot back.
pub struct Release;

impl<M: Machine> Play<Option<Guarded<M>>, SeatView<M>> for Release {
    ghost then = { released };
}

/// A load of the count by a pass without the turn.
pub struct Observe;

impl<M: Machine> Play<Option<Guarded<M>>, SeatView<M>> for Observe {
    ghost then = { observed M.after M.reply };
}

/// Makes a pass.
pub struct SplitPass;

impl<M: Machine> Split<SeatView<M>> for SplitPass {
    ghost left = { split_from };

    ghost right = { split_off };
}

/// Makes a note of what was seen.
pub struct SplitNote;

impl<M: Machine> Split<SeatView<M>> for SplitNote {
    ghost left = { λ v. v };

    ghost right = { note_of };
}

/// Takes a pass in.
pub struct JoinPass;

impl<M: Machine> Join<SeatView<M>> for JoinPass {
    ghost both = { joined };

    ghost spent = { spent };
}

/// Takes a note in.
pub struct JoinNote;

impl<M: Machine> Join<SeatView<M>> for JoinNote {
    ghost both = { heard };

    ghost spent = { spent };
}
