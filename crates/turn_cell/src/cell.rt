//! A cell: a machine and its journal behind a lock, which passes take in turns.
ghost use Rattle.std.specs.Prelude.{◌≡◌};

use crate::guarded::Guarded;
use crate::machine::Machine;
use crate::rule::CellRule;
use crate::seat_view::SeatView;
use atomic_table::{Seat, Table};
use std::alloc::Global;
use std::snapshot::Snapshot;

pub type PassSeat<M> = Seat<Option<Guarded<M>>, SeatView<M>>;

// The table has the number of entries in word COUNT, 1 in word HELD while a pass has the turn, and in slot GUARDED
// the machine and its journal, unless the pass with the turn has them.
pub(crate) const COUNT: usize = 0;

pub(crate) const HELD: usize = 1;

pub(crate) const GUARDED: usize = 0;

/// A machine and its journal, which the passes of the cell share. Each call on it is one entry of the journal.
#[derive(Drop)]
pub struct Cell<M: Machine> {
    pub(crate) label: u32,
    pub(crate) table: Table<Option<Guarded<M>>, SeatView<M>, Snapshot<M>, CellRule, Global>,
    ghost counts: { (table.shared.table_id.words ≡ 2) × (table.shared.table_id.slots ≡ 1) },
}
