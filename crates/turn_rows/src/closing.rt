//! How the cells of a row end.
ghost use Rattle.std.specs.{Prelude.{◌≡◌, ◌≤◌, ◌+◌, ◌++◌, All, vec_len, vec_capacity}, List.AllZip};
ghost use Rattle.turn_batch.specs.Batch.{AreOf};
ghost use Rattle.turn_rows.specs.Rows.{CanClose, IsClosedAs, views};

use turn_cell::{Cell, Closed, Machine, Pass};

/// Closes each cell, whose first pass has taken in all others. It takes no memory.
pub fn close_into<M: Machine>(cells: Vec<Cell<M>>, firsts: Vec<Pass<M>>, into: &mut Vec<Closed<M>>)
    requires cells { AreOf cells.items firsts.items }
    requires can { All CanClose (views firsts.items) }
    requires room { vec_len into.old + vec_len cells ≤ vec_capacity into.old }
    ensures room { vec_capacity into.new ≡ vec_capacity into.old }
    ensures closed { (cs : _) × (into.new.items ≡ into.old.items ++ cs) × AllZip (IsClosedAs M.after M.reply M.state) (views firsts.items) cs }
{
    for (cell, first) in cells.into_iter().zip(firsts) {
        into.push_reserved(cell.close(first));
    }
}
