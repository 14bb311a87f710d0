//! How the passes of a row make those of another.
ghost use Rattle.std.specs.Prelude.{◌≡◌, ◌≤◌, ◌+◌, ◌++◌, length, All, vec_len, vec_capacity, map};
ghost use Rattle.turn_batch.specs.Batch.{AreOf};
ghost use Rattle.turn_cell.specs.Passes.{IsLegalView, split_off};
ghost use Rattle.turn_rows.specs.Rows.{CanSplit, split_from, views};

use turn_cell::{Cell, Machine, Pass};

/// A new pass of each cell, in order of the cells, which has seen what the cell's first pass has. It takes no memory.
pub fn split_into<M: Machine>(cells: &[Cell<M>], firsts: &mut [Pass<M>], into: &mut Vec<Pass<M>>)
    requires cells { AreOf cells.now firsts.old }
    requires can { All CanSplit (views firsts.old) }
    requires room { vec_len into.old + length firsts.old ≤ vec_capacity into.old }
    ensures room { vec_capacity into.new ≡ vec_capacity into.old }
    ensures cells { AreOf cells.now firsts.new }
    ensures firsts { views firsts.new ≡ map split_from (views firsts.old) }
    ensures new { (ps : _) × (into.new.items ≡ into.old.items ++ ps) × AreOf cells.now ps × (views ps ≡ map split_off (views firsts.old)) × All (IsLegalView M.after M.reply) (views ps) }
{
    for (place, first) in firsts.iter_mut().enumerate() {
        into.push_reserved(cells[place].split(first));
    }
}
