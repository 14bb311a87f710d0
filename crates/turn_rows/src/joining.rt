//! How the passes of a row take in those of another.
ghost use Rattle.std.specs.{Prelude.{◌≡◌, All}, List.AllZip};
ghost use Rattle.turn_batch.specs.Batch.{AreOf};
ghost use Rattle.turn_cell.specs.Passes.{IsLegalView, joined};
ghost use Rattle.turn_rows.specs.Rows.{CanJoin, IsSeenBy, views, zip_with};

use turn_cell::{Cell, Machine, Pass};

/// Each pass takes in the one at its place. It takes no memory.
pub fn join_row<M: Machine>(cells: &[Cell<M>], into: &mut [Pass<M>], done: Vec<Pass<M>>)
    requires cells { AreOf cells.now into.old }
    requires done { AreOf cells.now done.items }
    requires can { All CanJoin (views into.old) }
    ensures cells { AreOf cells.now into.new }
    ensures joined { views into.new ≡ zip_with joined (views into.old) (views done.items) }
    ensures more { AllZip IsSeenBy (views into.old) (views into.new) × AllZip IsSeenBy (views done.items) (views into.new) }
    ensures legal { All (IsLegalView M.after M.reply) (views into.new) }
{
    for (place, pass) in done.into_iter().enumerate() {
        cells[place].join(&mut into[place], pass);
    }
}
