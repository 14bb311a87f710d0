//! How the passes of two rows tell each other what they have seen.
ghost use Rattle.std.specs.{Prelude.{◌≡◌, ◌≤◌, ◌<◌, length, All, Some, false, slice_get}, List.{AllZip, position, position_or_len}};
ghost use Rattle.turn_batch.specs.Batch.{AreOf};
ghost use Rattle.turn_cell.specs.Passes.{IsLegalView};
ghost use Rattle.turn_rows.specs.Rows.{AreLevel, IsSeenBy, first_met, second_met, views, zip_with};

use turn_cell::{Cell, Machine, Pass};

/// The two passes of each cell have then seen the longer list. It takes no memory.
pub fn meet_rows<M: Machine>(cells: &[Cell<M>], one: &mut [Pass<M>], two: &mut [Pass<M>])
    requires cells { AreOf cells.now one.old × AreOf cells.now two.old }
    ensures cells { AreOf cells.now one.new × AreOf cells.now two.new }
    ensures one { views one.new ≡ zip_with first_met (views one.old) (views two.old) }
    ensures two { views two.new ≡ zip_with second_met (views one.old) (views two.old) }
    ensures more_of_one { AllZip IsSeenBy (views one.old) (views one.new) × AllZip IsSeenBy (views one.old) (views two.new) }
    ensures more_of_two { AllZip IsSeenBy (views two.old) (views one.new) × AllZip IsSeenBy (views two.old) (views two.new) }
    ensures legal { All (IsLegalView M.after M.reply) (views one.new) × All (IsLegalView M.after M.reply) (views two.new) }
{
    for (place, first) in one.iter_mut().enumerate() {
        cells[place].meet(first, &mut two[place]);
    }
}

/// The same of two rows that have seen the same of each cell that was not called. Such a cell is passed over.
pub fn meet_called<M: Machine>(
    cells: &[Cell<M>],
    called: &[bool],
    one: &mut [Pass<M>],
    two: &mut [Pass<M>],
)
    requires cells { AreOf cells.now one.old × AreOf cells.now two.old }
    requires level { AreLevel called.now (views one.old) (views two.old) }
    requires legal { All (IsLegalView M.after M.reply) (views one.old) × All (IsLegalView M.after M.reply) (views two.old) }
    ensures cells { AreOf cells.now one.new × AreOf cells.now two.new }
    ensures one { views one.new ≡ zip_with first_met (views one.old) (views two.old) }
    ensures two { views two.new ≡ zip_with second_met (views one.old) (views two.old) }
    ensures more_of_one { AllZip IsSeenBy (views one.old) (views one.new) × AllZip IsSeenBy (views one.old) (views two.new) }
    ensures more_of_two { AllZip IsSeenBy (views two.old) (views one.new) × AllZip IsSeenBy (views two.old) (views two.new) }
    ensures legal { All (IsLegalView M.after M.reply) (views one.new) × All (IsLegalView M.after M.reply) (views two.new) }
{
    let mut place = next_called(called, 0);
    while place < cells.len() {
        cells[place].meet(&mut one[place], &mut two[place]);
        place = next_called(called, place + 1);
    }
}

// The first place from one on that has no lowered flag. A cell without a flag counts as called.
fn next_called(called: &[bool], from: usize) -> usize
    ensures on { from ≤ result }
    ensures calm { (p : _) → from ≤ p → p < result → slice_get called.now p ≡ Some false }
{
    if from > called.len() {
        return from;
    }
    let (_, rest) = called.split_at(from);
    from + lowered_first(rest)
}

// How many flags stand before the first that is raised.
fn lowered_first(flags: &[bool]) -> usize
    ensures first { result ≡ position_or_len (λ flag. flag) flags.now }
    ensures within { result ≤ length flags.now }
{
    first_raised(flags).unwrap_or(flags.len())
}

fn first_raised(flags: &[bool]) -> Option<usize>
    ensures { result ≡ position (λ flag. flag) flags.now }
{
    flags.iter().position(|flag| *flag)
}
