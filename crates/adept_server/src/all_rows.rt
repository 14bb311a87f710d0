// Rows of cells and of their passes: one row for each type.
ghost use Rattle.std.specs.{Prelude.{◌≡◌, ◌≤◌, All, IfOk, length, vec_len, vec_capacity}, List.AllZip, Vec.Iter.into_iter_items};
ghost use Rattle.adept_server.specs.{Noting.AreLevelRows, Rooms.HaveRoomFor, Vecs.{AllJoined, AllMet, AllSplit, AreVecsOf, RowJoined, RowMet, RowSplit, lists_of, row_views}};
ghost use Rattle.turn_batch.specs.Batch.{AreOf};
ghost use Rattle.turn_cell.specs.Passes.{IsLegalView};
ghost use Rattle.turn_rows.specs.Rows.{AreLevel, CanClose, CanJoin, CanSplit, IsClosedAs, views};

use std::alloc::Global;
use std::vec::IntoIter;
use turn_cell::{Cell, Closed, Machine, NoMemory, Pass};
use turn_rows::{close_into, join_row, meet_called, meet_rows, split_into};

pub(crate) fn meet_row<M: Machine>(
    cells: &[Cell<M>],
    one: &mut Vec<Pass<M>>,
    two: &mut Vec<Pass<M>>,
)
    requires one { AreOf cells.now one.old.items }
    requires two { AreOf cells.now two.old.items }
    ensures { RowMet M.after M.reply cells.now one.old.items two.old.items one.new.items two.new.items }
{
    meet_rows(cells, one, two);
}

// The two passes of each cell have then seen the longer list.
pub(crate) fn meet_all<M: Machine>(
    cells: &[Vec<Cell<M>>],
    one: &mut [Vec<Pass<M>>],
    two: &mut [Vec<Pass<M>>],
)
    requires one { AreVecsOf cells.now one.old }
    requires two { AreVecsOf cells.now two.old }
    ensures { AllMet M.after M.reply cells.now one.old two.old one.new two.new }
{
    let Some((row, cells_left)) = cells.split_first() else {
        return;
    };
    let Some((first, one_left)) = one.split_first_mut() else {
        return;
    };
    let Some((second, two_left)) = two.split_first_mut() else {
        return;
    };
    meet_row(row, first, second);
    meet_all(cells_left, one_left, two_left);
}

pub(crate) fn meet_row_called<M: Machine>(
    cells: &[Cell<M>],
    called: &[bool],
    one: &mut Vec<Pass<M>>,
    two: &mut Vec<Pass<M>>,
)
    requires one { AreOf cells.now one.old.items }
    requires two { AreOf cells.now two.old.items }
    requires level { AreLevel called.now (views one.old.items) (views two.old.items) }
    requires legal { All (IsLegalView M.after M.reply) (views one.old.items) × All (IsLegalView M.after M.reply) (views two.old.items) }
    ensures { RowMet M.after M.reply cells.now one.old.items two.old.items one.new.items two.new.items }
{
    meet_called(cells, called, one, two);
}

// The same of the cells that were called, where the passes of the others have seen the same.
pub(crate) fn meet_all_called<M: Machine>(
    cells: &[Vec<Cell<M>>],
    called: &[Vec<bool>],
    one: &mut [Vec<Pass<M>>],
    two: &mut [Vec<Pass<M>>],
)
    requires one { AreVecsOf cells.now one.old }
    requires two { AreVecsOf cells.now two.old }
    requires rows { length called.now ≡ length cells.now }
    requires level { AreLevelRows (lists_of called.now) (row_views one.old) (row_views two.old) }
    requires legal { All (All (IsLegalView M.after M.reply)) (row_views one.old) × All (All (IsLegalView M.after M.reply)) (row_views two.old) }
    ensures { AllMet M.after M.reply cells.now one.old two.old one.new two.new }
{
    let Some((row, cells_left)) = cells.split_first() else {
        return;
    };
    let Some((flags, called_left)) = called.split_first() else {
        return;
    };
    let Some((first, one_left)) = one.split_first_mut() else {
        return;
    };
    let Some((second, two_left)) = two.split_first_mut() else {
        return;
    };
    meet_row_called(row, flags, first, second);
    meet_all_called(cells_left, called_left, one_left, two_left);
}

pub(crate) fn join_row_in<M: Machine>(
    cells: &[Cell<M>],
    into: &mut Vec<Pass<M>>,
    done: Vec<Pass<M>>,
)
    requires into { AreOf cells.now into.old.items }
    requires done { AreOf cells.now done.items }
    requires can { All CanJoin (views into.old.items) }
    ensures { RowJoined M.after M.reply cells.now into.old.items done.items into.new.items }
{
    join_row(cells, into, done);
}

// Each pass takes in the one at its place.
pub(crate) fn join_all<M: Machine>(
    cells: &[Vec<Cell<M>>],
    into: &mut [Vec<Pass<M>>],
    mut done: IntoIter<Vec<Pass<M>>>,
)
    requires into { AreVecsOf cells.now into.old }
    requires done { AreVecsOf cells.now (into_iter_items done) }
    requires can { All (All CanJoin) (row_views into.old) }
    ensures { AllJoined M.after M.reply cells.now into.old (into_iter_items done) into.new }
{
    let Some((row, cells_left)) = cells.split_first() else {
        return;
    };
    let Some((passes, into_left)) = into.split_first_mut() else {
        return;
    };
    let Some(row_done) = done.next() else {
        return;
    };
    join_row_in(row, passes, row_done);
    join_all(cells_left, into_left, done);
}

pub(crate) fn split_row<M: Machine>(
    cells: &[Cell<M>],
    firsts: &mut Vec<Pass<M>>,
    into: &mut Vec<Pass<M>>,
)
    requires cells { AreOf cells.now firsts.old.items }
    requires can { All CanSplit (views firsts.old.items) }
    requires empty { vec_len into.old ≡ 0 }
    requires room { vec_len firsts.old ≤ vec_capacity into.old }
    ensures { RowSplit M.after M.reply cells.now firsts.old.items firsts.new.items into.new.items }
{
    split_into(cells, firsts, into);
}

// Makes a new pass of each cell, in rows that have room for them.
pub(crate) fn split_all<M: Machine>(
    cells: &[Vec<Cell<M>>],
    firsts: &mut [Vec<Pass<M>>],
    into: &mut [Vec<Pass<M>>],
)
    requires cells { AreVecsOf cells.now firsts.old }
    requires can { All (All CanSplit) (row_views firsts.old) }
    requires room { HaveRoomFor firsts.old into.old }
    ensures { AllSplit M.after M.reply cells.now firsts.old firsts.new into.new }
{
    let Some((row, cells_left)) = cells.split_first() else {
        return;
    };
    let Some((passes, firsts_left)) = firsts.split_first_mut() else {
        return;
    };
    let Some((new, into_left)) = into.split_first_mut() else {
        return;
    };
    split_row(row, passes, new);
    split_all(cells_left, firsts_left, into_left);
}

// Closes each cell, in rows that have room for them.
pub(crate) fn close_all<M: Machine>(
    mut cells: IntoIter<Vec<Cell<M>>>,
    mut firsts: IntoIter<Vec<Pass<M>>>,
    into: &mut [Vec<Closed<M>>],
)
    requires cells { AreVecsOf (into_iter_items cells) (into_iter_items firsts) }
    requires can { All (All CanClose) (row_views (into_iter_items firsts)) }
    requires room { HaveRoomFor (into_iter_items cells) into.old }
    ensures { AllZip (AllZip (IsClosedAs M.after M.reply M.state)) (row_views (into_iter_items firsts)) (lists_of into.new) }
{
    let Some((closed, into_left)) = into.split_first_mut() else {
        return;
    };
    let Some(row) = cells.next() else {
        return;
    };
    let Some(passes) = firsts.next() else {
        return;
    };
    close_into(row, passes, closed);
    close_all(cells, firsts, into_left);
}

// An empty row for each of these, with room for as many items.
pub(crate) fn empty_rows<X, Y: Drop>(
    alloc: Global,
    rows: &[Vec<X>],
) -> Result<Vec<Vec<Y>>, NoMemory>
    ensures { IfOk result (λ empty. HaveRoomFor rows.now empty.items) }
{
    let mut empty = Vec::with_capacity(alloc, rows.len())?;
    for row in rows {
        empty.push_reserved(Vec::with_capacity(alloc, row.len())?);
    }
    Ok(empty)
}
