//! Rounds over all cells: first without waiting, then with.
ghost use Rattle.std.specs.{Prelude.{◌≡◌, ◌≤◌, ◌<◌, length, slice_index_or, Some, slice_get}, Thread.IsSync};
ghost use Rattle.turn_batch.specs.Batch.{IsTried, IsServed};
ghost use Rattle.turn_cell.specs.Passes.{view_of, IsPassOf};

use std::alloc::Global;
use std::sync::Wait;
use std::thread::{Threads, for_each_mut};
use turn_cell::{CallFault, Cell, Gate, MAX_WEIGHT, Machine, Pass, TryFault};

// So many threads make the calls of a round at most.
const THREADS: usize = 8;

// Calls each cell whose turn is free. Its pass keeps the answer, and the others keep none.
pub(crate) fn try_each<M: Machine, G: Gate + Sync, R: Threads + Sync>(
    rt: &R,
    alloc: Global,
    cells: &[Cell<M>],
    passes: &mut [Pass<M>],
    event: &M::Event,
    gate: &G,
    line: u32,
)
    requires same { length passes.old ≡ length cells.now }
    requires cells { (i : _) (c : _) (d : _) → slice_get cells.now i ≡ Some c → IsPassOf c (slice_index_or passes.old i d) }
    requires light { M.weight event.now ≤ MAX_WEIGHT }
    ensures { (i : _) (d : _) → i < length passes.old → IsTried M.after M.reply event.now (view_of (slice_index_or passes.old i d)) (view_of (slice_index_or passes.new i d)) }
{
    let try_at = |i: usize, pass: &mut Pass<M>|
        requires { IsSync G.row × (i < length cells.now) × ((c : _) → slice_get cells.now i ≡ Some c → IsPassOf c pass.now) × (M.weight event.now ≤ MAX_WEIGHT) }
        ensures { IsTried M.after M.reply event.entry.now (view_of pass.entry.now) (view_of pass.exit.now) }
    { try_one(alloc, &cells[i], pass, event, gate, line) };
    for_each_mut(rt, passes, THREADS, &try_at);
}

// Waits for the turn of each cell whose pass keeps no answer, and calls it. The pass keeps the answer.
pub(crate) fn wait_for_each<M: Machine, G: Gate + Sync, R: Threads + Wait + Sync>(
    rt: &R,
    alloc: Global,
    cells: &[Cell<M>],
    passes: &mut [Pass<M>],
    event: &M::Event,
    gate: &G,
    line: u32,
)
    requires same { length passes.old ≡ length cells.now }
    requires cells { (i : _) (c : _) (d : _) → slice_get cells.now i ≡ Some c → IsPassOf c (slice_index_or passes.old i d) }
    requires light { M.weight event.now ≤ MAX_WEIGHT }
    ensures { (i : _) (d : _) → i < length passes.old → IsServed M.after M.reply event.now (view_of (slice_index_or passes.old i d)) (view_of (slice_index_or passes.new i d)) }
{
    let wait_at = |i: usize, pass: &mut Pass<M>|
        requires { IsSync R.row × IsSync G.row × (i < length cells.now) × ((c : _) → slice_get cells.now i ≡ Some c → IsPassOf c pass.now) × (M.weight event.now ≤ MAX_WEIGHT) }
        ensures { IsServed M.after M.reply event.entry.now (view_of pass.entry.now) (view_of pass.exit.now) }
    { wait_for_one(rt, alloc, &cells[i], pass, event, gate, line) };
    for_each_mut(rt, passes, THREADS, &wait_at);
}

fn try_one<M: Machine, G: Gate>(
    alloc: Global,
    cell: &Cell<M>,
    pass: &mut Pass<M>,
    event: &M::Event,
    gate: &G,
    line: u32,
)
    requires cell { IsPassOf cell.now pass.old }
    requires light { M.weight event.now ≤ MAX_WEIGHT }
    ensures { IsTried M.after M.reply event.now (view_of pass.old) (view_of pass.new) }
{
    match cell.try_call(alloc, pass, event, gate, line) {
        Ok(reply) => pass.keep(Ok(reply)),
        Err(TryFault::Busy) => drop(pass.take_kept()),
        Err(TryFault::Full) => pass.keep(Err(CallFault::Full)),
        Err(TryFault::NoMemory) => pass.keep(Err(CallFault::NoMemory)),
    }
}

fn wait_for_one<M: Machine, G: Gate, R: Wait>(
    rt: &R,
    alloc: Global,
    cell: &Cell<M>,
    pass: &mut Pass<M>,
    event: &M::Event,
    gate: &G,
    line: u32,
)
    requires cell { IsPassOf cell.now pass.old }
    requires light { M.weight event.now ≤ MAX_WEIGHT }
    ensures { IsServed M.after M.reply event.now (view_of pass.old) (view_of pass.new) }
{
    if pass.has_kept() {
        return;
    }
    let answer = cell.call(rt, alloc, pass, event, gate, line);
    pass.keep(answer);
}
