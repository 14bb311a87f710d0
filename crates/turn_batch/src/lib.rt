//! One call with one event on each of many cells, side by side.
#![tactic(auto)]

mod rounds;

ghost use Rattle.std.specs.Prelude.{◌≡◌, ◌+◌, ◌≤◌, ◌++◌, length, IfOk, OnErr, vec_len, vec_capacity};
ghost use Rattle.turn_batch.specs.Batch.{AreOf, AreAnswered, AreTaken, AreCalled};

use rounds::{try_each, wait_for_each};
use std::alloc::Global;
use std::sync::Wait;
use std::thread::Threads;
use turn_cell::{CallFault, Cell, Gate, MAX_WEIGHT, Machine, NoMemory, Pass};

/// The answers of one call on each cell, in order of the cells.
#[derive(Drop)]
pub struct Answers<M: Machine> {
    pub items: Vec<Result<M::Reply, CallFault>>,
}

/// Calls each cell once with that event, with the pass at its place. A first round calls the cells whose turn is free,
/// and a second round waits for the turn of the others. `NoMemory` of this call itself comes before any call is made.
/// The passes keep no answer afterwards.
pub fn all<M: Machine, G: Gate + Sync, R: Threads + Wait + Sync>(
    rt: &R,
    alloc: Global,
    cells: &[Cell<M>],
    passes: &mut [Pass<M>],
    event: &M::Event,
    gate: &G,
    line: u32,
) -> Result<Answers<M>, NoMemory>
    requires cells { AreOf cells.now passes.old }
    requires light { M.weight event.now ≤ MAX_WEIGHT }
    ensures ok { IfOk result (λ a. AreCalled M.after M.reply event.now passes.old a.items.items passes.new) }
    ensures cells { AreOf cells.now passes.new }
    ensures err { OnErr result (passes.new ≡ passes.old) }
{
    let mut items = Vec::with_capacity(alloc, passes.len())?;
    try_each(rt, alloc, cells, passes, event, gate, line);
    wait_for_each(rt, alloc, cells, passes, event, gate, line);
    take_answers(passes, &mut items);
    Ok(Answers { items })
}

// Takes the answer that each pass keeps, in order.
fn take_answers<M: Machine>(passes: &mut [Pass<M>], items: &mut Vec<Result<M::Reply, CallFault>>)
    requires answered { AreAnswered passes.old }
    requires room { vec_len items.old + length passes.old ≤ vec_capacity items.old }
    ensures { (answers : _) × (items.new.items ≡ items.old.items ++ answers) × AreTaken passes.old answers passes.new }
{
    for pass in passes.iter_mut() {
        items.push_reserved(pass.take_kept().unwrap());
    }
}
