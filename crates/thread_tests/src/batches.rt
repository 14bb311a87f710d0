// One call on each of four cells, while one of them is busy.
ghost use Rattle.turn_batch.specs.Batch.{AreOf};
ghost use Rattle.turn_cell.specs.Passes.{IsPassOf};

use crate::counters::Counter;
use crate::gates::TwoGates;
use std::alloc::Global;
use std::sync::Wait;
use std::test::Fail;
use std::thread::{Threads, join};
use turn_batch::{Answers, all};
use turn_cell::{CallFault, Cell, Gate, HoldGate, NoMemory, Pass, Place, Side};

fn call_inside<G: Gate, R: Wait>(
    rt: &R,
    alloc: Global,
    cell: &Cell<Counter>,
    mut pass: Pass<Counter>,
    gate: &G,
) -> Result<u64, CallFault>
    requires { IsPassOf cell.now pass }
{
    cell.call(rt, alloc, &mut pass, &7, gate, 5)
}

fn call_all<G: Gate + Sync, R: Threads + Wait + Sync>(
    rt: &R,
    alloc: Global,
    cells: &[Cell<Counter>],
    mut passes: Vec<Pass<Counter>>,
    gate: &G,
) -> Result<Answers<Counter>, NoMemory>
    requires { AreOf cells.now passes.items }
{
    gate.reach(0, 8, Side::Before);
    all(rt, alloc, cells, &mut passes, &5, gate, 8)
}

fn call_all_beside<G: Gate + Sync, R: Threads + Wait + Sync>(
    rt: &R,
    alloc: Global,
    cells: &[Cell<Counter>],
    passes: Vec<Pass<Counter>>,
    cell: &Cell<Counter>,
    pass: Pass<Counter>,
    gate: &G,
) -> (Result<Answers<Counter>, NoMemory>, Result<u64, CallFault>)
    requires { AreOf cells.now passes.items × IsPassOf cell.now pass }
{
    join(
        rt,
        || -> Result<Answers<Counter>, NoMemory>
            requires { AreOf cells.now passes.items }
        { call_all(rt, alloc, cells, passes, gate) },
        || -> Result<u64, CallFault>
            requires { IsPassOf cell.now pass }
        { call_inside(rt, alloc, cell, pass, gate) },
    )
}

const INSIDE_SECOND: Place = Place {
    actor: 1,
    line: 5,
    side: Side::Inside(2),
};

const INSIDE_LAST: Place = Place {
    actor: 0,
    line: 8,
    side: Side::Inside(4),
};

#[test]
fn batch_passes_busy_cell(rt: HostRuntime) -> Result<(), Fail> {
    let alloc = rt.alloc();
    let (first, one) = Cell::new(alloc, 1, Counter { count: 10 })?;
    let (second, mut two) = Cell::new(alloc, 2, Counter { count: 20 })?;
    let (third, three) = Cell::new(alloc, 3, Counter { count: 30 })?;
    let (last, four) = Cell::new(alloc, 4, Counter { count: 40 })?;
    let pass = second.split(&mut two);
    let cells = vec![in alloc; first, second, third, last]?;
    let passes = vec![in alloc; one, two, three, four]?;
    let gate = TwoGates {
        first: HoldGate::new(0, 8, Side::Before, INSIDE_SECOND),
        second: HoldGate::new(1, 5, Side::Inside(2), INSIDE_LAST),
    };
    let (answers, reply) = call_all_beside(&rt, alloc, &cells, passes, &cells[1], pass, &gate);
    let mut replies = Vec::new(alloc);
    for answer in answers?.items {
        replies.push(answer?)?;
    }
    assert!(rt; reply? == 20 && replies.iter().copied().eq([10, 27, 30, 40]));
    assert!(rt; gate.held());
    Ok(())
}
