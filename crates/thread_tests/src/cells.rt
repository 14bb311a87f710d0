// One cell, called by one thread and by two.
ghost use Rattle.std.specs.Prelude.{◌≡◌, ◌+◌, IfOk, OnOk, true, false};
ghost use Rattle.turn_cell.specs.Passes.{view_of, IsPassOf, Stays};

use crate::counters::Counter;
use crate::gates::TwoGates;
use std::alloc::Global;
use std::sync::Wait;
use std::test::Fail;
use std::thread::{Threads, join};
use turn_cell::{
    CallFault, Cell, Gate, HoldGate, Journal, NoMemory, OpenGate, Pass, Place, Side, TryFault,
};

#[test]
fn passes_call_in_turn(rt: HostRuntime) -> Result<(), Fail> {
    let alloc = rt.alloc();
    let (cell, mut first) = Cell::new(alloc, 7, Counter { count: 3 })?;
    let mut second = cell.split(&mut first);
    assert!(rt; second.number() == 1 && first.made() == 2);
    let called = cell.call(&rt, alloc, &mut second, &5, &OpenGate, 1)?;
    let tried = cell.try_call(alloc, &mut first, &6, &OpenGate, 2)?;
    let shown = cell.look(&rt, alloc, &mut first)?;
    assert!(rt; called == 3 && tried == 8 && shown == 14);
    first.keep(Ok(called));
    assert!(rt; first.has_kept() && first.take_kept().is_some() && !first.has_kept());
    cell.meet(&mut first, &mut second);
    cell.join(&mut first, second);
    assert!(rt; first.taken() == 1);
    let closed = cell.close(first);
    assert!(rt; closed.machine.count == 14 && closed.journal.items.len() == 2);
    Ok(())
}

fn call_once<G: Gate, R: Wait>(
    rt: &R,
    alloc: Global,
    cell: &Cell<Counter>,
    mut pass: Pass<Counter>,
    gate: &G,
) -> Result<Pass<Counter>, CallFault>
    requires { IsPassOf cell.now pass }
    ensures { IfOk result (λ p. IsPassOf cell.now p × Stays (view_of pass) (view_of p)) }
{
    cell.call(rt, alloc, &mut pass, &5, gate, 5)?;
    Ok(pass)
}

// Whether the call found the turn taken. Its pass has then met one turn more, and none otherwise.
fn finds_busy<G: Gate>(
    alloc: Global,
    cell: &Cell<Counter>,
    mut pass: Pass<Counter>,
    gate: &G,
) -> (Pass<Counter>, bool)
    requires { IsPassOf cell.now pass }
    ensures pass { IsPassOf cell.now result.0 × Stays (view_of pass) (view_of result.0) }
    ensures busy { result.1 ≡ true → (view_of result.0).met ≡ (view_of pass).met + 1 }
    ensures free { result.1 ≡ false → (view_of result.0).met ≡ (view_of pass).met }
{
    gate.reach(0, 8, Side::Before);
    let answer = cell.try_call(alloc, &mut pass, &6, gate, 8);
    gate.reach(0, 8, Side::After);
    (pass, matches!(answer, Err(TryFault::Busy)))
}

fn try_while_called<G: Gate + Sync, R: Threads + Wait + Sync>(
    rt: &R,
    alloc: Global,
    cell: &Cell<Counter>,
    first: Pass<Counter>,
    second: Pass<Counter>,
    gate: &G,
) -> ((Pass<Counter>, bool), Result<Pass<Counter>, CallFault>)
    requires { IsPassOf cell.now first × IsPassOf cell.now second }
    ensures first { IsPassOf cell.now result.0.0 × Stays (view_of first) (view_of result.0.0) }
    ensures second { IfOk result.1 (λ p. IsPassOf cell.now p × Stays (view_of second) (view_of p)) }
{
    join(
        rt,
        || -> (Pass<Counter>, bool)
            requires { IsPassOf cell.now first }
            ensures { IsPassOf cell.entry.now result.0 × Stays (view_of first) (view_of result.0) }
        { finds_busy(alloc, cell, first, gate) },
        || -> Result<Pass<Counter>, CallFault>
            requires { IsPassOf cell.now second }
            ensures { IfOk result (λ p. IsPassOf cell.entry.now p × Stays (view_of second) (view_of p)) }
        { call_once(rt, alloc, cell, second, gate) },
    )
}

const INSIDE: Place = Place {
    actor: 1,
    line: 5,
    side: Side::Inside(7),
};

const AFTER: Place = Place {
    actor: 0,
    line: 8,
    side: Side::After,
};

#[test]
fn busy_then_reply(rt: HostRuntime) -> Result<(), Fail> {
    let alloc = rt.alloc();
    let (cell, mut first) = Cell::new(alloc, 7, Counter { count: 3 })?;
    let second = cell.split(&mut first);
    let gate = TwoGates {
        first: HoldGate::new(0, 8, Side::Before, INSIDE),
        second: HoldGate::new(1, 5, Side::Inside(7), AFTER),
    };
    let ((mut first, busy), second) = try_while_called(&rt, alloc, &cell, first, second, &gate);
    let second = second?;
    let reply = cell.try_call(alloc, &mut first, &6, &OpenGate, 9)?;
    assert!(rt; busy && reply == 8);
    assert!(rt; gate.held());
    cell.join(&mut first, second);
    let closed = cell.close(first);
    assert!(rt; closed.machine.count == 14 && closed.journal.items.len() == 2);
    Ok(())
}

fn call_and_look<R: Wait>(
    rt: &R,
    alloc: Global,
    cell: &Cell<Counter>,
    mut pass: Pass<Counter>,
) -> Result<u64, CallFault>
    requires { IsPassOf cell.now pass }
{
    cell.call(rt, alloc, &mut pass, &5, &OpenGate, 1)?;
    Ok(cell.look(rt, alloc, &mut pass)?)
}

fn only_look<R: Wait>(
    rt: &R,
    alloc: Global,
    cell: &Cell<Counter>,
    mut pass: Pass<Counter>,
) -> Result<u64, NoMemory>
    requires { IsPassOf cell.now pass }
{
    cell.look(rt, alloc, &mut pass)
}

// What a caller and one that only looks are shown.
fn look_beside_caller<R: Threads + Wait + Sync>(
    rt: &R,
    alloc: Global,
    cell: &Cell<Counter>,
    first: Pass<Counter>,
    second: Pass<Counter>,
) -> (Result<u64, CallFault>, Result<u64, NoMemory>)
    requires { IsPassOf cell.now first × IsPassOf cell.now second }
{
    join(
        rt,
        || -> Result<u64, CallFault>
            requires { IsPassOf cell.now first }
        { call_and_look(rt, alloc, cell, first) },
        || -> Result<u64, NoMemory>
            requires { IsPassOf cell.now second }
        { only_look(rt, alloc, cell, second) },
    )
}

#[test]
fn write_then_look(rt: HostRuntime) -> Result<(), Fail> {
    let alloc = rt.alloc();
    let (cell, mut first) = Cell::new(alloc, 7, Counter { count: 3 })?;
    let second = cell.split(&mut first);
    let (written, looked) = look_beside_caller(&rt, alloc, &cell, first, second);
    let (written, looked) = (written?, looked?);
    assert!(rt; written == 8 && (looked == 3 || looked == 8));
    Ok(())
}

fn call_thousand<R: Wait>(
    rt: &R,
    alloc: Global,
    cell: &Cell<Counter>,
    mut pass: Pass<Counter>,
) -> Result<Pass<Counter>, CallFault>
    requires { IsPassOf cell.now pass }
    ensures { IfOk result (λ p. IsPassOf cell.now p × Stays (view_of pass) (view_of p)) }
{
    for event in 0..1000 {
        cell.call(rt, alloc, &mut pass, &event, &OpenGate, 1)?;
    }
    Ok(pass)
}

fn call_both<R: Threads + Wait + Sync>(
    rt: &R,
    alloc: Global,
    cell: &Cell<Counter>,
    first: Pass<Counter>,
    second: Pass<Counter>,
) -> (
    Result<Pass<Counter>, CallFault>,
    Result<Pass<Counter>, CallFault>,
)
    requires { IsPassOf cell.now first × IsPassOf cell.now second }
    ensures first { IfOk result.0 (λ p. IsPassOf cell.now p × Stays (view_of first) (view_of p)) }
    ensures second { IfOk result.1 (λ p. IsPassOf cell.now p × Stays (view_of second) (view_of p)) }
{
    join(
        rt,
        || -> Result<Pass<Counter>, CallFault>
            requires { IsPassOf cell.now first }
            ensures { IfOk result (λ p. IsPassOf cell.entry.now p × Stays (view_of first) (view_of p)) }
        { call_thousand(rt, alloc, cell, first) },
        || -> Result<Pass<Counter>, CallFault>
            requires { IsPassOf cell.now second }
            ensures { IfOk result (λ p. IsPassOf cell.entry.now p × Stays (view_of second) (view_of p)) }
        { call_thousand(rt, alloc, cell, second) },
    )
}

fn has_thousand_in_order(journal: &Journal<Counter>, caller: u32) -> bool {
    let own = journal.items.iter().filter(|entry| entry.caller == caller);
    own.map(|entry| entry.event).eq(0..1000)
}

#[test]
fn two_callers_thousand(rt: HostRuntime) -> Result<(), Fail> {
    let alloc = rt.alloc();
    let (cell, mut first) = Cell::new(alloc, 7, Counter { count: 0 })?;
    let second = cell.split(&mut first);
    let (first, second) = call_both(&rt, alloc, &cell, first, second);
    let mut first = first?;
    cell.join(&mut first, second?);
    let closed = cell.close(first);
    assert!(rt; closed.machine.count == 999_000 && closed.journal.items.len() == 2000);
    assert!(rt; has_thousand_in_order(&closed.journal, 0));
    assert!(rt; has_thousand_in_order(&closed.journal, 1));
    Ok(())
}

// Who finds the turn taken asks again.
fn call_behind_gate<G: Gate, R: Wait>(
    rt: &R,
    alloc: Global,
    cell: &Cell<Counter>,
    mut pass: Pass<Counter>,
    gate: &G,
) -> Result<u64, CallFault>
    requires { IsPassOf cell.now pass }
{
    gate.reach(0, 8, Side::Before);
    cell.call(rt, alloc, &mut pass, &6, gate, 8)
}

fn call_while_called<G: Gate + Sync, R: Threads + Wait + Sync>(
    rt: &R,
    alloc: Global,
    cell: &Cell<Counter>,
    first: Pass<Counter>,
    second: Pass<Counter>,
    gate: &G,
) -> (Result<u64, CallFault>, Result<Pass<Counter>, CallFault>)
    requires { IsPassOf cell.now first × IsPassOf cell.now second }
{
    join(
        rt,
        || -> Result<u64, CallFault>
            requires { IsPassOf cell.now first }
        { call_behind_gate(rt, alloc, cell, first, gate) },
        || -> Result<Pass<Counter>, CallFault>
            requires { IsPassOf cell.now second }
        { call_once(rt, alloc, cell, second, gate) },
    )
}

// Reached by nobody.
const NOWHERE: Place = Place {
    actor: 9,
    line: 9,
    side: Side::Before,
};

// One has the turn until its gate has waited in vain. The other calls as soon as the turn is taken, and is served behind it.
#[test]
fn taken_turn_is_waited_for(rt: HostRuntime) -> Result<(), Fail> {
    let alloc = rt.alloc();
    let (cell, mut first) = Cell::new(alloc, 7, Counter { count: 3 })?;
    let second = cell.split(&mut first);
    let gate = TwoGates {
        first: HoldGate::new(0, 8, Side::Before, INSIDE),
        second: HoldGate::new(1, 5, Side::Inside(7), NOWHERE),
    };
    let (waited, called) = call_while_called(&rt, alloc, &cell, first, second, &gate);
    let _ = called?;
    assert!(rt; waited? == 8);
    assert!(rt; !gate.first.ran_out() && gate.second.ran_out());
    Ok(())
}

// Makes 65,536 calls.
fn fill<R: Wait>(
    rt: &R,
    alloc: Global,
    cell: &Cell<Counter>,
    pass: &mut Pass<Counter>,
) -> Result<(), CallFault>
    requires { IsPassOf cell.now pass.old }
    ensures { OnOk result (IsPassOf cell.now pass.new × Stays (view_of pass.old) (view_of pass.new)) }
{
    for _ in 0..65_536 {
        cell.call(rt, alloc, pass, &1, &OpenGate, 1)?;
    }
    Ok(())
}

#[test]
fn full_journal_takes_no_call(rt: HostRuntime) -> Result<(), Fail> {
    let alloc = rt.alloc();
    let (cell, mut pass) = Cell::new(alloc, 7, Counter { count: 3 })?;
    fill(&rt, alloc, &cell, &mut pass)?;
    let called = cell.call(&rt, alloc, &mut pass, &1, &OpenGate, 2);
    let tried = cell.try_call(alloc, &mut pass, &1, &OpenGate, 3);
    assert!(rt; matches!(called, Err(CallFault::Full)) && matches!(tried, Err(TryFault::Full)));
    assert!(rt; cell.look(&rt, alloc, &mut pass)? == 65_539);
    let closed = cell.close(pass);
    assert!(rt; closed.machine.count == 65_539 && closed.journal.items.len() == 65_536);
    Ok(())
}

#[test]
fn faults_are_told_apart(rt: HostRuntime) -> Result<(), Fail> {
    let alloc = rt.alloc();
    assert_eq!(rt;
        TryFault::Busy.to_string(alloc)?.as_str(),
        "another has the turn"
    );
    assert_eq!(rt;
        TryFault::Full.to_string(alloc)?.as_str(),
        "the journal is full"
    );
    assert_eq!(rt;
        TryFault::NoMemory.to_string(alloc)?.as_str(),
        "out of memory"
    );
    assert_eq!(rt;
        CallFault::Full.to_string(alloc)?.as_str(),
        "the journal is full"
    );
    assert_eq!(rt;
        CallFault::NoMemory.to_string(alloc)?.as_str(),
        "out of memory"
    );
    Ok(())
}

#[test]
fn unopened_gate_runs_out(rt: HostRuntime) {
    let gate = HoldGate::new(1, 5, Side::Inside(7), AFTER);
    gate.reach(1, 5, Side::Before);
    assert!(rt; !gate.ran_out());
    gate.reach(1, 5, Side::Inside(7));
    assert!(rt; gate.ran_out());
}
