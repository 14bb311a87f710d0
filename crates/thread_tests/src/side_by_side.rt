// The actors of a file work side by side, and each case has a turn of its own.
use crate::gates::{Gates, TwoGates};
use adept_io::{Bytes, Calls, MemorySink, MemorySource, NoMemory};
use adept_top::adept;
use std::alloc::Global;
use std::sync::Wait;
use std::test::Fail;
use std::thread::Threads;
use turn_cell::{Gate, HoldGate, Place, Side};

// Two actors with a case each. The lines of their one phase stand behind this, in rounds in which each of them has one: line 1 is
// actor 1's, on the case whose cell has the label 1, and line 2 is actor 2's, on another case.
const TWO: &[u8] = b"\
adept 1
type t
act A
end
actor ann
actor bob
case c t
case d t
phase
";

const ROUND_OF_TWO: &[u8] = b"\
ann create c
bob create d
";

const FIRST_LINE_BEHIND: Place = Place {
    actor: 1,
    line: 1,
    side: Side::After,
};

const FIRST_LINE_INSIDE: Place = Place {
    actor: 1,
    line: 1,
    side: Side::Inside(1),
};

const OTHER_LINE_BEHIND: Place = Place {
    actor: 2,
    line: 2,
    side: Side::After,
};

// Four actors with a case each, and a phase whose lines stand behind this as well.
const FOUR: &[u8] = b"\
adept 1
type t
act A
end
actor ann
actor bob
actor cyd
actor dan
case c t
case d t
case e t
case f t
phase
";

const ROUND_OF_FOUR: &[u8] = b"\
ann create c
bob create d
cyd create e
dan create f
";

// So many lines has each actor, and so each of them has a thread.
const ROUNDS: u32 = 1024;

fn file_of(alloc: Global, head: &[u8], round: &[u8]) -> Result<Vec<u8>, NoMemory> {
    let mut file = Vec::from_slice(alloc, head)?;
    for _ in 0..ROUNDS {
        file.extend_from_slice(round)?;
    }
    Ok(file)
}

// The status of `run`. The proof of a test need not compute what the bytes stand for.
fn ran<R: Threads + Wait + Sync, G: Gate + Sync>(
    rt: &R,
    alloc: Global,
    file: Vec<u8>,
    gate: &G,
) -> Result<u8, NoMemory> {
    let words = vec![in alloc; String::from_str(alloc, "run")?]?;
    let bytes = Bytes::from_vec(file);
    let mut source = MemorySource::new(bytes, 1000, Calls::new(alloc));
    let mut sink = MemorySink::new(alloc, 262_144, 1000, Calls::new(alloc))?;
    Ok(adept(rt, alloc, &words, &mut source, &mut sink, gate).status)
}

#[test]
fn actors_run_side_by_side(rt: HostRuntime) -> Result<(), Fail> {
    let gates = TwoGates {
        first: HoldGate::new(1, 1, Side::After, OTHER_LINE_BEHIND),
        second: HoldGate::new(2, 2, Side::After, FIRST_LINE_BEHIND),
    };
    let file = file_of(rt.alloc(), TWO, ROUND_OF_TWO)?;
    assert_eq!(rt; ran(&rt, rt.alloc(), file, &gates)?, 0);
    assert!(rt; gates.held());
    Ok(())
}

#[test]
fn cells_have_own_turns(rt: HostRuntime) -> Result<(), Fail> {
    let gates = TwoGates {
        first: HoldGate::new(2, 2, Side::Before, FIRST_LINE_INSIDE),
        second: HoldGate::new(1, 1, Side::Inside(1), OTHER_LINE_BEHIND),
    };
    let file = file_of(rt.alloc(), TWO, ROUND_OF_TWO)?;
    assert_eq!(rt; ran(&rt, rt.alloc(), file, &gates)?, 0);
    assert!(rt; gates.held());
    Ok(())
}

fn behind_first_line(actor: u32) -> Place {
    Place {
        actor,
        line: actor,
        side: Side::After,
    }
}

// The last of the four is held before its first line until each of the others is behind its own, and they are held there until
// the last is behind that line.
fn all_at_once(alloc: Global) -> Result<Gates, NoMemory> {
    let mut items = Vec::new(alloc);
    for actor in 1..4 {
        items.push(HoldGate::new(4, 4, Side::Before, behind_first_line(actor)))?;
    }
    for actor in 1..4 {
        items.push(HoldGate::new(actor, actor, Side::After, behind_first_line(4)))?;
    }
    Ok(Gates { items })
}

#[test]
fn four_actors_of_a_phase_are_all_at_work(rt: HostRuntime) -> Result<(), Fail> {
    let alloc = rt.alloc();
    let gates = all_at_once(alloc)?;
    assert_eq!(rt;
        ran(&rt, alloc, file_of(alloc, FOUR, ROUND_OF_FOUR)?, &gates)?,
        0
    );
    assert!(rt; gates.held());
    Ok(())
}
