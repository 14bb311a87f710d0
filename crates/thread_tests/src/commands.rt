// What the commands write for a file in which one actor makes every kind of call.
use adept_io::{Bytes, Calls, MemorySink, MemorySource, NoMemory};
use adept_top::{adept, check_only, play};
use std::alloc::Global;
use std::sync::Wait;
use std::test::Fail;
use std::thread::Threads;
use turn_cell::OpenGate;

const FILE: &[u8] = b"\
adept 2
type t
element e int
act A role 2
act B
write A e
read B e
end
actor ann roles 2
case c t
case d t
phase
ann create c
ann start c A
ann end c A e=7
ann change c
insert C after B
end
ann install t
insert D after A
read D e
end
ann migrate t
ann start c D
ann withdraw c D
ann start c D
";

const REPORT: &[u8] = b"\
adept report 2
type t
1 - define -> defined
2 ann newest -> is 1
3 ann install 2 -> installed 2
4 ann newest -> is 2
case c t
1 ann create 1 -> created
2 ann start A -> started
3 ann end A e=7 -> ended
4 ann change 1 -> changed
5 ann migrate 2 -> migrated 2
6 ann start D -> started e=7
7 ann withdraw D -> withdrawn
8 ann start D -> started e=7
state 2 running own=1
marking start=C A=C D=R B=N C=N finish=N
values e=7
items D:ann
case d t
1 ann migrate 2 -> no-case
state none
summary cases=2 finished=0 entries=9 migrated=1 blocked=0 overlap=0
";

const VERDICTS: &[u8] = b"\
type t 1 sound
line 19 t installed 2
";

fn source(alloc: Global) -> Result<MemorySource, NoMemory> {
    let bytes = Bytes::from_vec(Vec::from_slice(alloc, FILE)?);
    Ok(MemorySource::new(bytes, 1000, Calls::new(alloc)))
}

fn sink(alloc: Global) -> Result<MemorySink, NoMemory> {
    MemorySink::new(alloc, 1000, 1000, Calls::new(alloc))
}

// What `run` writes. The proof of a test need not compute what the bytes stand for.
fn ran<R: Threads + Wait + Sync>(rt: &R, alloc: Global) -> Result<MemorySink, NoMemory> {
    let words = vec![in alloc; String::from_str(alloc, "run")?]?;
    let mut sink = sink(alloc)?;
    let _ = adept(rt, alloc, &words, &mut source(alloc)?, &mut sink, &OpenGate);
    Ok(sink)
}

fn played(alloc: Global) -> Result<MemorySink, NoMemory> {
    let mut sink = sink(alloc)?;
    let _ = play(alloc, &mut source(alloc)?, &mut sink);
    Ok(sink)
}

fn checked(alloc: Global) -> Result<MemorySink, NoMemory> {
    let mut sink = sink(alloc)?;
    let _ = check_only(alloc, &mut source(alloc)?, &mut sink);
    Ok(sink)
}

#[test]
fn one_actor_works_its_lines(rt: HostRuntime) -> Result<(), Fail> {
    assert_eq!(rt; ran(&rt, rt.alloc())?.bytes(), REPORT);
    Ok(())
}

#[test]
fn lines_are_played_in_file_order(rt: HostRuntime) -> Result<(), Fail> {
    assert_eq!(rt; played(rt.alloc())?.bytes(), REPORT);
    Ok(())
}

#[test]
fn types_and_installs_are_checked(rt: HostRuntime) -> Result<(), Fail> {
    assert_eq!(rt; checked(rt.alloc())?.bytes(), VERDICTS);
    Ok(())
}
