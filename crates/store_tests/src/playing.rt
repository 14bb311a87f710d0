// A process file over a store in memory, with devices that fail at each call in turn, and with little room.
ghost use Rattle.std.specs.Prelude.{[], ◌<◌, ◌≤◌, ◌^◌, IfOk};
ghost use Rattle.store_disk.specs.{Disk.IsSettled, History.{MayLeave, content}};

use adept_io::{Bytes, Calls, MemorySink, MemorySource, NoMemory};
use case_keep::{store_play, store_play_within};
use std::alloc::Global;
use std::test::Fail;
use store_disk::MemoryDisk;

const FILE: &[u8] = b"\
adept 1
type t
act A
end
actor ann
case c t
phase
ann create c
";

const REPORT: &[u8] = b"\
adept report 1
type t
1 - define -> defined
2 ann newest -> is 1
case c t
1 ann create 1 -> created
state 1 running own=0
marking start=C A=A finish=N
values
items A@0
summary cases=1 finished=0 entries=1 migrated=0 blocked=0 overlap=0
";

// The store, which is begun, opens with four calls. The three records are one group, two writes and two syncs, and the store is
// opened again with three.
const DISK_CALLS: u64 = 11;

// Which call of each device fails, from 1; with 0 none does.
#[derive(Clone, Copy)]
struct Failing {
    read: u64,
    write: u64,
    disk: u64,
}

const NOTHING_FAILS: Failing = Failing {
    read: 0,
    write: 0,
    disk: 0,
};

#[test]
fn first_sync_fails(rt: HostRuntime) -> Result<(), Fail> {
    let failing = Failing {
        disk: 1,
        ..NOTHING_FAILS
    };
    let (status, written) = played(rt.alloc(), 64, failing)?;
    assert_eq!(rt; status, 7);
    assert_eq!(rt; written.len(), 0);
    Ok(())
}

#[test]
fn each_call_of_the_disk_fails(rt: HostRuntime) -> Result<(), Fail> {
    assert!(rt; disk_calls_fail(rt.alloc())?);
    let failing = Failing {
        disk: DISK_CALLS + 1,
        ..NOTHING_FAILS
    };
    let (status, written) = played(rt.alloc(), 64, failing)?;
    assert_eq!(rt; status, 0);
    assert_eq!(rt; written.as_slice(), REPORT);
    Ok(())
}

#[test]
fn each_read_fails(rt: HostRuntime) -> Result<(), Fail> {
    assert!(rt; reads_fail(rt.alloc(), 1, 64)?);
    assert!(rt; reads_fail(rt.alloc(), 2, 33)?);
    assert!(rt; reads_fail(rt.alloc(), 121, 2)?);
    Ok(())
}

#[test]
fn each_write_fails(rt: HostRuntime) -> Result<(), Fail> {
    assert!(rt; writes_fail(rt.alloc(), 1, 236)?);
    assert!(rt; writes_fail(rt.alloc(), 2, 118)?);
    assert!(rt; writes_fail(rt.alloc(), 121, 2)?);
    Ok(())
}

// The records have 46, 9 and 17 bytes, five more each, and the gate behind the last one is the 88th byte.
#[test]
fn store_is_full(rt: HostRuntime) -> Result<(), Fail> {
    let (status, written) = played_within(rt.alloc(), 87)?;
    assert_eq!(rt; status, 8);
    assert_eq!(rt; written.len(), 0);
    let (status, written) = played_within(rt.alloc(), 88)?;
    assert_eq!(rt; status, 0);
    assert_eq!(rt; written.as_slice(), REPORT);
    Ok(())
}

// Whether the work ends with 7 at each call of the disk, and nothing is written.
fn disk_calls_fail(alloc: Global) -> Result<bool, NoMemory> {
    for call in 0..DISK_CALLS {
        let failing = Failing {
            disk: call + 1,
            ..NOTHING_FAILS
        };
        let (status, written) = played(alloc, 64, failing)?;
        if status != 7 || written.len() > 0 {
            return Ok(false);
        }
    }
    Ok(true)
}

// Whether the work ends with 3 at each of so many reads of pieces, and nothing is written, and there is none behind them.
fn reads_fail(alloc: Global, piece: usize, reads: u64) -> Result<bool, NoMemory>
    requires piece { 0 < piece }
    requires reads { reads < 2 ^ 32 }
{
    for call in 0..reads {
        let failing = Failing {
            read: call + 1,
            ..NOTHING_FAILS
        };
        let (status, written) = played(alloc, piece, failing)?;
        if status != 3 || written.len() > 0 {
            return Ok(false);
        }
    }
    let failing = Failing {
        read: reads + 1,
        ..NOTHING_FAILS
    };
    let (status, written) = played(alloc, piece, failing)?;
    Ok(status == 0 && written.as_slice() == REPORT)
}

// Whether the work ends with 4 at each of so many writes of pieces, behind those before it, and there is none behind them.
fn writes_fail(alloc: Global, piece: usize, writes: u64) -> Result<bool, NoMemory>
    requires piece { 0 < piece }
    requires writes { writes < 2 ^ 32 }
{
    for call in 0..writes {
        let failing = Failing {
            write: call + 1,
            ..NOTHING_FAILS
        };
        let (status, written) = played(alloc, piece, failing)?;
        if status != 4 || !is_beginning(written.as_slice(), piece, call) {
            return Ok(false);
        }
    }
    let failing = Failing {
        write: writes + 1,
        ..NOTHING_FAILS
    };
    let (status, written) = played(alloc, piece, failing)?;
    Ok(status == 0 && written.as_slice() == REPORT)
}

// Whether so many pieces of the report were written, and no more.
fn is_beginning(written: &[u8], piece: usize, pieces: u64) -> bool {
    REPORT.starts_with(written) && pieces.checked_mul(piece as u64) == Some(written.len() as u64)
}

// The status of the work with devices that fail, and what was written.
fn played(alloc: Global, piece: usize, failing: Failing) -> Result<(u8, Vec<u8>), NoMemory>
    requires { 0 < piece }
{
    let disk = failing_disk(alloc, failing.disk)?;
    let mut source = process_file(alloc, piece, failing.read)?;
    let mut sink = MemorySink::new(alloc, 1000, piece, calls(alloc, failing.write)?)?;
    let outcome = store_play(alloc, &mut source, &mut sink, disk);
    Ok((outcome.status, sink.bytes().to_vec(alloc)?))
}

// The same in an image of at most so many bytes, with devices that do not fail.
fn played_within(alloc: Global, limit: u64) -> Result<(u8, Vec<u8>), NoMemory>
    requires { limit ≤ 2 ^ 30 }
{
    let disk = failing_disk(alloc, 0)?;
    let mut source = process_file(alloc, 64, 0)?;
    let mut sink = MemorySink::new(alloc, 1000, 64, Calls::new(alloc))?;
    let outcome = store_play_within(alloc, &mut source, &mut sink, disk, limit);
    Ok((outcome.status, sink.bytes().to_vec(alloc)?))
}

// One call.
fn calls(alloc: Global, call: u64) -> Result<Calls, NoMemory> {
    let mut calls = Calls::new(alloc);
    calls.push(call)?;
    Ok(calls)
}

fn failing_disk(alloc: Global, call: u64) -> Result<MemoryDisk, NoMemory>
    ensures { IfOk result (λ disk. IsSettled (λ d. content d.first d.past) (λ d. MayLeave d.first d.past) disk []) }
{
    MemoryDisk::new(alloc, Bytes::new(alloc), 1000, 100, calls(alloc, call)?)
}

fn process_file(alloc: Global, piece: usize, call: u64) -> Result<MemorySource, NoMemory>
    requires { 0 < piece }
{
    let file = Bytes::from_vec(FILE.to_vec(alloc)?);
    Ok(MemorySource::new(file, piece, calls(alloc, call)?))
}
