//! The program `store`: it reads a process file from standard input, works it over a store in memory, and writes the report
//! to standard output.
#![tactic(auto)]

use adept_io::{Bytes, Calls, StdSink, StdSource};
use case_keep::store_play;
use standard_streams::hold_streams;
use std::process::ExitCode;
use store_disk::MemoryDisk;

// How many bytes may be written to the disk, and how many calls may be made of it.
const ROOM: usize = 268_435_456;

const CALLS: usize = 2_000_000;

fn main(rt: HostRuntime) -> ExitCode {
    if hold_streams(&rt).is_err() {
        return ExitCode::from(3);
    }
    let alloc = rt.alloc();
    let none = Calls::new(alloc);
    let Ok(disk) = MemoryDisk::new(alloc, Bytes::new(alloc), ROOM, CALLS, none) else {
        return ExitCode::from(5);
    };
    let mut source = StdSource::new(rt.stdin());
    let mut sink = StdSink::new(rt.stdout());
    ExitCode::from(store_play(alloc, &mut source, &mut sink, disk).status)
}
