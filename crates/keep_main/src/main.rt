//! The program `keep`: it reads a process file from standard input, works it over the store at a path, and writes the report
//! to standard output. What the store holds already of the file's calls is not done again.
#![tactic(auto)]

mod store_path;

use adept_io::{StdSink, StdSource};
use case_keep::{Unkept, keep_file, read_process};
use file_model::Refused;
use standard_streams::hold_streams;
use std::process::ExitCode;
use std::{io, str};
use store_keep::KeepFault;
use store_path::{Store, open, path};

fn main(rt: HostRuntime) -> ExitCode {
    let mut store = Store::default();
    match work(&rt, &mut store) {
        Ok(()) => ExitCode::SUCCESS,
        Err(why) => {
            // The status tells all; where nothing can be said beside it, it stays the same.
            let _ = tell(&rt, &why, &store);
            ExitCode::from(why.status())
        }
    }
}

// The whole work: the file is read before the store is touched, and nothing is written before the store has all calls.
fn work(rt: &HostRuntime, store: &mut Store) -> Result<(), Unkept> {
    if hold_streams(rt).is_err() {
        return Err(Unkept::Unread);
    }
    store.path = path(rt)?;
    let file = read_process(rt.alloc(), &mut StdSource::new(rt.stdin()))?;
    let mut disk = open(rt, store)?;
    match keep_file(rt.alloc(), &file, &mut StdSink::new(rt.stdout()), &mut disk) {
        Ok(()) => Ok(()),
        Err(fault) => {
            store.reason = disk.reason();
            Err(Unkept::from(fault))
        }
    }
}

// Says on standard error why the work ended early.
fn tell(rt: &HostRuntime, why: &Unkept, store: &Store) -> io::Result<()> {
    match why {
        Unkept::Refused(place) => tell_place(rt, place),
        Unkept::Words => eprintln!(rt; "usage: keep STORE"),
        Unkept::Unread => eprintln!(rt; "keep: cannot read"),
        Unkept::TooLong => eprintln!(rt; "keep: input too long"),
        Unkept::NoMemory => eprintln!(rt; "keep: out of memory"),
        Unkept::NoStore => store.tell(rt, "cannot open the store"),
        Unkept::Held => store.tell(rt, "the store is in use"),
        Unkept::NotAStore => eprintln!(rt; "keep: not a store"),
        Unkept::Keep(fault) => tell_fault(rt, *fault, store),
    }
}

fn tell_place(rt: &HostRuntime, place: &Refused) -> io::Result<()> {
    let line = place.line;
    let text = str::from_utf8(place.text.as_slice()).unwrap_or("");
    eprintln!(rt; "keep: line {line}: {text}")
}

fn tell_fault(rt: &HostRuntime, fault: KeepFault, store: &Store) -> io::Result<()> {
    match fault {
        KeepFault::Unwritten => eprintln!(rt; "keep: cannot write"),
        KeepFault::NoMemory => eprintln!(rt; "keep: out of memory"),
        KeepFault::Disk => store.tell(rt, "the store failed; run the same command again"),
        KeepFault::Full => store.tell(rt, "the store is full"),
        KeepFault::TooLong => eprintln!(rt; "keep: the store is not of this file: too long"),
        KeepFault::Damaged(place) => {
            eprintln!(rt; "keep: the store is not of this file: damaged {place}")
        }
        KeepFault::Differs(number) => {
            eprintln!(rt; "keep: the store is not of this file: record {number}")
        }
    }
}
