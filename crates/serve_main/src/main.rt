//! The program `serve`: it answers a talk from standard input over the store at a path, line by line, and has what it accepts
//! on the store before it answers.
#![tactic(auto)]

mod ends;
mod store_path;

use adept_io::{StdSink, StdSource};
use ends::End;
use standard_streams::hold_streams;
use std::io;
use std::process::ExitCode;
use store_path::{Store, open, path};
use talk_server::{ServeFault, serve};
use talk_state::TalkState;
use turn_loop::TalkFault;

fn main(rt: HostRuntime) -> ExitCode {
    let mut store = Store::default();
    match work(&rt, &mut store) {
        Ok(()) => ExitCode::SUCCESS,
        Err(why) => {
            // The status tells all; where nothing can be said beside it, it stays the same.
            let _ = tell(&rt, &why, &store);
            ExitCode::from(why.status())
        }
    }
}

// The whole work: the streams are held before the store is opened, so that its file is none of them; then the talk is answered.
fn work(rt: &HostRuntime, store: &mut Store) -> Result<(), End> {
    store.path = path(rt)?;
    if hold_streams(rt).is_err() {
        return Err(End::from(TalkFault::Unread));
    }
    let mut disk = open(rt, store)?;
    let mut source = StdSource::new(rt.stdin());
    let mut sink = StdSink::new(rt.stdout());
    match serve::<TalkState, _, _, _>(rt.alloc(), &mut source, &mut sink, &mut disk) {
        Ok(()) => Ok(()),
        Err(fault) => {
            store.reason = disk.reason();
            Err(End::Serve(fault))
        }
    }
}

// Says on standard error why the work ended early.
fn tell(rt: &HostRuntime, why: &End, store: &Store) -> io::Result<()> {
    match why {
        End::Words => eprintln!(rt; "usage: serve STORE"),
        End::NoMemory => eprintln!(rt; "serve: out of memory"),
        End::NoStore => store.tell(rt, "cannot open the store"),
        End::Held => store.tell(rt, "the store is in use"),
        End::NotAStore => eprintln!(rt; "serve: not a store"),
        End::Serve(fault) => tell_fault(rt, *fault, store),
    }
}

fn tell_fault(rt: &HostRuntime, fault: ServeFault, store: &Store) -> io::Result<()> {
    match fault {
        ServeFault::Unopened => store.tell(rt, "cannot open the store"),
        ServeFault::TooLong => eprintln!(rt; "serve: the store is not of a server: too long"),
        ServeFault::Damaged(place) => {
            eprintln!(rt; "serve: the store is not of a server: damaged {place}")
        }
        ServeFault::Talk(fault) => tell_cut(rt, fault, store),
    }
}

fn tell_cut(rt: &HostRuntime, fault: TalkFault, store: &Store) -> io::Result<()> {
    match fault {
        TalkFault::Unread | TalkFault::TooLong => eprintln!(rt; "serve: cannot read"),
        TalkFault::Unwritten => eprintln!(rt; "serve: cannot write"),
        TalkFault::NoMemory => eprintln!(rt; "serve: out of memory"),
        TalkFault::Disk => store.tell(rt, "the store failed"),
    }
}
