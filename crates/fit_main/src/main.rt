//! The program `fit`: it reads a process file and a log from standard input, and writes how far each case of the log goes.
#![tactic(auto)]

use adept_io::{StdSink, StdSource};
use command_words::{WordFault, words};
use log_fit::{RecordFault, Unfit, WrongRecord, fit_input};
use standard_streams::hold_streams;
use std::io;
use std::process::ExitCode;

fn main(rt: HostRuntime) -> ExitCode {
    match work(&rt) {
        Ok(()) => ExitCode::SUCCESS,
        Err(why) => {
            // The status tells how it ended; where nothing can be said beside it, it stays the same.
            let _ = tell(&rt, why);
            ExitCode::from(why.status())
        }
    }
}

// What the words ask for, over standard input and output.
fn work(rt: &HostRuntime) -> Result<(), Unfit> {
    if hold_streams(rt).is_err() {
        return Err(Unfit::Unread);
    }
    let words = match words(rt) {
        Ok(words) => words,
        // Words that are no text name no type.
        Err(WordFault::NoText) => return Err(Unfit::Words),
        Err(WordFault::NoMemory) => return Err(Unfit::NoMemory),
    };
    let mut source = StdSource::new(rt.stdin());
    let mut sink = StdSink::new(rt.stdout());
    fit_input(rt.alloc(), &words, &mut source, &mut sink)
}

// Says on standard error why a log is refused; of all other ends the status says all.
fn tell(rt: &HostRuntime, why: Unfit) -> io::Result<()> {
    match why {
        Unfit::NoLog => eprintln!(rt; "fit: no log"),
        Unfit::Wrong(WrongRecord { index, why }) => match why {
            RecordFault::Head => eprintln!(rt; "fit: record {index}: header"),
            RecordFault::Form => eprintln!(rt; "fit: record {index}: form"),
            RecordFault::Cases => eprintln!(rt; "fit: record {index}: limit cases"),
        },
        _ => Ok(()),
    }
}
