//! The program `adept`: it reads standard input, and writes standard output.
#![tactic(auto)]

use adept_io::{StdSink, StdSource};
use adept_top::{Outcome, adept};
use command_words::{WordFault, words};
use process_text::Refused;
use standard_streams::hold_streams;
use std::process::ExitCode;
use std::{io, mem, str};
use turn_cell::OpenGate;

fn main(rt: HostRuntime) -> ExitCode {
    let outcome = match asked(&rt) {
        Ok(words) => {
            let mut source = StdSource::new(rt.stdin());
            let mut sink = StdSink::new(rt.stdout());
            adept(&rt, rt.alloc(), &words, &mut source, &mut sink, &OpenGate)
        }
        Err(status) => Outcome::of_status(status),
    };
    // The status tells all; where nothing can be said beside it, it stays the same.
    let _ = tell(&rt, &outcome);
    let status = ExitCode::from(outcome.status);
    // The process ends here: its memory goes back as one, not piece by piece.
    mem::forget(outcome);
    status
}

// The words, once each standard stream is one; or the status with which the program ends at once: words that are no text
// are no command.
fn asked(rt: &HostRuntime) -> Result<Vec<String>, u8> {
    if hold_streams(rt).is_err() {
        return Err(3);
    }
    match words(rt) {
        Ok(words) => Ok(words),
        Err(WordFault::NoText) => Err(2),
        Err(WordFault::NoMemory) => Err(5),
    }
}

// Says on standard error why the program ends with a status other than 0.
fn tell(rt: &HostRuntime, outcome: &Outcome) -> io::Result<()> {
    if let Some(place) = &outcome.place {
        return tell_place(rt, place);
    }
    match outcome.status {
        0 => Ok(()),
        2 => eprintln!(rt; "usage: adept run, play, check or load N"),
        3 => eprintln!(rt; "adept: cannot read"),
        4 => eprintln!(rt; "adept: cannot write"),
        6 => eprintln!(rt; "adept: input too long"),
        _ => eprintln!(rt; "adept: out of memory"),
    }
}

fn tell_place(rt: &HostRuntime, place: &Refused) -> io::Result<()> {
    let line = place.line;
    let text = str::from_utf8(place.text.as_slice()).unwrap_or("");
    eprintln!(rt; "adept: line {line}: {text}")
}
