// The program and its commands.
ghost use Rattle.std.specs.Prelude.{◌≡◌, ◌≤◌, map, string_bytes, IfSome, None};
ghost use Rattle.adept_top.specs.{Commands.command_of, Endings.Ends};

use crate::outcomes::Outcome;
use crate::reading::{made_process, read_process};
use crate::words::Command;
use crate::working::{check_file, play_file, run_file, summarize_file};
use adept_io::{Sink, Source};
use file_limits::MAX_CASES;
use std::alloc::Global;
use std::sync::Wait;
use std::thread::Threads;
use turn_cell::Gate;

/// The program with these words, those behind the program's name. The commands are the words `run`, `play` and `check`,
/// each alone, and `load` with a number of cases; other words are status 2, and then nothing is read or written.
pub fn adept<R: Threads + Wait + Sync, S: Source, K: Sink, G: Gate + Sync>(
    rt: &R,
    alloc: Global,
    words: &[String],
    source: &mut S,
    sink: &mut K,
    gate: &G,
) -> Outcome
    ensures usage { command_of (map string_bytes words.now) ≡ None → (result ≡ record { status = 2; run = None; place = None }) × (source.new ≡ source.old) × (sink.new ≡ sink.old) }
    ensures ends { IfSome (command_of (map string_bytes words.now)) (λ c. Ends S.left S.faults K.written K.faults c source.old source.new sink.old sink.new result) }
{
    match Command::of(words) {
        Some(Command::Run) => run(rt, alloc, source, sink, gate),
        Some(Command::Play) => play(alloc, source, sink),
        Some(Command::Check) => check_only(alloc, source, sink),
        Some(Command::Load(cases)) => load(rt, alloc, cases, source, sink, gate),
        None => Outcome::of_status(2),
    }
}

// Reads a process file, works it with a crew, each actor its own lines, and writes the report.
#[tactic(auto, using(crate::proofs::Endings::worked_ends))]
fn run<R: Threads + Wait + Sync, S: Source, K: Sink, G: Gate + Sync>(
    rt: &R,
    alloc: Global,
    source: &mut S,
    sink: &mut K,
    gate: &G,
) -> Outcome
    ensures { Ends S.left S.faults K.written K.faults Command.Run source.old source.new sink.old sink.new result }
{
    match read_process(alloc, source) {
        Ok(file) => run_file(rt, alloc, &file, sink, gate),
        Err(end) => end,
    }
}

/// Reads a process file, works its lines in order, and writes the report. Nothing is written before the work is done.
#[tactic(auto, using(crate::proofs::Endings::worked_ends))]
pub fn play<S: Source, K: Sink>(alloc: Global, source: &mut S, sink: &mut K) -> Outcome
    ensures { Ends S.left S.faults K.written K.faults Command.Play source.old source.new sink.old sink.new result }
{
    match read_process(alloc, source) {
        Ok(file) => play_file(alloc, &file, sink),
        Err(end) => end,
    }
}

/// Reads a process file, and writes which of its types are sound and what becomes of each install. No case is worked.
#[tactic(auto, using(crate::proofs::Endings::worked_ends))]
pub fn check_only<S: Source, K: Sink>(alloc: Global, source: &mut S, sink: &mut K) -> Outcome
    ensures { Ends S.left S.faults K.written K.faults Command.Check source.old source.new sink.old sink.new result }
{
    match read_process(alloc, source) {
        Ok(file) => check_file(alloc, &file, sink),
        Err(end) => end,
    }
}

// Makes a large process file, works it with a crew, and writes the last line of the report. The source is left alone.
fn load<R: Threads + Wait + Sync, S: Source, K: Sink, G: Gate + Sync>(
    rt: &R,
    alloc: Global,
    cases: u32,
    source: &mut S,
    sink: &mut K,
    gate: &G,
) -> Outcome
    requires { (1 ≤ cases) × (cases ≤ MAX_CASES) }
    ensures { Ends S.left S.faults K.written K.faults (Command.Load cases) source.old source.new sink.old sink.new result }
{
    match made_process(alloc, cases, source) {
        Ok(file) => summarize_file(rt, alloc, &file, sink, gate),
        Err(end) => end,
    }
}
