// The commands on a process file that was read. Nothing is written before the work is done.
ghost use Rattle.std.specs.{Prelude.{ℕ, ◌≡◌, ◌⊎◌, Some, None, IfOk}, Io.KnownBytes.Appends};
ghost use Rattle.adept_io.specs.{Counts.Rose, Written.AppendsPrefix};
ghost use Rattle.adept_top.specs.Works.{Works};
ghost use Rattle.adept_top.specs.declared.words.Command.TheVariants as Command;
ghost use Rattle.file_facts.specs.Facts.{IsWorkable};
ghost use Rattle.legal_run.specs.Legal.{Legal};
ghost use Rattle.file_model.specs.Sizes.{IsBounded};
ghost use Rattle.report_text.specs.Report.{summary, text};
ghost use Rattle.script_run.specs.Serial.{serial};

use crate::outcomes::Outcome;
use adept_io::{NoMemory, Sink};
use crew_run::crew_run;
use process_text::File;
use report_text::{Run, write_run, write_summary, write_verdicts};
use script_run::{serial_run, verdicts};
use std::alloc::Global;
use std::sync::Wait;
use std::thread::Threads;
use turn_cell::Gate;

/// Works the lines of a file with a crew, each actor its own, and writes the report.
pub fn run_file<R: Threads + Wait + Sync, K: Sink, G: Gate + Sync>(
    rt: &R,
    alloc: Global,
    file: &File,
    sink: &mut K,
    gate: &G,
) -> Outcome
    requires { IsWorkable file.now }
    ensures { Works K.written K.faults Command.Run file.now sink.old sink.new result }
{
    match crew_run(rt, alloc, file, gate) {
        Ok(run) => report(file, run, sink),
        Err(_) => Outcome::of_status(5),
    }
}

/// The same, but only the last line of the report is written.
pub fn summarize_file<R: Threads + Wait + Sync, K: Sink, G: Gate + Sync>(
    rt: &R,
    alloc: Global,
    file: &File,
    sink: &mut K,
    gate: &G,
) -> Outcome
    requires { IsWorkable file.now }
    ensures { (cases : ℕ) → Works K.written K.faults (Command.Load cases) file.now sink.old sink.new result }
{
    match crew_run(rt, alloc, file, gate) {
        Ok(run) => sum_up(file, run, sink),
        Err(_) => Outcome::of_status(5),
    }
}

/// Works the lines of a file in their order, and writes the report.
pub fn play_file<K: Sink>(alloc: Global, file: &File, sink: &mut K) -> Outcome
    requires bounded { IsBounded file.now }
    requires workable { IsWorkable file.now }
    ensures { Works K.written K.faults Command.Play file.now sink.old sink.new result }
{
    match played(alloc, file) {
        Ok(run) => report(file, run, sink),
        Err(_) => Outcome::of_status(5),
    }
}

// The serial run of a file, which is one that its actors might have made in threads.
fn played(alloc: Global, file: &File) -> Result<Run, NoMemory>
    requires bounded { IsBounded file.now }
    requires workable { IsWorkable file.now }
    ensures serial { IfOk result (λ run. run ≡ serial file.now) }
    ensures legal { IfOk result (λ run. Legal file.now run) }
{
    serial_run(alloc, file)
}

// Writes the report of a run.
fn report<K: Sink>(file: &File, run: Run, sink: &mut K) -> Outcome
    ensures statuses { (result.status ≡ 0) ⊎ (result.status ≡ 4) }
    ensures done { result.status ≡ 0 → Appends (K.written sink.old) (K.written sink.new) (text file.now run) }
    ensures begun { result.status ≡ 4 → AppendsPrefix (K.written sink.old) (K.written sink.new) (text file.now run) }
    ensures unwritten { result.status ≡ 4 → Rose (K.faults sink.old) (K.faults sink.new) }
    ensures run { result.run ≡ Some run }
    ensures no_place { result.place ≡ None }
{
    match write_run(file, &run, sink) {
        Ok(()) => Outcome::of_run(0, run),
        Err(_) => Outcome::of_run(4, run),
    }
}

// Writes the last line of that report.
fn sum_up<K: Sink>(file: &File, run: Run, sink: &mut K) -> Outcome
    ensures statuses { (result.status ≡ 0) ⊎ (result.status ≡ 4) }
    ensures done { result.status ≡ 0 → Appends (K.written sink.old) (K.written sink.new) (summary file.now run) }
    ensures begun { result.status ≡ 4 → AppendsPrefix (K.written sink.old) (K.written sink.new) (summary file.now run) }
    ensures unwritten { result.status ≡ 4 → Rose (K.faults sink.old) (K.faults sink.new) }
    ensures run { result.run ≡ Some run }
    ensures no_place { result.place ≡ None }
{
    match write_summary(file, &run, sink) {
        Ok(()) => Outcome::of_run(0, run),
        Err(_) => Outcome::of_run(4, run),
    }
}

/// Writes which types are sound, and what becomes of each install.
pub fn check_file<K: Sink>(alloc: Global, file: &File, sink: &mut K) -> Outcome
    requires { IsBounded file.now }
    ensures { Works K.written K.faults Command.Check file.now sink.old sink.new result }
{
    let Ok(verdicts) = verdicts(alloc, file) else {
        return Outcome::of_status(5);
    };
    match write_verdicts(file, &verdicts, sink) {
        Ok(()) => Outcome::of_status(0),
        Err(_) => Outcome::of_status(4),
    }
}
