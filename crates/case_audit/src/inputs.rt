// A process file with a report behind it, judged from bytes to bytes.
ghost use Rattle.std.specs.Prelude.{◌≡◌, ◌≤◌, length, true};
ghost use Rattle.case_audit.specs.Common.{EndsAudit, Gives, IsRead, most_bytes, most_in_report, of_file, TellsBytes, TellsOne, TellsReport, verdict_text};

use crate::dividing::divided;
use crate::reports::{Verdict, audit};
use crate::unaudited::Unaudited;
use adept_io::{ReadRefusal, Sink, Source, put, put_pieces, read_to_limit};
use file_limits::MAX_FILE_BYTES;
use file_model::{File, FileRefusal};
use itoa::Buffer;
use process_text::read_workable;
use std::alloc::Global;
use std::thread::Threads;

/// The most bytes of a report, and of a process file with one.
const MOST_REPORT: usize = 268435456;

const MOST_BYTES: usize = MAX_FILE_BYTES + MOST_REPORT;

/// Reads a process file with a report directly behind it, and writes `legal`, or `wrong line` and the number of the first
/// line with which no legal run's report goes on.
pub fn audit_input<R: Threads + Sync, S: Source, K: Sink>(
    rt: &R,
    alloc: Global,
    source: &mut S,
    sink: &mut K,
) -> Result<Verdict, Unaudited>
    ensures { EndsAudit S.left S.faults K.written K.faults source.old source.new sink.old sink.new result }
{
    match read_to_limit(alloc, source, MOST_BYTES) {
        Ok(bytes) => audit_bytes(rt, alloc, bytes.as_slice(), sink),
        Err(ReadRefusal::Failed) => Err(Unaudited::Unread),
        Err(ReadRefusal::NoMemory) => Err(Unaudited::NoMemory),
        Err(ReadRefusal::TooLong) => Err(Unaudited::TooLong),
    }
}

// Why there is no verdict on a process file that is refused.
fn of_file(refusal: &FileRefusal) -> Unaudited
    ensures { result ≡ of_file refusal.now }
{
    match refusal {
        FileRefusal::Refused(_) => Unaudited::Refused,
        FileRefusal::NoMemory => Unaudited::NoMemory,
    }
}

// Judges the report that stands behind the process file.
fn audit_bytes<R: Threads + Sync, K: Sink>(
    rt: &R,
    alloc: Global,
    bytes: &[u8],
    sink: &mut K,
) -> Result<Verdict, Unaudited>
    requires { length bytes.now ≤ most_bytes }
    ensures { TellsBytes K.written K.faults bytes.now sink.old sink.new result }
{
    let (file, report) = divided(bytes);
    if file.len() > MAX_FILE_BYTES || report.len() > MOST_REPORT {
        return Err(Unaudited::TooLong);
    }
    match read_workable(alloc, file) {
        Ok(file) => audit_file(rt, alloc, &file, report, sink),
        Err(refusal) => Err(of_file(&refusal)),
    }
}

fn audit_file<R: Threads + Sync, K: Sink>(
    rt: &R,
    alloc: Global,
    file: &File,
    report: &[u8],
    sink: &mut K,
) -> Result<Verdict, Unaudited>
    requires file { IsRead file.now }
    requires length { length report.now ≤ most_in_report }
    ensures { TellsReport K.written K.faults file.now report.now sink.old sink.new result }
{
    match audit(rt, alloc, file, report) {
        Ok(verdict) => tell(verdict, sink),
        Err(_) => Err(Unaudited::NoMemory),
    }
}

// Writes a verdict.
fn tell<K: Sink>(verdict: Verdict, sink: &mut K) -> Result<Verdict, Unaudited>
    ensures { TellsOne K.written K.faults verdict sink.old sink.new result }
{
    if put_verdict(sink, verdict) {
        Ok(verdict)
    } else {
        Err(Unaudited::Unwritten)
    }
}

fn put_verdict<K: Sink>(sink: &mut K, verdict: Verdict) -> bool
    ensures { Gives K.written K.faults true result sink.old sink.new (verdict_text verdict) }
{
    let mut number = Buffer::new();
    match verdict {
        Verdict::Legal => put(sink, true, b"legal\n"),
        Verdict::Wrong { line } => put_pieces(
            sink,
            true,
            &[b"wrong line ", number.format(line).as_bytes(), b"\n"],
        ),
    }
}
