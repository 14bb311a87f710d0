// The types of a file.
ghost use Rattle.std.specs.Prelude.{◌≡◌, ◌<◌, ◌^◌, length};
ghost use Rattle.adept_io.specs.Written.{Gives};
ghost use Rattle.talk_answers.specs.Standings.{type_line, types_text, versions_of};
ghost use Rattle.type_core.specs.Machine.{newest_of};

use adept_io::{Sink, put, put_number};
use file_model::File;
use report_text::ClosedKind;
use report_words::put_type;
use unit_run::UnitRun;

/// The types, with how many versions and cases each has.
pub fn put_types<K: Sink>(sink: &mut K, ok: bool, file: &File, run: &UnitRun) -> bool
    requires few { length run.now.run.kinds < 2 ^ 32 }
    ensures { Gives K.written K.faults ok result sink.old sink.new (types_text file.now run.now) }
{
    let mut well = ok;
    for (index, kind) in run.kinds().iter().enumerate() {
        well = put_type_line(sink, well, file, run, index as u32, kind);
    }
    well
}

fn put_type_line<K: Sink>(
    sink: &mut K,
    ok: bool,
    file: &File,
    run: &UnitRun,
    type_no: u32,
    kind: &ClosedKind,
) -> bool
    ensures { Gives K.written K.faults ok result sink.old sink.new (type_line file.now run.now.placed type_no kind.now) }
{
    let ok = put_type(sink, ok, b"type ", file, type_no);
    let ok = put(sink, ok, b" versions=");
    let ok = put_number(sink, ok, u64::from(versions_of(kind)));
    let ok = put(sink, ok, b" cases=");
    let ok = put_number(sink, ok, run.places().of_kind(type_no).len() as u64);
    put(sink, ok, b"\n")
}

// How many versions a type has.
fn versions_of(kind: &ClosedKind) -> u32
    ensures { result ≡ versions_of (newest_of kind.now.machine.versions) }
{
    match kind.machine.newest() {
        None => 0,
        Some(version) => version.number(),
    }
}
