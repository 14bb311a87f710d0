// The entries of a unit's calls.
ghost use Rattle.adept_io.specs.Written.{Gives};
ghost use Rattle.talk_answers.specs.Entries.{case_entry, case_numbered, entries, entries_of_each, entry_at, entry_of_case, entry_of_kind, kind_entry, kind_numbered};

use adept_io::{Sink, put};
use file_model::{CaseDecl, File};
use line_calls::Cells;
use report_text::{CaseEntry, ClosedCase, ClosedKind, KindEntry, put_case_line, put_kind_line};
use report_words::put_type;
use unit_run::UnitRun;
use wsm_sound::CaseId;

/// The last entries of the types and cases that a unit has called, in the order of its calls.
#[tactic(auto, using(adept_io::proofs::Sent::gives_then))]
pub fn put_entries<K: Sink>(
    sink: &mut K,
    ok: bool,
    file: &File,
    run: &UnitRun,
    cells: Cells,
) -> bool
    ensures { Gives K.written K.faults ok result sink.old sink.new (entries file.now run.now cells) }
{
    match cells {
        Cells::Kind(type_no) => put_entry_of_kind(sink, ok, file, run, type_no),
        Cells::Case(id) => put_entry_of_case(sink, ok, file, run, id),
        Cells::KindAndCase(type_no, id) => {
            let ok = put_entry_of_kind(sink, ok, file, run, type_no);
            put_entry_of_case(sink, ok, file, run, id)
        }
        Cells::KindAndEach(type_no, many) => {
            let ok = put_entry_of_kind(sink, ok, file, run, type_no);
            put_entries_of_each(sink, ok, file, run, type_no, many)
        }
    }
}

// The last entry of the type with a number.
#[tactic(auto, using(adept_io::proofs::Sent::gives_nothing))]
fn put_entry_of_kind<K: Sink>(
    sink: &mut K,
    ok: bool,
    file: &File,
    run: &UnitRun,
    type_no: u32,
) -> bool
    ensures { Gives K.written K.faults ok result sink.old sink.new (entry_of_kind file.now run.now type_no) }
{
    match run.kinds().get(type_no as usize) {
        None => ok,
        Some(kind) => put_kind_entry(sink, ok, file, type_no, kind),
    }
}

// The last entry of a type.
#[tactic(auto, using(adept_io::proofs::Sent::gives_nothing))]
pub(crate) fn put_kind_entry<K: Sink>(
    sink: &mut K,
    ok: bool,
    file: &File,
    type_no: u32,
    kind: &ClosedKind,
) -> bool
    ensures { Gives K.written K.faults ok result sink.old sink.new (kind_entry file.now type_no kind.now) }
{
    let journal = kind.journal.as_slice();
    match journal.last() {
        None => ok,
        Some(entry) => put_kind_numbered(sink, ok, file, type_no, journal.len() as u64, entry),
    }
}

// An entry of a type, with its place in the journal.
pub(crate) fn put_kind_numbered<K: Sink>(
    sink: &mut K,
    ok: bool,
    file: &File,
    type_no: u32,
    place: u64,
    entry: &KindEntry,
) -> bool
    ensures { Gives K.written K.faults ok result sink.old sink.new (kind_numbered file.now type_no place entry.now) }
{
    let ok = put_type(sink, ok, b"type ", file, type_no);
    let ok = put(sink, ok, b" ");
    put_kind_line(sink, ok, file, place, entry)
}

// The last entry of the case with an id.
#[tactic(auto, using(adept_io::proofs::Sent::gives_nothing))]
pub(crate) fn put_entry_of_case<K: Sink>(
    sink: &mut K,
    ok: bool,
    file: &File,
    run: &UnitRun,
    id: CaseId,
) -> bool
    ensures { Gives K.written K.faults ok result sink.old sink.new (entry_of_case file.now run.now id) }
{
    match run.places().of_case(id) {
        None => ok,
        Some(place) => put_entry_at(sink, ok, file, run, place),
    }
}

// The last entries of the first so many cases of a type.
pub(crate) fn put_entries_of_each<K: Sink>(
    sink: &mut K,
    ok: bool,
    file: &File,
    run: &UnitRun,
    type_no: u32,
    many: u32,
) -> bool
    ensures { Gives K.written K.faults ok result sink.old sink.new (entries_of_each file.now run.now type_no many) }
{
    let mut well = ok;
    for place in run.places().first_of_kind(type_no, many) {
        well = put_entry_at(sink, well, file, run, *place);
    }
    well
}

// The last entry of the case that was declared at a place.
#[tactic(auto, using(adept_io::proofs::Sent::gives_nothing))]
fn put_entry_at<K: Sink>(sink: &mut K, ok: bool, file: &File, run: &UnitRun, place: u32) -> bool
    ensures { Gives K.written K.faults ok result sink.old sink.new (entry_at file.now run.now place) }
{
    let index = place as usize;
    match (file.cases.get(index), run.cases().get(index)) {
        (Some(decl), Some(case)) => put_case_entry(sink, ok, file, decl, case),
        _ => ok,
    }
}

// The last entry of a case.
#[tactic(auto, using(adept_io::proofs::Sent::gives_nothing))]
fn put_case_entry<K: Sink>(
    sink: &mut K,
    ok: bool,
    file: &File,
    decl: &CaseDecl,
    case: &ClosedCase,
) -> bool
    ensures { Gives K.written K.faults ok result sink.old sink.new (case_entry file.now decl.now case.now) }
{
    let journal = case.journal.as_slice();
    match journal.last() {
        None => ok,
        Some(entry) => put_case_numbered(sink, ok, file, decl, journal.len() as u64, entry),
    }
}

// An entry of a case, with its place in the journal.
pub(crate) fn put_case_numbered<K: Sink>(
    sink: &mut K,
    ok: bool,
    file: &File,
    decl: &CaseDecl,
    place: u64,
    entry: &CaseEntry,
) -> bool
    ensures { Gives K.written K.faults ok result sink.old sink.new (case_numbered file.now decl.now place entry.now) }
{
    let ok = put(sink, ok, b"case ");
    let ok = put(sink, ok, decl.name.bytes());
    let ok = put(sink, ok, b" ");
    put_case_line(sink, ok, file, place, entry)
}
