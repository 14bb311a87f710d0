// The report.
ghost use Rattle.std.specs.{Prelude.{◌≡◌, ◌≤◌, ◌++◌, codes, OnErr, OnOk}, Io.KnownBytes.Appends};
ghost use Rattle.adept_io.specs.{Counts.Rose, Written.{AppendsPrefix, Gives}};
ghost use Rattle.report_text.specs.Report.{case_head, case_text, cases_text, first_line, kind_text, kinds_text, summary, text, type_head};

use crate::case_lines::put_case_journal;
use crate::ends::put_end;
use crate::kind_lines::put_kind_journal;
use adept_io::{Failed, Sink, Text, put, put_pieces, write_gathered};
use file_model::{CaseDecl, File, TypeDecl};
use report_words::{put_case_totals, put_format, put_migration_totals, put_type};
use script_run::{ClosedCase, ClosedKind, Run};

// The report of a run of the file.
#[derive(Drop)]
struct Report<'a> {
    file: &'a File,
    run: &'a Run,
}

impl Text for Report<'_> {
    ghost bytes = { λ report. text report.file.now report.run.now };

    fn put<K: Sink>(&self, sink: &mut K, ok: bool) -> bool {
        put_report(sink, ok, self.file, self.run)
    }
}

// The last line of that report.
#[derive(Drop)]
struct Summary<'a> {
    file: &'a File,
    run: &'a Run,
}

impl Text for Summary<'_> {
    ghost bytes = { λ last. summary last.file.now last.run.now };

    fn put<K: Sink>(&self, sink: &mut K, ok: bool) -> bool {
        put_summary(sink, ok, self.file, self.run)
    }
}

/// Writes the report of a run of the file. Where a write fails, the first bytes of the report may have been written.
pub fn write_run<K: Sink>(file: &File, run: &Run, sink: &mut K) -> Result<(), Failed>
    ensures all { OnOk result (Appends (K.written sink.old) (K.written sink.new) (text file.now run.now)) }
    ensures part { OnErr result (AppendsPrefix (K.written sink.old) (K.written sink.new) (text file.now run.now)) }
    ensures rose { OnErr result (Rose (K.faults sink.old) (K.faults sink.new)) }
{
    write_gathered(sink, &Report { file, run })
}

/// Writes the last line of the report alone, as `write_run` writes the report.
pub fn write_summary<K: Sink>(file: &File, run: &Run, sink: &mut K) -> Result<(), Failed>
    ensures all { OnOk result (Appends (K.written sink.old) (K.written sink.new) (summary file.now run.now)) }
    ensures part { OnErr result (AppendsPrefix (K.written sink.old) (K.written sink.new) (summary file.now run.now)) }
    ensures rose { OnErr result (Rose (K.faults sink.old) (K.faults sink.new)) }
{
    write_gathered(sink, &Summary { file, run })
}

fn put_report<K: Sink>(sink: &mut K, ok: bool, file: &File, run: &Run) -> bool
    ensures { Gives K.written K.faults ok result sink.old sink.new (text file.now run.now) }
{
    let ok = put_first_line(sink, ok, file);
    let ok = put_all_kinds(sink, ok, file, run);
    let ok = put_all_cases(sink, ok, file, run);
    put_summary(sink, ok, file, run)
}

/// The first line, which tells the format.
pub fn put_first_line<K: Sink>(sink: &mut K, ok: bool, file: &File) -> bool
    ensures { Gives K.written K.faults ok result sink.old sink.new (first_line file.now) }
{
    put_format(sink, ok, file.format)
}

fn put_all_kinds<K: Sink>(sink: &mut K, ok: bool, file: &File, run: &Run) -> bool
    ensures { Gives K.written K.faults ok result sink.old sink.new (kinds_text file.now file.now.types run.now.kinds) }
{
    put_kinds(sink, ok, file, file.types.as_slice(), run.kinds.as_slice())
}

/// The types, each with its calls.
pub fn put_kinds<K: Sink>(
    sink: &mut K,
    ok: bool,
    file: &File,
    types: &[TypeDecl],
    kinds: &[ClosedKind],
) -> bool
    ensures { Gives K.written K.faults ok result sink.old sink.new (kinds_text file.now types.now kinds.now) }
{
    let mut well = ok;
    for (decl, kind) in types.iter().zip(kinds) {
        well = put_kind(sink, well, file, decl, kind);
    }
    well
}

/// A type and its calls.
pub fn put_kind<K: Sink>(
    sink: &mut K,
    ok: bool,
    file: &File,
    decl: &TypeDecl,
    kind: &ClosedKind,
) -> bool
    ensures { Gives K.written K.faults ok result sink.old sink.new (kind_text file.now decl.now kind.now) }
{
    let ok = put_type_head(sink, ok, decl);
    put_kind_journal(sink, ok, file, kind.journal.as_slice())
}

/// The line of a type.
pub fn put_type_head<K: Sink>(sink: &mut K, ok: bool, decl: &TypeDecl) -> bool
    ensures { Gives K.written K.faults ok result sink.old sink.new (type_head decl.now) }
{
    put_pieces(sink, ok, &[b"type ", decl.name.bytes(), b"\n"])
}

fn put_all_cases<K: Sink>(sink: &mut K, ok: bool, file: &File, run: &Run) -> bool
    ensures { Gives K.written K.faults ok result sink.old sink.new (cases_text file.now file.now.cases run.now.cases) }
{
    put_cases(sink, ok, file, file.cases.as_slice(), run.cases.as_slice())
}

/// The cases, each with its calls and how it ended.
pub fn put_cases<K: Sink>(
    sink: &mut K,
    ok: bool,
    file: &File,
    decls: &[CaseDecl],
    cases: &[ClosedCase],
) -> bool
    ensures { Gives K.written K.faults ok result sink.old sink.new (cases_text file.now decls.now cases.now) }
{
    let mut well = ok;
    for (decl, case) in decls.iter().zip(cases) {
        well = put_case(sink, well, file, decl, case);
    }
    well
}

/// A case, its calls, and how it ended.
pub fn put_case<K: Sink>(
    sink: &mut K,
    ok: bool,
    file: &File,
    decl: &CaseDecl,
    case: &ClosedCase,
) -> bool
    ensures { Gives K.written K.faults ok result sink.old sink.new (case_text file.now decl.now case.now) }
{
    let ok = put_case_head(sink, ok, file, decl);
    let ok = put_case_journal(sink, ok, file, case.journal.as_slice());
    put_end(sink, ok, file, case.machine.live())
}

/// The line of a case.
pub fn put_case_head<K: Sink>(sink: &mut K, ok: bool, file: &File, decl: &CaseDecl) -> bool
    ensures { Gives K.written K.faults ok result sink.old sink.new (case_head file.now decl.now) }
{
    let ok = put(sink, ok, b"case ");
    let ok = put(sink, ok, decl.name.bytes());
    let ok = put_type(sink, ok, b" ", file, decl.id.type_no);
    put(sink, ok, b"\n")
}

// The totals.
fn put_summary<K: Sink>(sink: &mut K, ok: bool, _file: &File, run: &Run) -> bool
    ensures { Gives K.written K.faults ok result sink.old sink.new (summary _file.now run.now) }
{
    let ok = put_case_totals(sink, ok, run.cases.as_slice());
    put_migration_totals(sink, ok, run.cases.as_slice())
}
