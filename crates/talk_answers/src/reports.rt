// The report of what is held.
ghost use Rattle.adept_io.specs.Written.{Gives};
ghost use Rattle.report_text.specs.Report.{text};

use adept_io::Sink;
use file_model::File;
use report_text::{put_cases, put_first_line, put_kinds};
use report_words::{put_case_totals, put_migration_totals};
use unit_run::UnitRun;

/// The report of a run of the file.
pub fn put_report<K: Sink>(sink: &mut K, ok: bool, file: &File, run: &UnitRun) -> bool
    ensures { Gives K.written K.faults ok result sink.old sink.new (text file.now run.now.run) }
{
    let ok = put_first_line(sink, ok, file);
    let ok = put_kinds(sink, ok, file, file.types.as_slice(), run.kinds());
    let ok = put_cases(sink, ok, file, file.cases.as_slice(), run.cases());
    let ok = put_case_totals(sink, ok, run.cases());
    put_migration_totals(sink, ok, run.cases())
}
