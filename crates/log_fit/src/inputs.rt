// A fit from the bytes of an input to those of a table.
ghost use Rattle.std.specs.Prelude.{◌≡◌, ◌≤◌, length, map, string_bytes, Ok, Err, None, IfSome, option_map};
ghost use Rattle.file_model.specs.Sizes.{HasNumbers, IsBounded};
ghost use Rattle.log_fit.specs.{Answer.{answer, most_input, with_file}, Asked.{asked, shown_question}, Endings.{FitEnds, IsAnswered}, Outcomes.of_file};
ghost use Rattle.log_fit.specs.declared.unfit.Unfit.TheVariants as unfit;

use crate::asking::Asked;
use crate::fits::FitRefusal;
use crate::fitting::fit;
use crate::parts::parts_of;
use crate::unfit::Unfit;
use crate::versions::version_of;
use crate::writing::write_fits;
use adept_io::{ReadRefusal, Sink, Source, read_to_limit};
use file_limits::MAX_FILE_BYTES;
use file_model::{File, FileRefusal};
use process_text::read_file;
use std::alloc::Global;

/// The most bytes that an input may have.
const MOST_INPUT: usize = 33_554_432;

/// Reads an input, which is a process file, a line `log` and a log, and writes how far each case of the log goes on a version
/// of the file. The words are the name of a type and the number of the version; with other words nothing is read or written.
pub fn fit_input<S: Source, K: Sink>(
    alloc: Global,
    words: &[String],
    source: &mut S,
    sink: &mut K,
) -> Result<(), Unfit>
    ensures usage { asked (map string_bytes words.now) ≡ None → (result ≡ Err unfit.Words) × (source.new ≡ source.old) × (sink.new ≡ sink.old) }
    ensures ends { IfSome (asked (map string_bytes words.now)) (λ q. FitEnds S.left S.faults K.written K.faults q source.old source.new sink.old sink.new result) }
{
    match Asked::of(words) {
        None => Err(Unfit::Words),
        Some(asked) => fit_asked(alloc, asked, source, sink),
    }
}

fn fit_asked<S: Source, K: Sink>(
    alloc: Global,
    asked: Asked<'_>,
    source: &mut S,
    sink: &mut K,
) -> Result<(), Unfit>
    ensures { FitEnds S.left S.faults K.written K.faults (shown_question asked.entry) source.old source.new sink.old sink.new result }
{
    match read_to_limit(alloc, source, MOST_INPUT) {
        Ok(input) => fit_bytes(alloc, asked, input.as_slice(), sink),
        Err(ReadRefusal::Failed) => Err(Unfit::Unread),
        Err(ReadRefusal::NoMemory) => Err(Unfit::NoMemory),
        Err(ReadRefusal::TooLong) => Err(Unfit::TooLong),
    }
}

// Why there is no table of a process file that is refused.
fn of_file(refusal: &FileRefusal) -> Unfit
    ensures { result ≡ of_file refusal.now }
{
    match refusal {
        FileRefusal::Refused(_) => Unfit::Refused,
        FileRefusal::NoMemory => Unfit::NoMemory,
    }
}

// Writes what the bytes of an input come to.
fn fit_bytes<K: Sink>(
    alloc: Global,
    asked: Asked<'_>,
    input: &[u8],
    sink: &mut K,
) -> Result<(), Unfit>
    requires { length input.now ≤ most_input }
    ensures { IsAnswered K.written K.faults (answer (shown_question asked.entry) input.now) sink.old sink.new result }
{
    let parts = parts_of(input);
    if parts.file.len() > MAX_FILE_BYTES {
        return Err(Unfit::TooLong);
    }
    match read_file(alloc, parts.file) {
        Ok(file) => fit_file(alloc, asked, &file, parts.log, sink),
        Err(refusal) => Err(of_file(&refusal)),
    }
}

// Writes what a log comes to on the version of the file that is asked for.
fn fit_file<K: Sink>(
    alloc: Global,
    asked: Asked<'_>,
    file: &File,
    log: Option<&[u8]>,
    sink: &mut K,
) -> Result<(), Unfit>
    requires bounded { IsBounded file.now }
    requires numbers { HasNumbers file.now }
    requires log { IfSome log (λ l. length l.now ≤ most_input) }
    ensures { IsAnswered K.written K.faults (with_file (shown_question asked.entry) (option_map (λ l. l.now) log.entry) (Ok file.now)) sink.old sink.new result }
{
    let version = match version_of(alloc, file, asked.name, asked.number) {
        Ok(Some(version)) => version,
        Ok(None) => return Err(Unfit::NoVersion),
        Err(_) => return Err(Unfit::NoMemory),
    };
    let Some(log) = log else {
        return Err(Unfit::NoLog);
    };
    match fit(alloc, &version, file, log) {
        Ok(fits) => write_fits(file, &fits, sink),
        Err(FitRefusal::Wrong(record)) => Err(Unfit::Wrong(record)),
        Err(FitRefusal::NoMemory) => Err(Unfit::NoMemory),
    }
}
