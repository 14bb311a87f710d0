// Reading a process file.
ghost use Rattle.std.specs.Prelude.{◌≡◌, ◌≤◌, length, Ok, Err, IfOk, IfErr, OnOk};
ghost use Rattle.file_model.specs.{Outcomes.Tells, Steps.{at_place, no_contents}, Reading.{at_line, file_of, finished, file, file_up_to}, Sizes.{HasNumbers, IsBounded}};
ghost use Rattle.process_text.specs.Ends.{MayEnd, MayNotEnd};

use crate::files::file_of;
use crate::stepping::step_in;
use file_limits::{MAX_FILE_BYTES, NEWEST_FORMAT};
use file_model::{Contents, File, FileRefusal, Section, Stop, Why};
use file_state::{no_contents, refusal};
use file_words::{first_line, is_skipped, read_words, without_return};
use std::alloc::Global;

// Whether a file may end there, or why not.
fn may_end(place: Section, left: &[u8]) -> Result<(), Why>
    ensures ok { OnOk result (MayEnd place left.now) }
    ensures refused { IfErr result (λ why. MayNotEnd place left.now why) }
{
    if !left.is_empty() {
        return Err(Why::Unended);
    }
    match place {
        Section::Head(_) => Err(Why::Header),
        Section::Outside => Ok(()),
        Section::InType(_) | Section::InGroup(_) => Err(Why::Unended),
    }
}

// The end of a file.
fn end_lines(
    contents: &Contents,
    alloc: Global,
    at: u32,
    place: Section,
    left: &[u8],
) -> Result<(), FileRefusal>
    ensures ok { OnOk result (at_line at (finished (at_place place contents.now) left.now) ≡ Ok (file_of contents.now)) }
    ensures refused { IfErr result (λ refusal. Tells (at_line at (finished (at_place place contents.now) left.now)) refusal) }
{
    match may_end(place, left) {
        Ok(()) => Ok(()),
        Err(why) => Err(refusal(contents, alloc, at, why)),
    }
}

// What the lines of a file make of the contents, or the first refusal. Here the contents are only borrowed: to let them go
// where a line is refused would make the proof dear.
#[tactic(auto, using(crate::proofs::LineRoom::words_take, crate::proofs::LineRoom::step_adds))]
fn read_lines(
    contents: &mut Contents,
    alloc: Global,
    newest: u32,
    bytes: &[u8],
) -> Result<(), FileRefusal>
    requires begun { contents.old ≡ no_contents }
    requires size { length bytes.now ≤ MAX_FILE_BYTES }
    ensures ok { OnOk result (file_up_to newest bytes.now ≡ Ok (file_of contents.new)) }
    ensures refused { IfErr result (λ refusal. Tells (file_up_to newest bytes.now) refusal) }
{
    let mut place = Section::Head(newest);
    let mut at = 1;
    let mut rest = bytes;
    let mut words = Vec::new(alloc);
    while let Some((line, more)) = first_line(rest) {
        let line = without_return(line);
        if read_words(&mut words, line).is_err() {
            return Err(FileRefusal::NoMemory);
        }
        // (what was read so far is only moved where the line says something)
        if !is_skipped(&words) {
            match step_in(contents, alloc, at, line, &words, place) {
                Ok(next) => place = next,
                Err(Stop::Refused(why)) => return Err(refusal(contents, alloc, at, why)),
                Err(Stop::NoMemory) => return Err(FileRefusal::NoMemory),
            }
        }
        at += 1;
        rest = more;
    }
    end_lines(contents, alloc, at, place, rest)
}

// What was read is let go here alone: to follow how a value is let go where it was changed is dear.
fn given_up(_contents: Contents, refusal: FileRefusal) -> Result<File, FileRefusal>
    ensures { result ≡ Err refusal }
{
    Err(refusal)
}

/// Reads a process file of a format up to `newest`, or gives its first refusal.
pub fn read_file_up_to(alloc: Global, newest: u32, bytes: &[u8]) -> Result<File, FileRefusal>
    requires { length bytes.now ≤ MAX_FILE_BYTES }
    ensures file { IfOk result (λ read. file_up_to newest bytes.now ≡ Ok read) }
    ensures bounded { IfOk result (λ read. IsBounded read) }
    ensures numbers { IfOk result (λ read. HasNumbers read) }
    ensures refused { IfErr result (λ refusal. Tells (file_up_to newest bytes.now) refusal) }
{
    let mut contents = no_contents(alloc)?;
    match read_lines(&mut contents, alloc, newest, bytes) {
        Ok(()) => {
            let file = file_of(contents, alloc)?;
            Ok(file)
        }
        Err(refusal) => given_up(contents, refusal),
    }
}

/// Reads a process file of any format, or gives its first refusal.
pub fn read_file(alloc: Global, bytes: &[u8]) -> Result<File, FileRefusal>
    requires { length bytes.now ≤ MAX_FILE_BYTES }
    ensures file { IfOk result (λ read. file bytes.now ≡ Ok read) }
    ensures bounded { IfOk result (λ read. IsBounded read) }
    ensures numbers { IfOk result (λ read. HasNumbers read) }
    ensures refused { IfErr result (λ refusal. Tells (file bytes.now) refusal) }
{
    read_file_up_to(alloc, NEWEST_FORMAT, bytes)
}
