// The process file that a command works: it is read from a source, or made.
ghost use Rattle.std.specs.Prelude.{◌≡◌, ◌≢◌, ◌⊎◌, ◌≤◌, length, IfOk, IfErr, Ok, Some, None};
ghost use Rattle.adept_load.specs.Load.{load_text};
ghost use Rattle.adept_top.specs.{Endings.{EndsUnworked, IsInputOf, IsRefused}, Statuses.status_of};
ghost use Rattle.file_facts.specs.Facts.{IsWorkable};
ghost use Rattle.file_model.specs.{Reading.file, Sizes.IsBounded};

use crate::outcomes::Outcome;
use adept_io::{Source, read_to_limit};
use adept_load::load_file;
use file_limits::{MAX_CASES, MAX_FILE_BYTES};
use process_text::{File, read_workable};
use std::alloc::Global;

/// Reads the source to its end: the process file that its bytes stand for, or how the program ends without one.
pub fn read_process<S: Source>(alloc: Global, source: &mut S) -> Result<File, Outcome>
    ensures input { IfOk result (λ read. IsInputOf S.left S.faults None source.old source.new read) }
    ensures bounded { IfOk result (λ read. IsBounded read) }
    ensures workable { IfOk result (λ read. IsWorkable read) }
    ensures err { IfErr result (λ end. EndsUnworked S.left S.faults None source.old source.new end) }
{
    let bytes = read_to_limit(alloc, source, MAX_FILE_BYTES)?;
    file_of(alloc, bytes.as_slice())
}

/// The process file that is made for so many cases, or how the program ends without one. The source is left as it is.
pub fn made_process<S: Source>(alloc: Global, cases: u32, source: &mut S) -> Result<File, Outcome>
    requires { (1 ≤ cases) × (cases ≤ MAX_CASES) }
    ensures input { IfOk result (λ made. IsInputOf S.left S.faults (Some cases) source.old source.new made) }
    ensures workable { IfOk result (λ made. IsWorkable made) }
    ensures err { IfErr result (λ end. EndsUnworked S.left S.faults (Some cases) source.old source.new end) }
{
    let _ = source;
    match load_file(alloc, cases) {
        Ok(bytes) => file_of(alloc, bytes.as_slice()),
        Err(_) => Err(Outcome::of_status(5)),
    }
}

// The file of these bytes.
fn file_of(alloc: Global, bytes: &[u8]) -> Result<File, Outcome>
    requires { length bytes.now ≤ MAX_FILE_BYTES }
    ensures file { IfOk result (λ read. file bytes.now ≡ Ok read) }
    ensures bounded { IfOk result (λ read. IsBounded read) }
    ensures workable { IfOk result (λ read. IsWorkable read) }
    ensures statuses { IfErr result (λ end. (end.status ≡ 1) ⊎ (end.status ≡ 5)) }
    ensures refused { IfErr result (λ end. end.status ≡ 1 → IsRefused (Some bytes.now) end.place) }
    ensures no_run { IfErr result (λ end. end.run ≡ None) }
    ensures no_place { IfErr result (λ end. end.status ≢ 1 → end.place ≡ None) }
    ensures exact { IfErr result (λ end. (end.status ≡ status_of bytes.now) ⊎ (end.status ≡ 5)) }
{
    let file = read_workable(alloc, bytes)?;
    Ok(file)
}
