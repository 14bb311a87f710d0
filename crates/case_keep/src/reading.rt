// The process file that is worked.
ghost use Rattle.std.specs.{Prelude.{IfErr, IfOk, OnOk}, Io.KnownBytes.IsAtEnd};
ghost use Rattle.case_keep.specs.Input.{EndsUnread, StandFor};
ghost use Rattle.file_facts.specs.Facts.{IsWorkable};
ghost use Rattle.file_model.specs.Sizes.{IsBounded};

use crate::unkept::Unkept;
use adept_io::{Source, read_to_limit};
use file_limits::{MAX_FILE_BYTES, NEWEST_KEPT_FORMAT};
use process_text::{File, read_workable_up_to};
use std::alloc::Global;

/// Reads the source to its end: the process file that its bytes stand for, or why there is none.
pub fn read_process<S: Source>(alloc: Global, source: &mut S) -> Result<File, Unkept>
    ensures file { IfOk result (λ read. StandFor (S.left source.old) read) }
    ensures whole { OnOk result (IsAtEnd (S.left source.new)) }
    ensures bounded { IfOk result (λ read. IsBounded read) }
    ensures workable { IfOk result (λ read. IsWorkable read) }
    ensures err { IfErr result (λ why. EndsUnread S.left S.faults source.old source.new why) }
{
    let bytes = read_to_limit(alloc, source, MAX_FILE_BYTES)?;
    let file = read_workable_up_to(alloc, NEWEST_KEPT_FORMAT, bytes.as_slice())?;
    Ok(file)
}
