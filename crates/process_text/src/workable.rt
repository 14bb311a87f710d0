// Reading a process file that can be worked.
ghost use Rattle.std.specs.Prelude.{◌≡◌, ◌≤◌, length, Ok, IfOk, IfErr};
ghost use Rattle.file_facts.specs.Facts.{IsWorkable, MigratesAll};
ghost use Rattle.file_model.specs.{Outcomes.Tells, Reading.{file, file_up_to}, Sizes.IsBounded};

use crate::reading::read_file_up_to;
use file_limits::{MAX_FILE_BYTES, NEWEST_FORMAT};
use file_model::{File, FileRefusal};
use std::alloc::Global;

/// Reads a process file of a format up to `newest` whose lines can be worked, or gives its first refusal.
pub fn read_workable_up_to(alloc: Global, newest: u32, bytes: &[u8]) -> Result<File, FileRefusal>
    requires { length bytes.now ≤ MAX_FILE_BYTES }
    ensures file { IfOk result (λ read. file_up_to newest bytes.now ≡ Ok read) }
    ensures bounded { IfOk result (λ read. IsBounded read) }
    ensures workable { IfOk result (λ read. IsWorkable read) }
    ensures all { IfOk result (λ read. MigratesAll read) }
    ensures refused { IfErr result (λ refusal. Tells (file_up_to newest bytes.now) refusal) }
{
    read_file_up_to(alloc, newest, bytes)
}

/// Reads a process file of any format whose lines can be worked, or gives its first refusal.
pub fn read_workable(alloc: Global, bytes: &[u8]) -> Result<File, FileRefusal>
    requires { length bytes.now ≤ MAX_FILE_BYTES }
    ensures file { IfOk result (λ read. file bytes.now ≡ Ok read) }
    ensures bounded { IfOk result (λ read. IsBounded read) }
    ensures workable { IfOk result (λ read. IsWorkable read) }
    ensures all { IfOk result (λ read. MigratesAll read) }
    ensures refused { IfErr result (λ refusal. Tells (file bytes.now) refusal) }
{
    read_workable_up_to(alloc, NEWEST_FORMAT, bytes)
}
