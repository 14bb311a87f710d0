// What is tried: the file and the run are as before.
ghost use Rattle.std.specs.Prelude.{◌≡◌, ◌≢◌, ◌+◌, length, true, IfOk, OnOk};
ghost use Rattle.adept_io.specs.Written.{Gives};
ghost use Rattle.file_units.specs.Units.{unit_read};
ghost use Rattle.line_calls.specs.Calls.{cells_of};
ghost use Rattle.talk_state.specs.{Answers.{answer_moved, answer_read, entries_of, entries_read}, Held.held_in, Trying.{CanInstall, CanMove, made_text, moved_said, refusal_text}, Working.{CanTry, CanWork, said_called, said_worked}};

use adept_io::{NoMemory, Sink, put};
use file_model::{File, Line};
use file_units::{HeldFile, Said, UnitRefusal};
use line_calls::{Cells, cells_of};
use std::alloc::{AllocError, Global};
use talk_answers::{put_defined, put_entries, put_no, put_ok, put_tried};
use unit_run::UnitRun;

// The entry of the last type, were it defined.
fn put_type_tried<K: Sink>(
    sink: &mut K,
    ok: bool,
    alloc: Global,
    file: &File,
    run: &UnitRun,
) -> Result<bool, NoMemory>
    requires { CanWork file.now Said.Type run.now }
    ensures { IfOk result (λ well. Gives K.written K.faults ok well sink.old sink.new (entries_of file.now (said_worked file.now Said.Type run.now) (said_called file.now Said.Type))) }
{
    let _ = run;
    match file.types.as_slice().last() {
        None => Ok(ok),
        Some(decl) => put_defined(sink, ok, alloc, file, decl, file.types.len() as u32 - 1),
    }
}

// The entries of what a unit says, were it worked.
fn put_said<K: Sink>(
    sink: &mut K,
    ok: bool,
    alloc: Global,
    file: &File,
    run: &mut UnitRun,
    said: &Said,
) -> Result<bool, NoMemory>
    requires { CanWork file.now said.now run.old }
    ensures run { OnOk result (run.new ≡ run.old) }
    ensures entries { IfOk result (λ well. Gives K.written K.faults ok well sink.old sink.new (entries_of file.now (said_worked file.now said.now run.old) (said_called file.now said.now))) }
{
    match said {
        Said::Type => put_type_tried(sink, ok, alloc, file, run),
        Said::Line(line) => put_tried(sink, ok, alloc, file, run, line),
        Said::Case | Said::Other => Ok(ok),
    }
}

// The entries that a unit would get, where it is read.
fn put_read<K: Sink>(
    sink: &mut K,
    ok: bool,
    alloc: Global,
    file: &mut HeldFile,
    run: &mut UnitRun,
    unit: &[u8],
) -> Result<bool, NoMemory>
    requires { CanTry (length unit.now) file.old run.old }
    ensures file { OnOk result (file.new ≡ file.old) }
    ensures run { OnOk result (run.new ≡ run.old) }
    ensures entries { IfOk result (λ well. Gives K.written K.faults ok well sink.old sink.new (entries_read (held_in file.old run.old.run) (unit_read file.old unit.now))) }
{
    let marks = file.marks();
    match file.take_unit(alloc, unit, true) {
        Ok(said) => {
            let ok = put_said(sink, ok, alloc, file.file(), run, &said)?;
            file.take_back(alloc, marks);
            Ok(ok)
        }
        Err(UnitRefusal::NoMemory) => Err(AllocError),
        Err(_) => Ok(ok),
    }
}

// Why a unit is not taken.
fn put_refusal<K: Sink>(sink: &mut K, refusal: &UnitRefusal) -> Result<bool, NoMemory>
    ensures refused { OnOk result (refusal.now ≢ UnitRefusal.NoMemory) }
    ensures text { IfOk result (λ well. Gives K.written K.faults true well sink.old sink.new (refusal_text refusal.now)) }
{
    match refusal {
        UnitRefusal::Refused(refused) => {
            let line = u64::from(refused.line);
            Ok(put_no(sink, true, line, refused.text.as_slice()))
        }
        UnitRefusal::Full => Ok(put(sink, true, b"no full\n")),
        UnitRefusal::NoMemory => Err(AllocError),
    }
}

// The answer that a unit would get, but for how many are held: so many as before.
pub(crate) fn put_unit<K: Sink>(
    sink: &mut K,
    alloc: Global,
    file: &mut HeldFile,
    run: &mut UnitRun,
    unit: &[u8],
    has_room: bool,
    count: u64,
) -> Result<bool, NoMemory>
    requires { CanTry (length unit.now) file.old run.old }
    ensures file { OnOk result (file.new ≡ file.old) }
    ensures run { OnOk result (run.new ≡ run.old) }
    ensures answer { IfOk result (λ well. Gives K.written K.faults true well sink.old sink.new (answer_read has_room count (held_in file.old run.old.run) (unit_read file.old unit.now))) }
{
    let marks = file.marks();
    match file.take_unit(alloc, unit, has_room) {
        Ok(said) => {
            let ok = put_said(sink, true, alloc, file.file(), run, &said)?;
            file.take_back(alloc, marks);
            Ok(put_ok(sink, ok, count))
        }
        Err(refusal) => put_refusal(sink, &refusal),
    }
}

// The entry of a call that was made of a type, and where it has made a version the entries that a migrate gets behind it.
fn put_made<K: Sink>(
    sink: &mut K,
    alloc: Global,
    file: &mut HeldFile,
    run: &mut UnitRun,
    type_no: u32,
    migrate: &[u8],
) -> Result<bool, NoMemory>
    requires { CanTry (length migrate.now) file.old run.old }
    ensures file { OnOk result (file.new ≡ file.old) }
    ensures run { OnOk result (run.new ≡ run.old) }
    ensures entries { IfOk result (λ well. Gives K.written K.faults true well sink.old sink.new (made_text file.old type_no migrate.now run.old)) }
{
    let ok = put_entries(sink, true, file.file(), run, Cells::Kind(type_no));
    if !run.was_installed(type_no) {
        return Ok(ok);
    }
    put_read(sink, ok, alloc, file, run, migrate)
}

// An install is made, told with what is behind it, and taken back.
fn put_install<K: Sink>(
    sink: &mut K,
    alloc: Global,
    file: &mut HeldFile,
    run: &mut UnitRun,
    line: &Line,
    type_no: u32,
    migrate: &[u8],
) -> Result<bool, NoMemory>
    requires call { cells_of line.now.act ≡ Cells.Kind type_no }
    requires can { CanInstall (length migrate.now) file.old line.now run.old }
    ensures file { OnOk result (file.new ≡ file.old) }
    ensures run { OnOk result (run.new ≡ run.old) }
    ensures entries { IfOk result (λ well. Gives K.written K.faults true well sink.old sink.new (moved_said file.old (Said.Line line.now) migrate.now run.old)) }
{
    let before = run.kind_before(alloc, type_no)?;
    run.work(alloc, file.file(), line)?;
    let ok = put_made(sink, alloc, file, run, type_no, migrate)?;
    run.put_back(alloc, type_no, before);
    Ok(ok)
}

// The same for what a unit says; where that is no install there is nothing behind it.
fn put_moved<K: Sink>(
    sink: &mut K,
    alloc: Global,
    file: &mut HeldFile,
    run: &mut UnitRun,
    said: &Said,
    migrate: &[u8],
) -> Result<bool, NoMemory>
    requires { CanMove (length migrate.now) file.old said.now run.old }
    ensures file { OnOk result (file.new ≡ file.old) }
    ensures run { OnOk result (run.new ≡ run.old) }
    ensures entries { IfOk result (λ well. Gives K.written K.faults true well sink.old sink.new (moved_said file.old said.now migrate.now run.old)) }
{
    if let Said::Line(line) = said {
        if let Cells::Kind(type_no) = cells_of(&line.act) {
            return put_install(sink, alloc, file, run, line, type_no, migrate);
        }
    }
    put_said(sink, true, alloc, file.file(), run, said)
}

// The answer that an install would get, with the entries of a migrate behind it.
pub(crate) fn put_move<K: Sink>(
    sink: &mut K,
    alloc: Global,
    file: &mut HeldFile,
    run: &mut UnitRun,
    install: &[u8],
    migrate: &[u8],
    count: u64,
) -> Result<bool, NoMemory>
    requires { CanTry (length install.now + length migrate.now) file.old run.old }
    ensures file { OnOk result (file.new ≡ file.old) }
    ensures run { OnOk result (run.new ≡ run.old) }
    ensures answer { IfOk result (λ well. Gives K.written K.faults true well sink.old sink.new (answer_moved count (held_in file.old run.old.run) migrate.now (unit_read file.old install.now))) }
{
    let marks = file.marks();
    match file.take_unit(alloc, install, true) {
        Ok(said) => {
            // (the file is only read for what its clause says of it)
            let _ = file.file();
            let ok = put_moved(sink, alloc, file, run, &said, migrate)?;
            file.take_back(alloc, marks);
            Ok(put_ok(sink, ok, count))
        }
        Err(refusal) => put_refusal(sink, &refusal),
    }
}
