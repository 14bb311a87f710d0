// What a unit says, worked.
ghost use Rattle.std.specs.Prelude.{◌≡◌, ◌<◌, ◌≤◌, ◌+◌, ◌-◌, ◌^◌, length, IfOk, OnOk, Some};
ghost use Rattle.file_units.specs.{Facts.IsSmall, Taking.said_effort};
ghost use Rattle.script_run.specs.Oldest.{oldest};
ghost use Rattle.talk_state.specs.Working.{CanWork, kind_placed, said_called, said_worked};

use adept_io::NoMemory;
use file_model::{File, TypeDecl};
use file_units::Said;
use line_calls::{Cells, cells_of};
use std::alloc::Global;
use unit_run::UnitRun;

// Defines a type, and answers whom that called: the type with this number.
fn define(
    run: &mut UnitRun,
    alloc: Global,
    decl: &TypeDecl,
    number: u32,
) -> Result<Option<Cells>, NoMemory>
    requires small { IsSmall decl.now }
    requires even { run.old.placed.kinds ≡ length run.old.run.kinds }
    requires room { length run.old.run.kinds + 1 < 2 ^ 32 }
    ensures called { IfOk result (λ called. called ≡ Some (Cells.Kind number)) }
    ensures run { OnOk result (run.new ≡ kind_placed decl.now run.old) }
{
    run.define(alloc, decl)?;
    Ok(Some(Cells::Kind(number)))
}

// Makes the calls of what was said last, and answers whom it has called.
pub(crate) fn work(
    run: &mut UnitRun,
    alloc: Global,
    file: &File,
    said: &Said,
) -> Result<Option<Cells>, NoMemory>
    requires { CanWork file.now said.now run.old }
    ensures called { IfOk result (λ called. called ≡ said_called file.now said.now) }
    ensures run { OnOk result (run.new ≡ said_worked file.now said.now run.old) }
    ensures age { OnOk result (oldest run.new.run.cases ≤ oldest run.old.run.cases + said_effort said.now) }
{
    match said {
        Said::Type => match file.types.as_slice().last() {
            None => Ok(None),
            Some(decl) => define(run, alloc, decl, file.types.len() as u32 - 1),
        },
        Said::Case => {
            if let Some(decl) = file.cases.as_slice().last() {
                run.declare(alloc, decl)?;
            }
            Ok(None)
        }
        Said::Line(line) => {
            run.work(alloc, file, line)?;
            Ok(Some(cells_of(&line.act)))
        }
        Said::Other => Ok(None),
    }
}
