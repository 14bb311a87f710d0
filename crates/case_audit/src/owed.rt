// What is owed to types and to cases: the lines that call them.
ghost use Rattle.std.specs.{Prelude.{◌≡◌, ◌++◌, ◌∷◌, [], fold, replicate, IfOk, OnOk}, List.range_with_len};
ghost use Rattle.case_audit.specs.Common.{ArePlaced, asked_in, asked_of, calls_decl, calls_number, case_put, changed_at, given, is_among, kind_put, numbered_of, numbers, put_where, script_of, with_line};

use crate::asked::AskedLine;
use file_model::{CaseDecl, File};
use line_calls::{Script, cells_of};
use std::alloc::Global;
use wsm_lists::NoMemory;

/// The lines of one phase that call one type or one case, in file order.
#[derive(Drop)]
pub struct PhaseCalls<'a> {
    pub phase: usize,
    pub calls: Vec<AskedLine<'a>>,
}

/// What is owed to one type or to one case, phase by phase. A phase in which nothing is owed to it is left out.
#[derive(Drop)]
pub struct Owed<'a> {
    pub phases: Vec<PhaseCalls<'a>>,
}

impl<'a> Owed<'a> {
    fn new(alloc: Global) -> Owed<'a>
        ensures { numbered_of result ≡ [] }
    {
        Owed {
            phases: Vec::new(alloc),
        }
    }

    // A line more, of the last phase or of a later one.
    fn add(&mut self, alloc: Global, phase: usize, call: AskedLine<'a>) -> Result<(), NoMemory>
        ensures { OnOk result (numbered_of self.new ≡ with_line phase (asked_of call.entry) (numbered_of self.old)) }
    {
        if let Some(last) = self.phases.last_mut() {
            if last.phase == phase {
                last.calls.push(call)?;
                return Ok(());
            }
        }
        self.begin(alloc, phase, call)
    }

    // A phase more, with its first line.
    fn begin(&mut self, alloc: Global, phase: usize, call: AskedLine<'a>) -> Result<(), NoMemory>
        ensures { OnOk result (numbered_of self.new ≡ numbered_of self.old ++ (phase, asked_of call.entry ∷ []) ∷ []) }
    {
        let mut calls = Vec::new(alloc);
        calls.push(call)?;
        self.phases.push(PhaseCalls { phase, calls })?;
        Ok(())
    }
}

fn nothing_owed<'a>(alloc: Global, cells: usize) -> Result<Vec<Owed<'a>>, NoMemory>
    ensures { IfOk result (λ owed. numbers owed.items ≡ replicate cells []) }
{
    let mut owed = Vec::new(alloc);
    for _made in 0..cells {
        owed.push(Owed::new(alloc))?;
    }
    Ok(owed)
}

// A line more for the cell at a place, where there is one.
fn add_at<'a>(
    alloc: Global,
    owed: &mut Vec<Owed<'a>>,
    place: usize,
    phase: usize,
    call: AskedLine<'a>,
) -> Result<(), NoMemory>
    ensures { OnOk result (numbers owed.new.items ≡ changed_at (with_line phase (asked_of call.entry)) place (numbers owed.old.items)) }
{
    match owed.get_mut(place) {
        None => Ok(()),
        Some(cell) => cell.add(alloc, phase, call),
    }
}

/// What is owed to each of so many types by the script's lines.
pub fn owed_kinds<'a>(
    alloc: Global,
    types: usize,
    phases: &[Vec<AskedLine<'a>>],
) -> Result<Vec<Owed<'a>>, NoMemory>
    ensures { IfOk result (λ owed. numbers owed.items ≡ given calls_number (range_with_len 0 types) (script_of phases.now)) }
{
    let mut owed = nothing_owed(alloc, types)?;
    for (phase, lines) in phases.iter().enumerate() {
        add_kind_lines(alloc, &mut owed, phase, lines.as_slice())?;
    }
    Ok(owed)
}

fn add_kind_lines<'a>(
    alloc: Global,
    owed: &mut Vec<Owed<'a>>,
    phase: usize,
    lines: &[AskedLine<'a>],
) -> Result<(), NoMemory>
    ensures { OnOk result (numbers owed.new.items ≡ fold (kind_put phase) (numbers owed.old.items) (asked_in lines.now)) }
{
    for call in lines {
        if let Some(type_no) = cells_of(&call.line.act).kind() {
            add_at(alloc, owed, type_no as usize, phase, *call)?;
        }
    }
    Ok(())
}

/// What is owed to each of the file's cases by the script's lines.
pub fn owed_cases<'a>(
    alloc: Global,
    file: &File,
    phases: &[Vec<AskedLine<'a>>],
) -> Result<Vec<Owed<'a>>, NoMemory>
    requires { ArePlaced file.now.cases }
    ensures { IfOk result (λ owed. numbers owed.items ≡ given calls_decl file.now.cases (script_of phases.now)) }
{
    let script = Script::of(alloc, file)?;
    let mut owed = nothing_owed(alloc, file.cases.len())?;
    for (phase, lines) in phases.iter().enumerate() {
        add_case_lines(alloc, &script, &mut owed, phase, lines.as_slice())?;
    }
    Ok(owed)
}

fn add_case_lines<'a>(
    alloc: Global,
    script: &Script<'_>,
    owed: &mut Vec<Owed<'a>>,
    phase: usize,
    lines: &[AskedLine<'a>],
) -> Result<(), NoMemory>
    requires { ArePlaced script.now.file.now.cases }
    ensures { OnOk result (numbers owed.new.items ≡ fold (case_put script.now.file.now.cases phase) (numbers owed.old.items) (asked_in lines.now)) }
{
    for call in lines {
        add_case_line(alloc, script, owed, phase, *call)?;
    }
    Ok(())
}

// A line, for the case or for each of the cases that it calls.
fn add_case_line<'a>(
    alloc: Global,
    script: &Script<'_>,
    owed: &mut Vec<Owed<'a>>,
    phase: usize,
    call: AskedLine<'a>,
) -> Result<(), NoMemory>
    requires { ArePlaced script.now.file.now.cases }
    ensures { OnOk result (numbers owed.new.items ≡ case_put script.now.file.now.cases phase (numbers owed.old.items) (asked_of call.entry)) }
{
    let cells = cells_of(&call.line.act);
    if let Some((type_no, many)) = cells.each() {
        let cases = script.file.cases.as_slice();
        return add_to_each(alloc, cases, owed, type_no, many, phase, call);
    }
    let Some(id) = cells.case() else {
        return Ok(());
    };
    match script.place_of(id) {
        None => Ok(()),
        Some(place) => add_at(alloc, owed, place, phase, call),
    }
}

// A line, for each of the first so many cases of a type.
fn add_to_each<'a>(
    alloc: Global,
    cases: &[CaseDecl],
    owed: &mut Vec<Owed<'a>>,
    type_no: u32,
    many: u32,
    phase: usize,
    call: AskedLine<'a>,
) -> Result<(), NoMemory>
    ensures { OnOk result (numbers owed.new.items ≡ put_where (is_among type_no many) (with_line phase (asked_of call.entry)) cases.now (numbers owed.old.items)) }
{
    for (place, decl) in cases.iter().enumerate() {
        if decl.is_among(type_no, many) {
            add_at(alloc, owed, place, phase, call)?;
        }
    }
    Ok(())
}
