// The cases of a report, judged in threads.
ghost use Rattle.std.specs.{Prelude.{ℕ, ◌≡◌, ◌≤◌, ◌<◌, List, length, option_map, IfOk, OnOk}, List.{AllZip, range_with_len}};
ghost use Rattle.case_audit.specs.Common.{AreOwed, AreSections, Asked, calls_decl, CanAudit, CanJudge, cases_reader, Follows, given, IsCaseAt, IsModestScript, IsSection, numbers, script_of};

use crate::asked::AskedLine;
use crate::cases::judge_case;
use crate::owed::{Owed, owed_cases};
use file_model::File;
use line_calls::{Cells, cells_of};
use rayon::prelude::*;
use script_run::ClosedCase;
use std::alloc::Global;
use std::thread::Threads;
use text_follower::{Follower, behind_lines};
use wsm_lists::NoMemory;

/// What was found from a place on: the case, where no line is wrong, and how far the report was gone along.
#[derive(Drop)]
pub struct Section {
    pub start: usize,
    pub end: usize,
    pub case: Option<ClosedCase>,
}

/// The cases as their journals and their ends tell them, by the script's lines. None where a line is wrong.
///
/// The place where each case begins is guessed from how many lines are owed to those before it, and each is judged from
/// there, in threads. Then the cases are gone along in order. Where one does not begin as guessed it is judged again.
pub fn judge_cases<R: Threads + Sync>(
    rt: &R,
    alloc: Global,
    file: &File,
    phases: &[Vec<AskedLine<'_>>],
    report: &mut Follower<'_>,
) -> Result<Option<Vec<ClosedCase>>, NoMemory>
    requires file { CanAudit file.now }
    requires modest { IsModestScript (script_of phases.now) }
    ensures { IfOk result (λ cases. Follows (cases_reader file.now (script_of phases.now) file.now.cases) report.old report.new (option_map (λ all. all.items) cases)) }
{
    let owed = owed_cases(alloc, file, phases)?;
    let starts = guessed_starts(alloc, owed.as_slice(), report.text(), report.place())?;
    let sections = judge_sections(
        rt,
        alloc,
        file,
        owed.as_slice(),
        report.text(),
        starts.as_slice(),
    )?;
    join_sections(alloc, file, owed.as_slice(), sections, report)
}

// Where the cases begin where all lines are as they should be: one place for each. Nothing is asked of a guess.
fn guessed_starts(
    alloc: Global,
    owed: &[Owed<'_>],
    text: &[u8],
    place: usize,
) -> Result<Vec<usize>, NoMemory>
    requires { place ≤ length text.now }
    ensures { IfOk result (λ starts. length starts.items ≡ length owed.now) }
{
    let mut starts = Vec::new(alloc);
    let mut start = place;
    for case in owed {
        starts.push(start)?;
        let (_, rest) = text.split_at(start);
        start += behind_lines(rest, lines_of(case));
    }
    Ok(starts)
}

// How many lines a case has where all are as they should be: its own, its journal, and its end. It is a guess alone.
fn lines_of(owed: &Owed<'_>) -> usize {
    let mut lines: usize = 2;
    for phase in owed.phases.as_slice() {
        lines = lines.saturating_add(phase.calls.len());
    }
    if is_created(owed) {
        lines.saturating_add(3)
    } else {
        lines
    }
}

fn is_created(owed: &Owed<'_>) -> bool {
    for phase in owed.phases.as_slice() {
        for call in phase.calls.as_slice() {
            if matches!(cells_of(&call.line.act), Cells::KindAndCase(_, _)) {
                return true;
            }
        }
    }
    false
}

fn judge_sections<R: Threads + Sync>(
    rt: &R,
    alloc: Global,
    file: &File,
    owed: &[Owed<'_>],
    text: &[u8],
    starts: &[usize],
) -> Result<Vec<Result<Section, NoMemory>>, NoMemory>
    requires owed { AreOwed file.now owed.now }
    requires starts { length starts.now ≡ length file.now.cases }
    ensures { IfOk result (λ sections. AreSections file.now owed.now text.now sections.items) }
{
    each_below(
        rt,
        alloc,
        starts.len(),
        |index: usize| -> Result<Section, NoMemory>
            requires { CanJudge file.now owed.now starts.now index }
            ensures { IfOk result (IsSection file.entry.now owed.entry.now text.entry.now index) }
        { judge_section(alloc, file, owed, text, index, starts[index]) },
    )
}

fn judge_section(
    alloc: Global,
    file: &File,
    owed: &[Owed<'_>],
    text: &[u8],
    index: usize,
    guess: usize,
) -> Result<Section, NoMemory>
    requires owed { AreOwed file.now owed.now }
    requires within { index < length file.now.cases }
    ensures start { IfOk result (λ section. guess ≤ length text.now → section.start ≡ guess) }
    ensures section { IfOk result (IsSection file.now owed.now text.now index) }
{
    let start = guess.min(text.len());
    let mut report = Follower::of(text, start);
    let decl = &file.cases.as_slice()[index];
    let case = judge_case(alloc, file, decl, &owed[index], &mut report)?;
    Ok(Section {
        start,
        end: report.place(),
        case,
    })
}

// The cases in order, each from where the one before it ends.
fn join_sections(
    alloc: Global,
    file: &File,
    owed: &[Owed<'_>],
    sections: Vec<Result<Section, NoMemory>>,
    report: &mut Follower<'_>,
) -> Result<Option<Vec<ClosedCase>>, NoMemory>
    requires owed { AreOwed file.now owed.now }
    requires sections { AreSections file.now owed.now report.old.text sections.items }
    ensures { (phases : List (List Asked)) → numbers owed.now ≡ given calls_decl file.now.cases phases
        → IfOk result (λ cases. Follows (cases_reader file.now phases file.now.cases) report.old report.new (option_map (λ all. all.items) cases)) }
{
    let mut cases = Vec::new(alloc);
    for section in sections {
        match next_case(alloc, file, owed, cases.len(), section?, report)? {
            None => return Ok(None),
            Some(case) => cases.push(case)?,
        }
    }
    Ok(Some(cases))
}

// The case at an index: as it was judged where it was judged from here.
fn next_case(
    alloc: Global,
    file: &File,
    owed: &[Owed<'_>],
    index: usize,
    section: Section,
    report: &mut Follower<'_>,
) -> Result<Option<ClosedCase>, NoMemory>
    requires owed { AreOwed file.now owed.now }
    requires within { index < length file.now.cases }
    requires section { IsSection file.now owed.now report.old.text index section }
    ensures case { IfOk result (IsCaseAt file.now owed.now index report.old report.new) }
    ensures text { OnOk result (report.new.text ≡ report.old.text) }
{
    if section.start == report.place() {
        *report = Follower::of(report.text(), section.end);
        return Ok(section.case);
    }
    let again = judge_section(alloc, file, owed, report.text(), index, report.place())?;
    *report = Follower::of(report.text(), again.end);
    Ok(again.case)
}

// What the work gives for each number below a count, in order, from as many threads as serve.
fn each_below<R: Threads + Sync, T: Send + Drop, F: Fn(usize) -> T + Copy + Send + Sync>(
    rt: &R,
    alloc: Global,
    count: usize,
    work: F,
) -> Result<Vec<T>, NoMemory>
    requires { (index : ℕ) → index < count → F.pre work index }
    ensures { IfOk result (λ given. AllZip (F.post work) (range_with_len 0 count) given.items) }
{
    (0..count).into_par_iter().map(work).collect(rt, alloc)
}
