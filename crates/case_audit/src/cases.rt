// A case of a report.
ghost use Rattle.std.specs.Prelude.{◌≡◌, ◌≤◌, ◌<◌, ◌+◌, ◌++◌, ◌∷◌, [], List, length, IfOk, OnOk};
ghost use Rattle.case_audit.specs.Common.{actor_of, age, AllRows, AreTurns, Asked, asked_in, asked_of, CanAudit, case_after, case_event_of, case_journal, case_line, case_reader, case_reply, cases, entry, filled, FollowedBy, Follows, IsModest, IsModestOwed, IsSteady, LineJudged, owed_case, owed_of, PhaseJudged, queues_of};
ghost use Rattle.case_core.specs.Ages.{weight};

use crate::asked::AskedLine;
use crate::owed::Owed;
use crate::pieces::{Piece, follow};
use crate::turns::Turns;
use case_core::{Case, Event};
use file_model::{CaseDecl, File};
use line_calls::{Call, call_of, roles_of};
use script_run::{CaseEntry, CaseJournal, ClosedCase};
use std::alloc::Global;
use text_follower::Follower;
use turn_cell::Machine;
use wsm_lists::NoMemory;

/// A case as its journal and its end tell it, from its line on. None where a line is wrong.
pub fn judge_case(
    alloc: Global,
    file: &File,
    decl: &CaseDecl,
    owed: &Owed<'_>,
    report: &mut Follower<'_>,
) -> Result<Option<ClosedCase>, NoMemory>
    requires file { CanAudit file.now }
    requires modest { IsModestOwed owed.now }
    ensures { (phases : List (List Asked)) → owed_of owed.now ≡ filled (owed_case decl.now.id phases)
        → IfOk result (Follows (case_reader file.now phases decl.now) report.old report.new) }
{
    if !follow(alloc, file, Piece::CaseHead(decl), report)? {
        return Ok(None);
    }
    let Some(case) = judge_journal(alloc, file, decl, owed, report)? else {
        return Ok(None);
    };
    let stands = follow(alloc, file, Piece::CaseEnd(&case), report)?;
    Ok(stands.then_some(case))
}

fn judge_journal(
    alloc: Global,
    file: &File,
    decl: &CaseDecl,
    owed: &Owed<'_>,
    report: &mut Follower<'_>,
) -> Result<Option<ClosedCase>, NoMemory>
    requires file { CanAudit file.now }
    requires modest { IsModestOwed owed.now }
    ensures { (phases : List (List Asked)) → owed_of owed.now ≡ filled (owed_case decl.now.id phases)
        → IfOk result (Follows (case_journal file.now phases decl.now) report.old report.new) }
{
    let mut case = ClosedCase {
        machine: Case::new(alloc, decl.id.type_no),
        journal: CaseJournal::new(alloc),
    };
    for phase in owed.phases.as_slice() {
        if !judge_phase(alloc, file, &mut case, phase.calls.as_slice(), report)? {
            return Ok(None);
        }
    }
    Ok(Some(case))
}

// As many lines of the journal as calls are owed in a phase.
fn judge_phase(
    alloc: Global,
    file: &File,
    case: &mut ClosedCase,
    calls: &[AskedLine<'_>],
    report: &mut Follower<'_>,
) -> Result<bool, NoMemory>
    requires file { CanAudit file.now }
    requires modest { AllRows IsModest (asked_in calls.now) }
    requires steady { IsSteady case.old }
    requires few { length case.old.journal + length calls.now ≤ 60000 }
    ensures judged { IfOk result (PhaseJudged (cases file.now) case.old report.old case.new report.new (asked_in calls.now)) }
    ensures steady { OnOk result (IsSteady case.new) }
    ensures longer { OnOk result (length case.new.journal ≤ length case.old.journal + length calls.now) }
{
    let mut turns = Turns::of(alloc, file.actors.len(), calls)?;
    for _judged in 0..calls.len() {
        if !judge_line(alloc, file, case, &mut turns, report)? {
            return Ok(false);
        }
    }
    Ok(true)
}

// A line of the journal: it shows whose turn it is.
fn judge_line(
    alloc: Global,
    file: &File,
    case: &mut ClosedCase,
    turns: &mut Turns<'_>,
    report: &mut Follower<'_>,
) -> Result<bool, NoMemory>
    requires file { CanAudit file.now }
    requires modest { AllRows (AllRows IsModest) (queues_of turns.old) }
    requires steady { IsSteady case.old }
    requires few { length case.old.journal < 60000 }
    ensures judged { (phase : List Asked) → 0 < length phase → AreTurns actor_of (length file.now.actors) (queues_of turns.old) phase
        → IfOk result (LineJudged (cases file.now) case.old report.old case.new report.new (queues_of turns.new) phase) }
    ensures modest { AllRows (AllRows IsModest) (queues_of turns.new) }
    ensures steady { OnOk result (IsSteady case.new) }
    ensures longer { OnOk result (length case.new.journal ≤ length case.old.journal + 1) }
{
    let place = next_place(case.journal.as_slice());
    let Some((caller, call)) = turns.shown(file, place, report.rest()) else {
        return Ok(false);
    };
    match event_of(alloc, file, &call)? {
        None => Ok(false),
        Some(event) => judge_call(alloc, file, case, caller, event, report),
    }
}

// Makes a call, and follows the line that is printed of it.
fn judge_call(
    alloc: Global,
    file: &File,
    case: &mut ClosedCase,
    caller: u32,
    event: Event,
    report: &mut Follower<'_>,
) -> Result<bool, NoMemory>
    requires { age case.old.machine + weight event ≤ 4000000000 }
    ensures machine { OnOk result (case.new.machine ≡ case_after case.old.machine event) }
    ensures journal { OnOk result (case.new.journal ≡ case.old.journal ++ entry caller event (case_reply case.old.machine event) ∷ []) }
    ensures line { IfOk result (FollowedBy (case_line file.now (length case.old.journal + 1) (entry caller event (case_reply case.old.machine event))) report.old report.new) }
{
    let place = next_place(case.journal.as_slice());
    let (reply, _) = case.machine.step(alloc, &event)?;
    let entry = CaseEntry {
        caller,
        event,
        reply,
    };
    let stands = follow(alloc, file, Piece::CaseLine(place, &entry), report)?;
    case.journal.push(entry)?;
    Ok(stands)
}

// The number of the next entry.
fn next_place(journal: &[CaseEntry]) -> u64
    ensures { result ≡ length journal.now + 1 }
{
    journal.len() as u64 + 1
}

// The event of a case that a line is, with the version that its actor was told.
fn event_of(alloc: Global, file: &File, call: &AskedLine<'_>) -> Result<Option<Event>, NoMemory>
    ensures { IfOk result (λ event. event ≡ case_event_of file.now (asked_of call.now)) }
{
    let user = call.line.actor;
    match call_of(alloc, user, roles_of(file, user), &call.line.act)? {
        Call::Kind { .. } => Ok(None),
        Call::Case { event, .. } => Ok(Some(event)),
        Call::Newest { then, .. } => match call.version {
            None => Ok(None),
            Some(version) => Ok(Some(then.event(version.share()?))),
        },
    }
}
