// The types of a report.
ghost use Rattle.std.specs.Prelude.{◌≡◌, ◌≤◌, ◌<◌, ◌+◌, ◌++◌, ◌∷◌, [], List, length, option_map, IfOk, OnOk};
ghost use Rattle.std.specs.List.{range_with_len};
ghost use Rattle.case_audit.specs.Common.{actor_of, AllRows, AreTurns, Asked, asked_in, asked_phases, calls_number, CanAudit, cards_of, defined, entry, filled, FollowedBy, Follows, given, IsModest, kind_after, kind_event_in, kind_line, kind_reader, kind_reply, kinds, kinds_reader, LineJudged, numbers, owed_kind, owed_lines, owed_of, PhaseJudged, queues_of, telling, weight};

use crate::asked::{AskedLine, asked_phases};
use crate::owed::{Owed, owed_kinds};
use crate::pieces::{Piece, follow};
use crate::turns::Turns;
use file_model::{Act, File, TypeDecl};
use line_calls::{Call, call_of};
use script_run::{ClosedKind, KindEntry, KindJournal};
use std::alloc::Global;
use text_follower::Follower;
use turn_cell::Machine;
use type_core::{Kind, KindEvent};
use wsm_lists::NoMemory;

/// The number of the program itself.
const PROGRAM: u32 = 0;

/// The types as their journals tell them. None where a line is wrong.
pub fn judge_kinds(
    alloc: Global,
    file: &File,
    report: &mut Follower<'_>,
) -> Result<Option<Vec<ClosedKind>>, NoMemory>
    requires file { CanAudit file.now }
    ensures { IfOk result (λ kinds. Follows (kinds_reader file.now 0 file.now.types) report.old report.new (option_map (λ all. all.items) kinds)) }
{
    let phases = asked_phases(alloc, file, &[])?;
    let owed = owed_kinds(alloc, file.types.len(), phases.as_slice())?;
    judge_each(alloc, file, owed.as_slice(), report)
}

fn judge_each(
    alloc: Global,
    file: &File,
    owed: &[Owed<'_>],
    report: &mut Follower<'_>,
) -> Result<Option<Vec<ClosedKind>>, NoMemory>
    requires file { CanAudit file.now }
    requires owed { numbers owed.now ≡ given calls_number (range_with_len 0 (length file.now.types)) (asked_phases (telling []) file.now.phases) }
    ensures { IfOk result (λ kinds. Follows (kinds_reader file.now 0 file.now.types) report.old report.new (option_map (λ all. all.items) kinds)) }
{
    let mut kinds = Vec::new(alloc);
    for (index, decl) in file.types.as_slice().iter().enumerate() {
        match judge_kind(alloc, file, index as u32, decl, &owed[index], report)? {
            None => return Ok(None),
            Some(kind) => kinds.push(kind)?,
        }
    }
    Ok(Some(kinds))
}

// A type as its journal tells it, from its line on. None where a line is wrong.
fn judge_kind(
    alloc: Global,
    file: &File,
    number: u32,
    decl: &TypeDecl,
    owed: &Owed<'_>,
    report: &mut Follower<'_>,
) -> Result<Option<ClosedKind>, NoMemory>
    requires file { CanAudit file.now }
    requires small { length (cards_of decl.now.schema) ≤ 1024 }
    requires modest { AllRows (AllRows IsModest) (owed_of owed.now) }
    requires owed { owed_lines (owed_of owed.now) ≡ filled (owed_kind file.now number) }
    ensures { IfOk result (Follows (kind_reader file.now number decl.now) report.old report.new) }
{
    let mut kind = defined(alloc, number, decl)?;
    if !follow(alloc, file, Piece::TypeFront(decl, &kind), report)? {
        return Ok(None);
    }
    for phase in owed.phases.as_slice() {
        if !judge_phase(alloc, file, &mut kind, phase.calls.as_slice(), report)? {
            return Ok(None);
        }
    }
    Ok(Some(kind))
}

// A type behind its definition.
fn defined(alloc: Global, number: u32, decl: &TypeDecl) -> Result<ClosedKind, NoMemory>
    requires { length (cards_of decl.now.schema) ≤ 1024 }
    ensures { IfOk result (λ kind. kind ≡ defined number decl.now) }
{
    let mut kind = ClosedKind {
        machine: Kind::new(alloc, number),
        journal: KindJournal::new(alloc),
    };
    let definition = KindEvent::Define(decl.schema.copy(alloc)?);
    let entry = entry_of(alloc, &mut kind, PROGRAM, definition)?;
    kind.journal.push(entry)?;
    Ok(kind)
}

// As many lines of a journal as calls are owed in a phase.
fn judge_phase(
    alloc: Global,
    file: &File,
    kind: &mut ClosedKind,
    calls: &[AskedLine<'_>],
    report: &mut Follower<'_>,
) -> Result<bool, NoMemory>
    requires file { CanAudit file.now }
    requires modest { AllRows IsModest (asked_in calls.now) }
    ensures { IfOk result (PhaseJudged (kinds file.now) kind.old report.old kind.new report.new (asked_in calls.now)) }
{
    let mut turns = Turns::of(alloc, file.actors.len(), calls)?;
    for _judged in 0..calls.len() {
        if !judge_line(alloc, file, kind, &mut turns, report)? {
            return Ok(false);
        }
    }
    Ok(true)
}

// A line of a journal: it shows whose turn it is.
fn judge_line(
    alloc: Global,
    file: &File,
    kind: &mut ClosedKind,
    turns: &mut Turns<'_>,
    report: &mut Follower<'_>,
) -> Result<bool, NoMemory>
    requires file { CanAudit file.now }
    requires modest { AllRows (AllRows IsModest) (queues_of turns.old) }
    ensures judged { (phase : List Asked) → 0 < length phase → AreTurns actor_of (length file.now.actors) (queues_of turns.old) phase
        → IfOk result (LineJudged (kinds file.now) kind.old report.old kind.new report.new (queues_of turns.new) phase) }
    ensures modest { AllRows (AllRows IsModest) (queues_of turns.new) }
{
    let place = next_place(kind.journal.as_slice());
    let Some((caller, call)) = turns.shown(file, place, report.rest()) else {
        return Ok(false);
    };
    match event_of(alloc, &call.line.act)? {
        None => Ok(false),
        Some(event) => judge_call(alloc, file, kind, caller, event, report),
    }
}

// Makes a call, and follows the line that is printed of it.
fn judge_call(
    alloc: Global,
    file: &File,
    kind: &mut ClosedKind,
    caller: u32,
    event: KindEvent,
    report: &mut Follower<'_>,
) -> Result<bool, NoMemory>
    requires { weight event ≤ 4000000000 }
    ensures machine { OnOk result (kind.new.machine ≡ kind_after kind.old.machine event) }
    ensures journal { OnOk result (kind.new.journal ≡ kind.old.journal ++ entry caller event (kind_reply kind.old.machine event) ∷ []) }
    ensures line { IfOk result (FollowedBy (kind_line file.now (length kind.old.journal + 1) (entry caller event (kind_reply kind.old.machine event))) report.old report.new) }
{
    let place = next_place(kind.journal.as_slice());
    let entry = entry_of(alloc, kind, caller, event)?;
    let stands = follow(alloc, file, Piece::KindLine(place, &entry), report)?;
    kind.journal.push(entry)?;
    Ok(stands)
}

// The number of the next entry.
fn next_place(journal: &[KindEntry]) -> u64
    ensures { result ≡ length journal.now + 1 }
{
    journal.len() as u64 + 1
}

// A step of a type, as an entry of its journal.
fn entry_of(
    alloc: Global,
    kind: &mut ClosedKind,
    caller: u32,
    event: KindEvent,
) -> Result<KindEntry, NoMemory>
    requires { weight event ≤ 4000000000 }
    ensures entry { IfOk result (λ made. made ≡ entry caller event (kind_reply kind.old.machine event)) }
    ensures machine { OnOk result (kind.new.machine ≡ kind_after kind.old.machine event) }
    ensures journal { OnOk result (kind.new.journal ≡ kind.old.journal) }
{
    let (reply, _) = kind.machine.step(alloc, &event)?;
    Ok(KindEntry {
        caller,
        event,
        reply,
    })
}

// The event of a type that a line is.
fn event_of(alloc: Global, act: &Act) -> Result<Option<KindEvent>, NoMemory>
    ensures { IfOk result (λ event. event ≡ kind_event_in act.now) }
{
    match call_of(alloc, 0, &[], act)? {
        Call::Kind { event, .. } => Ok(Some(event)),
        Call::Case { .. } => Ok(None),
        Call::Newest { .. } => Ok(Some(KindEvent::Newest)),
    }
}
