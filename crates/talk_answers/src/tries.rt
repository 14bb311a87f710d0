// The entries of calls that are tried and not made.
ghost use Rattle.std.specs.Prelude.{◌≡◌, ◌+◌, ◌≤◌, length, IfOk, Some};
ghost use Rattle.adept_io.specs.Written.{Gives};
ghost use Rattle.case_core.specs.Ages.{weight};
ghost use Rattle.file_model.specs.Sizes.{line_effort};
ghost use Rattle.line_calls.specs.Calls.{call_weight};
ghost use Rattle.script_run.specs.{Calls.newest, Oldest.oldest, Serial.defined};
ghost use Rattle.talk_answers.specs.{Entries.kind_entry, Tried.{call_tried, case_tried, each_tried, kind_tried, told_tried, tried, tried_at}};
ghost use Rattle.type_core.specs.Machine.{weight as kind_weight};
ghost use Rattle.unit_run.specs.Runs.{IsOf};
ghost use Rattle.wsm_schema.specs.Flat.{cards_of};

use crate::entries::{
    put_case_numbered, put_entries_of_each, put_entry_of_case, put_kind_entry, put_kind_numbered,
};
use adept_io::Sink;
use case_core::Event;
use file_model::{File, Line, TypeDecl};
use line_calls::{Call, Told, call_of, roles_of};
use script_run::defined;
use std::alloc::Global;
use type_core::KindEvent;
use unit_run::{NoMemory, UnitRun};
use wsm_sound::{CaseId, Version};

/// The entries that the calls of a line would add to the journals, in the order of the calls. The run is as before; of each
/// case that is called one copy is made, and no two at a time.
pub fn put_tried<K: Sink>(
    sink: &mut K,
    ok: bool,
    alloc: Global,
    file: &File,
    run: &mut UnitRun,
    line: &Line,
) -> Result<bool, NoMemory>
    requires of { IsOf file.now.cases run.old }
    requires age { oldest run.old.run.cases + line_effort line.now ≤ 4000000000 }
    ensures entries { IfOk result (λ well. Gives K.written K.faults ok well sink.old sink.new (tried file.now run.old line.now)) }
    ensures same { run.new ≡ run.old }
{
    let caller = line.actor;
    let call = call_of(alloc, caller, roles_of(file, caller), &line.act)?;
    put_call_tried(sink, ok, alloc, file, run, caller, call)
}

/// The entry of a type, where it would be defined by this declaration and have this number.
pub fn put_defined<K: Sink>(
    sink: &mut K,
    ok: bool,
    alloc: Global,
    file: &File,
    decl: &TypeDecl,
    number: u32,
) -> Result<bool, NoMemory>
    requires small { length (cards_of decl.now.schema) ≤ 1024 }
    ensures { IfOk result (λ well. Gives K.written K.faults ok well sink.old sink.new (kind_entry file.now number (defined number decl.now))) }
{
    let kind = defined(alloc, number, decl, 1)?;
    Ok(put_kind_entry(sink, ok, file, number, &kind))
}

// The entries of a call.
fn put_call_tried<K: Sink>(
    sink: &mut K,
    ok: bool,
    alloc: Global,
    file: &File,
    run: &mut UnitRun,
    caller: u32,
    call: Call,
) -> Result<bool, NoMemory>
    requires of { IsOf file.now.cases run.old }
    requires age { oldest run.old.run.cases + call_weight call ≤ 4000000000 }
    ensures entries { IfOk result (λ well. Gives K.written K.faults ok well sink.old sink.new (call_tried file.now run.old caller call)) }
    ensures same { run.new ≡ run.old }
{
    match call {
        Call::Kind { type_no, event } => {
            put_kind_tried(sink, ok, alloc, file, run, caller, event, type_no)
        }
        Call::Case { id, event } => {
            put_case_tried(sink, ok, alloc, file, run, caller, event, id)
        }
        Call::Newest { type_no, then } => {
            let event = KindEvent::Newest;
            let ok = put_kind_tried(sink, ok, alloc, file, run, caller, event, type_no)?;
            let version = run.newest(type_no)?;
            put_told_tried(sink, ok, alloc, file, run, caller, type_no, then, version)
        }
    }
}

// The entries of those who are told a version.
fn put_told_tried<K: Sink>(
    sink: &mut K,
    ok: bool,
    alloc: Global,
    file: &File,
    run: &mut UnitRun,
    caller: u32,
    type_no: u32,
    then: Told,
    version: Option<Version>,
) -> Result<bool, NoMemory>
    requires age { oldest run.old.run.cases ≤ 4000000000 }
    ensures entries { IfOk result (λ well. Gives K.written K.faults ok well sink.old sink.new (told_tried file.now run.old caller type_no then version)) }
    ensures same { run.new ≡ run.old }
{
    match (then, version) {
        (Told::Create(id), None) => Ok(put_entry_of_case(sink, ok, file, run, id)),
        (Told::Migrate(many), None) => {
            Ok(put_entries_of_each(sink, ok, file, run, type_no, many))
        }
        (Told::Create(id), Some(version)) => {
            let event = Event::Create(version);
            put_case_tried(sink, ok, alloc, file, run, caller, event, id)
        }
        (Told::Migrate(many), Some(version)) => {
            let event = Event::Migrate(version);
            put_each_tried(sink, ok, alloc, file, run, caller, &event, type_no, many)
        }
    }
}

// The entry of a type.
#[tactic(auto, using(adept_io::proofs::Sent::gives_nothing))]
fn put_kind_tried<K: Sink>(
    sink: &mut K,
    ok: bool,
    alloc: Global,
    file: &File,
    run: &UnitRun,
    caller: u32,
    event: KindEvent,
    type_no: u32,
) -> Result<bool, NoMemory>
    requires { kind_weight event ≤ 4000000000 }
    ensures { IfOk result (λ well. Gives K.written K.faults ok well sink.old sink.new (kind_tried file.now run.now caller event type_no)) }
{
    match run.try_kind(alloc, caller, type_no, event)? {
        None => Ok(ok),
        Some((place, entry)) => Ok(put_kind_numbered(sink, ok, file, type_no, place, &entry)),
    }
}

// The entry of the case with an id.
#[tactic(auto, using(adept_io::proofs::Sent::gives_nothing))]
fn put_case_tried<K: Sink>(
    sink: &mut K,
    ok: bool,
    alloc: Global,
    file: &File,
    run: &mut UnitRun,
    caller: u32,
    event: Event,
    id: CaseId,
) -> Result<bool, NoMemory>
    requires age { oldest run.old.run.cases + weight event ≤ 4000000000 }
    ensures entries { IfOk result (λ well. Gives K.written K.faults ok well sink.old sink.new (case_tried file.now run.old caller event id)) }
    ensures same { run.new ≡ run.old }
{
    match run.places().of_case(id) {
        None => Ok(ok),
        Some(place) => put_tried_at(sink, ok, alloc, file, run, caller, event, place),
    }
}

// The entries of the first so many cases of a type, one case after another.
fn put_each_tried<K: Sink>(
    sink: &mut K,
    ok: bool,
    alloc: Global,
    file: &File,
    run: &mut UnitRun,
    caller: u32,
    event: &Event,
    type_no: u32,
    many: u32,
) -> Result<bool, NoMemory>
    requires age { oldest run.old.run.cases + weight event.now ≤ 4000000000 }
    ensures entries { IfOk result (λ well. Gives K.written K.faults ok well sink.old sink.new (each_tried file.now run.old caller event.now type_no many)) }
    ensures same { run.new ≡ run.old }
{
    let mut well = ok;
    for place in 0..many {
        let id = CaseId { type_no, place };
        let event = event.copy(alloc)?;
        well = put_case_tried(sink, well, alloc, file, run, caller, event, id)?;
    }
    Ok(well)
}

// The entry of the case that was declared at a place.
#[tactic(auto, using(adept_io::proofs::Sent::gives_nothing))]
fn put_tried_at<K: Sink>(
    sink: &mut K,
    ok: bool,
    alloc: Global,
    file: &File,
    run: &mut UnitRun,
    caller: u32,
    event: Event,
    place: u32,
) -> Result<bool, NoMemory>
    requires age { oldest run.old.run.cases + weight event ≤ 4000000000 }
    ensures entries { IfOk result (λ well. Gives K.written K.faults ok well sink.old sink.new (tried_at file.now run.old caller event place)) }
    ensures same { run.new ≡ run.old }
{
    let index = place as usize;
    let Some(decl) = file.cases.get(index) else {
        return Ok(ok);
    };
    match run.try_case_at(alloc, index, caller, event)? {
        None => Ok(ok),
        Some((number, entry)) => Ok(put_case_numbered(sink, ok, file, decl, number, &entry)),
    }
}
