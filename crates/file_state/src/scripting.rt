// Lines of a phase.
ghost use Rattle.std.specs.Prelude.{◌≡◌, ◌≤◌, ◌+◌, ◌<◌, length, [], ◌∷◌, ◌++◌, map, Ok, Some, IfOk, IfErr, OnOk};
ghost use Rattle.wsm_lists.specs.Rows.{AllRows};
ghost use Rattle.file_forms.specs.{NamesInForms.{writes_in, writes_in_deed}, Shown.{shown_deed, shown_script_line}, Forms.{to_create, to_change, to_install, to_migrate, a_deed}};
ghost use Rattle.file_words.specs.Shown.{shown_literal, shown_pair};
ghost use Rattle.file_model.specs.{Outcomes.Stops, Room.{HasRoom, count_of_names}, ShortForms.{IsShort, IsShortDeed, IsShortScriptLine, IsShortValue, IsShortWrite}, Steps.{at_place, node_in, with_node, with_script_line}, Scripting.actor_in};
ghost use Rattle.file_model.specs.Scripting.{if_known, case_in, with_line, line_of, counted, with_group, changing, one_install, installing, migrations_with, migrating, with_elements, numbered, acted, acted_by, scripted};
ghost use Rattle.file_state.specs.Unknown.{StopsUnknown};

use crate::contents::{element_number, node_number};
use crate::declaring::phase_begun;
use file_forms::{Deed, ScriptLine, WriteWords};
use file_limits::{MAX_INSTALLS, MAX_LINES};
use file_model::{Act, Contents, FileLimit, Group, Line, Lines, Section, Stop, Target, Why};
use file_words::{Literal, NameWord};
use std::alloc::Global;
use wsm_lists::{NoMemory, ShortText, Value, Writes};
use wsm_ops::Ops;
use wsm_sound::CaseId;

// The value of a literal whose text is short enough.
fn value_of(alloc: Global, literal: &Literal) -> Result<Value, NoMemory>
    requires short { IsShortValue (shown_literal literal.now) }
    ensures { IfOk result (λ value. value ≡ shown_literal literal.now) }
{
    match literal {
        Literal::Int(n) => Ok(Value::Int(*n)),
        Literal::Text(bytes) => match ShortText::of(alloc, bytes)? {
            Some(text) => Ok(Value::Text(text)),
            None => unreachable!(),
        },
    }
}

fn case_of(contents: &Contents, name: NameWord<'_>) -> Option<CaseId>
    ensures { result ≡ case_in name.entry.bytes.now contents.now }
{
    let index = contents.cases.names().find(name)?;
    let case = contents.cases.items().get(index as usize)?;
    Some(case.id)
}

// The writes with the numbers of their elements.
fn numbered_writes(
    contents: &mut Contents,
    alloc: Global,
    words: &[(NameWord<'_>, Literal)],
) -> Result<Writes, NoMemory>
    requires short { AllRows IsShortWrite (map shown_pair words.now) }
    requires room { HasRoom (length words.now) contents.old }
    ensures noted { OnOk result (contents.new ≡ with_elements (map shown_pair words.now) contents.old) }
    ensures writes { IfOk result (λ writes. writes ≡ numbered (map shown_pair words.now) contents.old) }
{
    let mut writes = Writes::new(alloc);
    for word in words {
        let element = element_number(contents, alloc, word.0)?;
        writes.push((element, value_of(alloc, &word.1)?))?;
    }
    Ok(writes)
}

/// A line of a phase.
pub fn scripted(
    contents: &mut Contents,
    alloc: Global,
    at: u32,
    line: ScriptLine<'_>,
) -> Result<Section, Stop>
    requires short { IsShortScriptLine (shown_script_line line) }
    requires room { HasRoom (writes_in (shown_script_line line) + 1) contents.old }
    ensures ok { IfOk result (λ place. scripted (shown_script_line line.entry) at contents.old ≡ Ok (at_place place contents.new)) }
    ensures refused { IfErr result (λ stop. Stops (scripted (shown_script_line line.entry) at contents.old) contents.new stop) }
{
    match line {
        ScriptLine::Phase => phase_begun(contents, alloc),
        ScriptLine::Deed { actor, deed } => deed_line(contents, alloc, at, actor, deed),
    }
}

// The number of an actor, from 1.
fn actor_in(contents: &Contents, name: NameWord<'_>) -> Option<u32>
    ensures { result ≡ actor_in name.entry.bytes.now contents.now }
{
    let index = contents.actors.names.find(name)?;
    Some(index + 1)
}

fn deed_line(
    contents: &mut Contents,
    alloc: Global,
    at: u32,
    actor: NameWord<'_>,
    deed: Deed<'_>,
) -> Result<Section, Stop>
    requires short { IsShortDeed (shown_deed deed) }
    requires room { HasRoom (writes_in_deed (shown_deed deed) + 1) contents.old }
    ensures ok { IfOk result (λ place. scripted (a_deed actor.entry.bytes.now (shown_deed deed.entry)) at contents.old ≡ Ok (at_place place contents.new)) }
    ensures refused { IfErr result (λ stop. Stops (scripted (a_deed actor.entry.bytes.now (shown_deed deed.entry)) at contents.old) contents.new stop) }
{
    let found = actor_in(contents, actor);
    acted_by(contents, alloc, at, found, deed)
}

fn acted_by(
    contents: &mut Contents,
    alloc: Global,
    at: u32,
    found: Option<u32>,
    deed: Deed<'_>,
) -> Result<Section, Stop>
    requires short { IsShortDeed (shown_deed deed) }
    requires room { HasRoom (writes_in_deed (shown_deed deed) + 1) contents.old }
    ensures ok { IfOk result (λ place. acted_by found (shown_deed deed.entry) at contents.old ≡ Ok (at_place place contents.new)) }
    ensures refused { IfErr result (λ stop. Stops (acted_by found (shown_deed deed.entry) at contents.old) contents.new stop) }
{
    match found {
        None => Err(Stop::Refused(Why::Unknown)),
        Some(actor) => acted(contents, alloc, at, actor, deed),
    }
}

fn acted(
    contents: &mut Contents,
    alloc: Global,
    at: u32,
    actor: u32,
    deed: Deed<'_>,
) -> Result<Section, Stop>
    requires short { IsShortDeed (shown_deed deed) }
    requires room { HasRoom (writes_in_deed (shown_deed deed) + 1) contents.old }
    ensures ok { IfOk result (λ place. acted (shown_deed deed.entry) actor at contents.old ≡ Ok (at_place place contents.new)) }
    ensures refused { IfErr result (λ stop. Stops (acted (shown_deed deed.entry) actor at contents.old) contents.new stop) }
{
    match deed {
        Deed::Create(case) => create_line(contents, alloc, at, actor, case),
        Deed::Start { case, node } => start_line(contents, alloc, at, actor, case, node),
        Deed::Withdraw { case, node } => { withdraw_line(contents, alloc, at, actor, case, node) }
        Deed::End {
            case,
            node,
            choice,
            writes,
        } => end_line(contents, alloc, at, actor, case, node, choice, writes),
        Deed::Change(case) => change_line(contents, alloc, at, actor, case),
        Deed::Install(kind) => install_line(contents, alloc, at, actor, kind),
        Deed::Migrate(kind) => migrate_line(contents, alloc, at, actor, kind),
    }
}

fn create_line(
    contents: &mut Contents,
    alloc: Global,
    at: u32,
    actor: u32,
    case: NameWord<'_>,
) -> Result<Section, Stop>
    ensures ok { IfOk result (λ place. acted (to_create case.entry.bytes.now) actor at contents.old ≡ Ok (at_place place contents.new)) }
    ensures refused { IfErr result (λ stop. Stops (acted (to_create case.entry.bytes.now) actor at contents.old) contents.new stop) }
{
    match case_of(contents, case) {
        None => Err(Stop::Refused(Why::Unknown)),
        Some(id) => with_line(contents, alloc, at, actor, Act::Create { id }),
    }
}

// The case and the number of a node, which gets the next one where it has none. An unknown case is refused first.
fn case_and_node(
    contents: &mut Contents,
    alloc: Global,
    case: NameWord<'_>,
    node: NameWord<'_>,
) -> Result<(CaseId, u32), Stop>
    requires short { IsShort node.bytes.now }
    requires room { HasRoom 1 contents.old }
    ensures case { IfOk result (λ found. case_in case.entry.bytes.now contents.old ≡ Some found.0) }
    ensures node { IfOk result (λ found. found.1 ≡ node_in node.entry.bytes.now contents.old) }
    ensures noted { OnOk result (contents.new ≡ with_node node.entry.bytes.now contents.old) }
    ensures refused { IfErr result (λ stop. StopsUnknown (case_in case.entry.bytes.now contents.old) contents.old contents.new stop) }
    ensures room { OnOk result (count_of_names contents.new ≤ count_of_names contents.old + 1) }
{
    match case_of(contents, case) {
        None => Err(Stop::Refused(Why::Unknown)),
        Some(id) => Ok((id, node_number(contents, alloc, node)?)),
    }
}

fn start_line(
    contents: &mut Contents,
    alloc: Global,
    at: u32,
    actor: u32,
    case: NameWord<'_>,
    node: NameWord<'_>,
) -> Result<Section, Stop>
    requires short { IsShort node.bytes.now }
    requires room { HasRoom 1 contents.old }
    ensures ok { IfOk result (λ place. acted (shown_deed (Deed.Start case.entry node.entry)) actor at contents.old ≡ Ok (at_place place contents.new)) }
    ensures refused { IfErr result (λ stop. Stops (acted (shown_deed (Deed.Start case.entry node.entry)) actor at contents.old) contents.new stop) }
{
    let (id, node) = case_and_node(contents, alloc, case, node)?;
    with_line(contents, alloc, at, actor, Act::Start { id, node })
}

fn withdraw_line(
    contents: &mut Contents,
    alloc: Global,
    at: u32,
    actor: u32,
    case: NameWord<'_>,
    node: NameWord<'_>,
) -> Result<Section, Stop>
    requires short { IsShort node.bytes.now }
    requires room { HasRoom 1 contents.old }
    ensures ok { IfOk result (λ place. acted (shown_deed (Deed.Withdraw case.entry node.entry)) actor at contents.old ≡ Ok (at_place place contents.new)) }
    ensures refused { IfErr result (λ stop. Stops (acted (shown_deed (Deed.Withdraw case.entry node.entry)) actor at contents.old) contents.new stop) }
{
    let (id, node) = case_and_node(contents, alloc, case, node)?;
    with_line(contents, alloc, at, actor, Act::Withdraw { id, node })
}

fn end_line(
    contents: &mut Contents,
    alloc: Global,
    at: u32,
    actor: u32,
    case: NameWord<'_>,
    node: NameWord<'_>,
    choice: Option<u16>,
    writes: WriteWords<'_>,
) -> Result<Section, Stop>
    requires short { IsShort node.bytes.now × AllRows IsShortWrite (map shown_pair writes.items) }
    requires room { HasRoom (length writes.items + 1) contents.old }
    ensures ok { IfOk result (λ place. acted (shown_deed (Deed.End case.entry node.entry choice writes.entry)) actor at contents.old ≡ Ok (at_place place contents.new)) }
    ensures refused { IfErr result (λ stop. Stops (acted (shown_deed (Deed.End case.entry node.entry choice writes.entry)) actor at contents.old) contents.new stop) }
{
    let (id, node) = case_and_node(contents, alloc, case, node)?;
    let writes = numbered_writes(contents, alloc, &writes)?;
    with_line(
        contents,
        alloc,
        at,
        actor,
        Act::End {
            id,
            node,
            choice,
            writes,
        },
    )
}

fn change_line(
    contents: &mut Contents,
    alloc: Global,
    at: u32,
    actor: u32,
    case: NameWord<'_>,
) -> Result<Section, Stop>
    ensures ok { IfOk result (λ place. acted (to_change case.entry.bytes.now) actor at contents.old ≡ Ok (at_place place contents.new)) }
    ensures refused { IfErr result (λ stop. Stops (acted (to_change case.entry.bytes.now) actor at contents.old) contents.new stop) }
{
    match case_of(contents, case) {
        None => Err(Stop::Refused(Why::Unknown)),
        Some(id) => changing(contents, alloc, at, actor, id),
    }
}

fn changing(
    contents: &mut Contents,
    alloc: Global,
    at: u32,
    actor: u32,
    id: CaseId,
) -> Result<Section, Stop>
    ensures ok { IfOk result (λ place. changing at actor id contents.old ≡ Ok (at_place place contents.new)) }
    ensures refused { IfErr result (λ stop. Stops (changing at actor id contents.old) contents.new stop) }
{
    if contents.counts.lines >= MAX_LINES {
        return Err(Stop::Refused(Why::Limit(FileLimit::Lines)));
    }
    Ok(with_group(contents, alloc, at, actor, Target::Case(id)))
}

fn install_line(
    contents: &mut Contents,
    alloc: Global,
    at: u32,
    actor: u32,
    kind: NameWord<'_>,
) -> Result<Section, Stop>
    ensures ok { IfOk result (λ place. acted (to_install kind.entry.bytes.now) actor at contents.old ≡ Ok (at_place place contents.new)) }
    ensures refused { IfErr result (λ stop. Stops (acted (to_install kind.entry.bytes.now) actor at contents.old) contents.new stop) }
{
    let found = contents.types.names.find(kind);
    install_known(contents, alloc, at, actor, found)
}

fn install_known(
    contents: &mut Contents,
    alloc: Global,
    at: u32,
    actor: u32,
    found: Option<u32>,
) -> Result<Section, Stop>
    ensures ok { IfOk result (λ place. if_known found (λ t. installing at actor t contents.old) contents.old ≡ Ok (at_place place contents.new)) }
    ensures refused { IfErr result (λ stop. Stops (if_known found (λ t. installing at actor t contents.old) contents.old) contents.new stop) }
{
    match found {
        None => Err(Stop::Refused(Why::Unknown)),
        Some(type_no) => installing(contents, alloc, at, actor, type_no),
    }
}

fn installing(
    contents: &mut Contents,
    alloc: Global,
    at: u32,
    actor: u32,
    type_no: u32,
) -> Result<Section, Stop>
    ensures ok { IfOk result (λ place. installing at actor type_no contents.old ≡ Ok (at_place place contents.new)) }
    ensures refused { IfErr result (λ stop. Stops (installing at actor type_no contents.old) contents.new stop) }
{
    if contents.counts.lines >= MAX_LINES {
        return Err(Stop::Refused(Why::Limit(FileLimit::Lines)));
    }
    if contents.counts.installs >= MAX_INSTALLS {
        return Err(Stop::Refused(Why::Limit(FileLimit::Installs)));
    }
    contents.counts.installs += 1;
    Ok(with_group(contents, alloc, at, actor, Target::Type(type_no)))
}

fn migrate_line(
    contents: &mut Contents,
    alloc: Global,
    at: u32,
    actor: u32,
    kind: NameWord<'_>,
) -> Result<Section, Stop>
    ensures ok { IfOk result (λ place. acted (to_migrate kind.entry.bytes.now) actor at contents.old ≡ Ok (at_place place contents.new)) }
    ensures refused { IfErr result (λ stop. Stops (acted (to_migrate kind.entry.bytes.now) actor at contents.old) contents.new stop) }
{
    let found = contents.types.names.find(kind);
    migrate_known(contents, alloc, at, actor, found)
}

fn migrate_known(
    contents: &mut Contents,
    alloc: Global,
    at: u32,
    actor: u32,
    found: Option<u32>,
) -> Result<Section, Stop>
    ensures ok { IfOk result (λ place. if_known found (λ t. migrating at actor t contents.old) contents.old ≡ Ok (at_place place contents.new)) }
    ensures refused { IfErr result (λ stop. Stops (if_known found (λ t. migrating at actor t contents.old) contents.old) contents.new stop) }
{
    match found {
        None => Err(Stop::Refused(Why::Unknown)),
        Some(type_no) => migrating(contents, alloc, at, actor, type_no),
    }
}

fn migrating(
    contents: &mut Contents,
    alloc: Global,
    at: u32,
    actor: u32,
    type_no: u32,
) -> Result<Section, Stop>
    ensures ok { IfOk result (λ place. migrating at actor type_no contents.old ≡ Ok (at_place place contents.new)) }
    ensures refused { IfErr result (λ stop. Stops (migrating at actor type_no contents.old) contents.new stop) }
{
    if contents.counts.lines >= MAX_LINES {
        return Err(Stop::Refused(Why::Limit(FileLimit::Lines)));
    }
    let many = contents.cases.count(type_no);
    let most = contents.limits.migrations;
    let migrations = contents.counts.migrations as u64 + many as u64;
    if migrations > most as u64 {
        return Err(Stop::Refused(Why::Limit(FileLimit::Migrations)));
    }
    contents.counts.migrations = migrations as u32;
    count_line(contents, alloc, at, actor, Act::Migrate { type_no, many })?;
    Ok(Section::Outside)
}

fn with_line(
    contents: &mut Contents,
    alloc: Global,
    at: u32,
    actor: u32,
    act: Act,
) -> Result<Section, Stop>
    ensures ok { IfOk result (λ place. with_line at actor act contents.old ≡ Ok (at_place place contents.new)) }
    ensures refused { IfErr result (λ stop. Stops (with_line at actor act contents.old) contents.new stop) }
{
    if contents.counts.lines >= MAX_LINES {
        return Err(Stop::Refused(Why::Limit(FileLimit::Lines)));
    }
    count_line(contents, alloc, at, actor, act)?;
    Ok(Section::Outside)
}

// One more script line, of its own.
fn count_line(
    contents: &mut Contents,
    alloc: Global,
    at: u32,
    actor: u32,
    act: Act,
) -> Result<(), NoMemory>
    requires { contents.old.counts.lines < MAX_LINES }
    ensures { OnOk result (contents.new ≡ with_script_line (line_of at actor act contents.old) (counted contents.old)) }
{
    contents.counts.lines += 1;
    let line = Line {
        at,
        order: contents.counts.lines,
        actor,
        act,
    };
    push_line(contents, alloc, line)
}

/// One more line of the open phase, which begins where none is open.
pub fn push_line(contents: &mut Contents, alloc: Global, line: Line) -> Result<(), NoMemory>
    ensures { OnOk result (contents.new ≡ with_script_line line contents.old) }
{
    match &mut contents.current {
        Some(lines) => lines.push(line),
        None => begin_with(contents, alloc, line),
    }
}

// A phase of one line begins.
fn begin_with(contents: &mut Contents, alloc: Global, line: Line) -> Result<(), NoMemory>
    ensures { OnOk result (contents.new ≡ record contents.old { current = Some (line ∷ []) }) }
{
    let mut lines = Lines::new(alloc);
    lines.push(line)?;
    contents.current = Some(lines);
    Ok(())
}

fn with_group(
    contents: &mut Contents,
    alloc: Global,
    at: u32,
    actor: u32,
    target: Target,
) -> Section
    requires { contents.old.counts.lines < MAX_LINES }
    ensures { at_place result contents.new ≡ with_group at actor target contents.old }
{
    contents.counts.lines += 1;
    let group = Group {
        at,
        order: contents.counts.lines,
        actor,
        target,
        ops: Ops::new(alloc),
    };
    Section::InGroup(group)
}
