// The header, and declarations.
ghost use Rattle.std.specs.Prelude.{◌≡◌, ◌<◌, ◌+◌, ◌^◌, length, map, nat_le, None, Ok, Some, IfOk, IfErr, OnOk};
ghost use Rattle.wsm_lists.specs.Rows.{AllRows};
ghost use Rattle.file_words.specs.Shown.{shown};
ghost use Rattle.file_forms.specs.{NamesInForms.{RoleHas, roles_in}, Shown.{shown_declaration, shown_role}, Forms.{a_type, an_actor, a_case}};
ghost use Rattle.file_model.specs.{Outcomes.Stops, Room.HasRoom, ShortForms.{IsShort, IsShortDeclaration}, Steps.{all_phases, at_place}, Declaring.{declared, phase_begun, with_actor, case_declared, with_case}, Reading.{headed, in_format}};

use crate::contents::role_numbers;
use file_drafts::Draft;
use file_forms::{Declaration, RoleWords, header};
use file_limits::{MAX_PHASES, MAX_ROLES};
use file_model::{ActorDecl, CaseDecl, Contents, FileLimit, Lines, Section, Stop, Why};
use file_names::Name64;
use file_words::NameWord;
use std::alloc::Global;
use wsm_lists::{NoMemory, RoleList};
use wsm_sound::CaseId;

/// A file's first line, which may name a format up to `newest`.
pub fn headed(contents: &mut Contents, newest: u32, words: &[&[u8]]) -> Result<Section, Stop>
    ensures ok { IfOk result (λ place. headed newest (shown words.now) contents.old ≡ Ok (at_place place contents.new)) }
    ensures refused { IfErr result (λ stop. Stops (headed newest (shown words.now) contents.old) contents.new stop) }
{
    match header(words) {
        None => Err(Stop::Refused(Why::Header)),
        Some(format) => with_format(contents, newest, format),
    }
}

fn with_format(contents: &mut Contents, newest: u32, format: u32) -> Result<Section, Stop>
    ensures ok { IfOk result (λ place. in_format newest (Some format) contents.old ≡ Ok (at_place place contents.new)) }
    ensures refused { IfErr result (λ stop. Stops (in_format newest (Some format) contents.old) contents.new stop) }
{
    if format > newest {
        return Err(Stop::Refused(Why::Header));
    }
    contents.format = format;
    Ok(Section::Outside)
}

/// A declaration, or the line that begins a phase.
pub fn declared(
    contents: &mut Contents,
    alloc: Global,
    line: Declaration<'_>,
) -> Result<Section, Stop>
    requires short { IsShortDeclaration (shown_declaration line) }
    requires room { HasRoom (roles_in (shown_declaration line) + 1) contents.old }
    ensures ok { IfOk result (λ place. declared (shown_declaration line.entry) contents.old ≡ Ok (at_place place contents.new)) }
    ensures refused { IfErr result (λ stop. Stops (declared (shown_declaration line.entry) contents.old) contents.new stop) }
{
    match line {
        Declaration::Type(name) => with_type(contents, alloc, name),
        Declaration::Actor { name, roles } => with_actor(contents, alloc, name, roles),
        Declaration::Case { name, kind } => with_case(contents, alloc, name, kind),
        Declaration::Phase => phase_begun(contents, alloc),
    }
}

/// The open phase ends, and one begins.
pub fn phase_begun(contents: &mut Contents, alloc: Global) -> Result<Section, Stop>
    ensures ok { IfOk result (λ place. phase_begun contents.old ≡ Ok (at_place place contents.new)) }
    ensures refused { IfErr result (λ stop. Stops (phase_begun contents.old) contents.new stop) }
{
    if has_all_phases(contents) {
        return Err(Stop::Refused(Why::Limit(FileLimit::Phases)));
    }
    end_phase(contents)?;
    contents.current = Some(Lines::new(alloc));
    Ok(Section::Outside)
}

// Whether there are as many phases as a file may have, with the open one.
#[tactic(auto, using(crate::proofs::PhaseCounts::one_phase_more))]
fn has_all_phases(contents: &Contents) -> bool
    ensures { result ≡ nat_le MAX_PHASES (length (all_phases contents.now)) }
{
    let ended = contents.phases.len();
    match &contents.current {
        None => ended >= MAX_PHASES,
        Some(_) => ended >= MAX_PHASES - 1,
    }
}

/// The open phase ends, where there is one.
pub fn end_phase(contents: &mut Contents) -> Result<(), NoMemory>
    ensures { OnOk result (contents.new ≡ record contents.old { phases = all_phases contents.old; current = None }) }
{
    match contents.current.take() {
        None => Ok(()),
        Some(lines) => contents.phases.push(without_room(lines)),
    }
}

// The lines of a phase that has ended, without room for more.
fn without_room(lines: Lines) -> Lines
    ensures { result ≡ lines }
{
    let mut items = lines.into_vec();
    items.shrink_to_fit();
    Lines::from_vec(items)
}

fn with_type(contents: &mut Contents, alloc: Global, name: NameWord<'_>) -> Result<Section, Stop>
    requires short { IsShort name.bytes.now }
    ensures ok { IfOk result (λ place. declared (a_type name.entry.bytes.now) contents.old ≡ Ok (at_place place contents.new)) }
    ensures refused { IfErr result (λ stop. Stops (declared (a_type name.entry.bytes.now) contents.old) contents.new stop) }
{
    if contents.types.names.has(name) {
        return Err(Stop::Refused(Why::Twice));
    }
    if contents.types.items.len() >= contents.limits.types as usize {
        return Err(Stop::Refused(Why::Limit(FileLimit::Types)));
    }
    let draft = Draft::new(alloc, Name64::of_word(alloc, name)?)?;
    Ok(Section::InType(draft))
}

fn with_actor(
    contents: &mut Contents,
    alloc: Global,
    name: NameWord<'_>,
    roles: RoleWords<'_>,
) -> Result<Section, Stop>
    requires short { IsShort name.bytes.now × AllRows (RoleHas IsShort) (map shown_role roles.items) }
    requires room { HasRoom (length roles.items + 1) contents.old }
    ensures ok { IfOk result (λ place. declared (an_actor name.entry.bytes.now (map shown_role roles.entry.items)) contents.old ≡ Ok (at_place place contents.new)) }
    ensures refused { IfErr result (λ stop. Stops (declared (an_actor name.entry.bytes.now (map shown_role roles.entry.items)) contents.old) contents.new stop) }
{
    if contents.actors.names.has(name) {
        return Err(Stop::Refused(Why::Twice));
    }
    if contents.actors.items.len() >= contents.limits.actors as usize {
        return Err(Stop::Refused(Why::Limit(FileLimit::Actors)));
    }
    if roles.len() > MAX_ROLES {
        return Err(Stop::Refused(Why::Limit(FileLimit::Roles)));
    }
    let roles = role_numbers(contents, alloc, &roles)?;
    add_actor(contents, alloc, name, roles)?;
    Ok(Section::Outside)
}

fn add_actor(
    contents: &mut Contents,
    alloc: Global,
    name: NameWord<'_>,
    roles: RoleList,
) -> Result<(), NoMemory>
    requires short { IsShort name.bytes.now }
    requires room { HasRoom 1 contents.old }
    ensures { OnOk result (contents.new ≡ with_actor name.entry.bytes.now roles contents.old) }
{
    let actor = ActorDecl {
        name: Name64::of_word(alloc, name)?,
        roles,
    };
    contents.actors.push(alloc, name, actor)
}

fn with_case(
    contents: &mut Contents,
    alloc: Global,
    name: NameWord<'_>,
    kind: NameWord<'_>,
) -> Result<Section, Stop>
    requires short { IsShort name.bytes.now }
    requires room { HasRoom 1 contents.old }
    ensures ok { IfOk result (λ place. declared (a_case name.entry.bytes.now kind.entry.bytes.now) contents.old ≡ Ok (at_place place contents.new)) }
    ensures refused { IfErr result (λ stop. Stops (declared (a_case name.entry.bytes.now kind.entry.bytes.now) contents.old) contents.new stop) }
{
    let found = contents.types.names.find(kind);
    with_case_of(contents, alloc, name, found)
}

fn with_case_of(
    contents: &mut Contents,
    alloc: Global,
    name: NameWord<'_>,
    found: Option<u32>,
) -> Result<Section, Stop>
    requires short { IsShort name.bytes.now }
    requires room { HasRoom 1 contents.old }
    ensures ok { IfOk result (λ place. case_declared name.entry.bytes.now found contents.old ≡ Ok (at_place place contents.new)) }
    ensures refused { IfErr result (λ stop. Stops (case_declared name.entry.bytes.now found contents.old) contents.new stop) }
{
    match found {
        None => Err(Stop::Refused(Why::Unknown)),
        Some(type_no) => with_known_type(contents, alloc, name, type_no),
    }
}

fn with_known_type(
    contents: &mut Contents,
    alloc: Global,
    name: NameWord<'_>,
    type_no: u32,
) -> Result<Section, Stop>
    requires short { IsShort name.bytes.now }
    requires room { HasRoom 1 contents.old }
    ensures ok { IfOk result (λ place. case_declared name.entry.bytes.now (Some type_no) contents.old ≡ Ok (at_place place contents.new)) }
    ensures refused { IfErr result (λ stop. Stops (case_declared name.entry.bytes.now (Some type_no) contents.old) contents.new stop) }
{
    if contents.cases.names().has(name) {
        return Err(Stop::Refused(Why::Twice));
    }
    if contents.cases.items().len() >= contents.limits.cases as usize {
        return Err(Stop::Refused(Why::Limit(FileLimit::Cases)));
    }
    add_case(contents, alloc, name, type_no)?;
    Ok(Section::Outside)
}

fn add_case(
    contents: &mut Contents,
    alloc: Global,
    name: NameWord<'_>,
    type_no: u32,
) -> Result<(), NoMemory>
    requires short { IsShort name.bytes.now }
    requires room { HasRoom 1 contents.old }
    requires cases { length contents.old.cases.items + 1 < 2 ^ 32 }
    ensures { OnOk result (contents.new ≡ with_case name.entry.bytes.now type_no contents.old) }
{
    let place = contents.cases.count(type_no);
    let case = CaseDecl {
        name: Name64::of_word(alloc, name)?,
        id: CaseId { type_no, place },
    };
    contents.cases.push(alloc, name, case)
}
