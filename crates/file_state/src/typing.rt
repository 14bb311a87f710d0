// Lines of a type.
ghost use Rattle.std.specs.Prelude.{◌≡◌, not, Ok, IfOk, IfErr, OnOk, if◌then◌else◌};
ghost use Rattle.file_forms.specs.{NamesInForms.RoleHas, Shown.{shown_role, shown_type_line}, Forms.{activity, opens_and, opens_xor, opens_branch, opens_loop, closes_block, a_sync, an_element, a_read, a_write, type_end}};
ghost use Rattle.file_drafts.specs.Drafts.{closed, branched, whole};
ghost use Rattle.file_model.specs.{Outcomes.Stops, Room.HasRoom, ShortForms.{IsShort, IsShortTypeLine}, Steps.{at_place, with_role, with_node, with_element, with_nodes, with_node_and_element}, Declaring.with_type, Typing.takes_blocks};
ghost use Rattle.file_model.specs.Typing.{takes_branch, is_outside, fits_in, typed, with_role_of, with_and, with_xor, with_loop, has_sync, put_sync, has_element, put_element, has_read, put_read, has_write, put_write};
ghost use Rattle.file_state.specs.Taken.{Taken};

use crate::contents::{
    element_number, node_and_element_numbers, node_number, node_numbers, role_number,
};
use file_drafts::{Around, Draft, GateKind};
use file_forms::{RoleWord, TypeLine};
use file_limits::MAX_DEPTH;
use file_model::{Contents, FileLimit, Section, Stop, TypeDecl, Why};
use file_names::Name64;
use file_words::NameWord;
use std::alloc::Global;
use wsm_lists::{ElementKind, NoMemory};
use wsm_sound::{Checked, SoundRefusal, check};

fn takes_blocks(around: Around) -> bool
    ensures { result ≡ takes_blocks around }
{
    match around {
        Around::BeforeBranches => false,
        Around::NoBlock | Around::InBranch | Around::InBody => true,
    }
}

fn takes_branch(around: Around) -> bool
    ensures { result ≡ takes_branch around }
{
    match around {
        Around::NoBlock | Around::InBody => false,
        Around::BeforeBranches | Around::InBranch => true,
    }
}

fn is_outside(around: Around) -> bool
    ensures { result ≡ is_outside around }
{
    match around {
        Around::NoBlock => true,
        Around::BeforeBranches | Around::InBranch | Around::InBody => false,
    }
}

/// Whether a line of this form may stand there.
pub fn fits_in(around: Around, line: TypeLine<'_>) -> bool
    ensures { result ≡ fits_in around (shown_type_line line.entry) }
{
    match line {
        TypeLine::Activity { .. }
        | TypeLine::And { .. }
        | TypeLine::Xor { .. }
        | TypeLine::Loop { .. } => takes_blocks(around),
        TypeLine::Branch(_) => takes_branch(around),
        TypeLine::Done => !is_outside(around),
        TypeLine::Sync { .. }
        | TypeLine::Element { .. }
        | TypeLine::Read { .. }
        | TypeLine::Write { .. }
        | TypeLine::TypeEnd => is_outside(around),
    }
}

/// A line of a type, where it may stand.
pub fn typed(
    contents: &mut Contents,
    alloc: Global,
    draft: Draft,
    line: TypeLine<'_>,
) -> Result<Section, Stop>
    requires short { IsShortTypeLine (shown_type_line line) }
    requires room { HasRoom 3 contents.old }
    ensures ok { IfOk result (λ place. typed (shown_type_line line.entry) draft contents.old ≡ Ok (at_place place contents.new)) }
    ensures refused { IfErr result (λ stop. Stops (typed (shown_type_line line.entry) draft contents.old) contents.new stop) }
{
    let mut draft = draft;
    match put_line(contents, alloc, &mut draft, line) {
        Ok(true) => Ok(Section::InType(draft)),
        Ok(false) => end_line(contents, alloc, draft),
        Err(stop) => Err(stop),
    }
}

// A line that stays in the type. False, with no change, where the line ends the type. Here the draft is only borrowed: to
// let it go where a line is refused would make each proof dear.
fn put_line(
    contents: &mut Contents,
    alloc: Global,
    draft: &mut Draft,
    line: TypeLine<'_>,
) -> Result<bool, Stop>
    requires short { IsShortTypeLine (shown_type_line line) }
    requires room { HasRoom 3 contents.old }
    ensures ok { IfOk result (λ inside. Taken inside (shown_type_line line.entry) draft.old contents.old draft.new contents.new) }
    ensures refused { IfErr result (λ stop. Stops (typed (shown_type_line line.entry) draft.old contents.old) contents.new stop) }
{
    match line {
        TypeLine::Activity { node, role } => activity_line(contents, alloc, draft, node, role),
        TypeLine::And { split, join } => and_line(contents, alloc, draft, split, join),
        TypeLine::Xor { split, join, role } => xor_line(contents, alloc, draft, split, join, role),
        TypeLine::Branch(code) => branch_line(contents, alloc, draft, code),
        TypeLine::Loop { start, end, role } => loop_line(contents, alloc, draft, start, end, role),
        TypeLine::Done => done_line(contents, alloc, draft),
        TypeLine::Sync { source, target } => sync_line(contents, alloc, draft, source, target),
        TypeLine::Element { element, kind } => element_line(contents, alloc, draft, element, kind),
        TypeLine::Read {
            node,
            element,
            mandatory,
        } => read_line(contents, alloc, draft, node, element, mandatory),
        TypeLine::Write { node, element } => write_line(contents, alloc, draft, node, element),
        TypeLine::TypeEnd => Ok(false),
    }
}

fn activity_line(
    contents: &mut Contents,
    alloc: Global,
    draft: &mut Draft,
    node: NameWord<'_>,
    role: RoleWord<'_>,
) -> Result<bool, Stop>
    requires short { IsShort node.bytes.now × RoleHas IsShort (shown_role role) }
    requires room { HasRoom 3 contents.old }
    ensures ok { IfOk result (λ inside. Taken inside (activity node.entry.bytes.now (shown_role role.entry)) draft.old contents.old draft.new contents.new) }
    ensures refused { IfErr result (λ stop. Stops (typed (activity node.entry.bytes.now (shown_role role.entry)) draft.old contents.old) contents.new stop) }
{
    add_activity(contents, alloc, draft, node, role)?;
    Ok(true)
}

fn and_line(
    contents: &mut Contents,
    alloc: Global,
    draft: &mut Draft,
    split: NameWord<'_>,
    join: NameWord<'_>,
) -> Result<bool, Stop>
    requires short { IsShort split.bytes.now × IsShort join.bytes.now }
    requires room { HasRoom 3 contents.old }
    ensures ok { IfOk result (λ inside. Taken inside (opens_and split.entry.bytes.now join.entry.bytes.now) draft.old contents.old draft.new contents.new) }
    ensures refused { IfErr result (λ stop. Stops (typed (opens_and split.entry.bytes.now join.entry.bytes.now) draft.old contents.old) contents.new stop) }
{
    if draft.depth() >= MAX_DEPTH {
        return Err(Stop::Refused(Why::Limit(FileLimit::Depth)));
    }
    open_and(contents, alloc, draft, split, join)?;
    Ok(true)
}

fn xor_line(
    contents: &mut Contents,
    alloc: Global,
    draft: &mut Draft,
    split: NameWord<'_>,
    join: NameWord<'_>,
    role: RoleWord<'_>,
) -> Result<bool, Stop>
    requires short { IsShort split.bytes.now × IsShort join.bytes.now × RoleHas IsShort (shown_role role) }
    requires room { HasRoom 3 contents.old }
    ensures ok { IfOk result (λ inside. Taken inside (opens_xor split.entry.bytes.now join.entry.bytes.now (shown_role role.entry)) draft.old contents.old draft.new contents.new) }
    ensures refused { IfErr result (λ stop. Stops (typed (opens_xor split.entry.bytes.now join.entry.bytes.now (shown_role role.entry)) draft.old contents.old) contents.new stop) }
{
    if draft.depth() >= MAX_DEPTH {
        return Err(Stop::Refused(Why::Limit(FileLimit::Depth)));
    }
    open_xor(contents, alloc, draft, split, join, role)?;
    Ok(true)
}

fn loop_line(
    contents: &mut Contents,
    alloc: Global,
    draft: &mut Draft,
    start: NameWord<'_>,
    end: NameWord<'_>,
    role: RoleWord<'_>,
) -> Result<bool, Stop>
    requires short { IsShort start.bytes.now × IsShort end.bytes.now × RoleHas IsShort (shown_role role) }
    requires room { HasRoom 3 contents.old }
    ensures ok { IfOk result (λ inside. Taken inside (opens_loop start.entry.bytes.now end.entry.bytes.now (shown_role role.entry)) draft.old contents.old draft.new contents.new) }
    ensures refused { IfErr result (λ stop. Stops (typed (opens_loop start.entry.bytes.now end.entry.bytes.now (shown_role role.entry)) draft.old contents.old) contents.new stop) }
{
    if draft.depth() >= MAX_DEPTH {
        return Err(Stop::Refused(Why::Limit(FileLimit::Depth)));
    }
    open_loop(contents, alloc, draft, start, end, role)?;
    Ok(true)
}

fn branch_line(
    contents: &mut Contents,
    alloc: Global,
    draft: &mut Draft,
    code: u16,
) -> Result<bool, Stop>
    ensures ok { IfOk result (λ inside. Taken inside (opens_branch code) draft.old contents.old draft.new contents.new) }
    ensures refused { IfErr result (λ stop. Stops (typed (opens_branch code) draft.old contents.old) contents.new stop) }
{
    draft.open_branch(alloc, code)?;
    Ok(true)
}

fn done_line(contents: &mut Contents, alloc: Global, draft: &mut Draft) -> Result<bool, Stop>
    ensures ok { IfOk result (λ inside. Taken inside (closes_block) draft.old contents.old draft.new contents.new) }
    ensures refused { IfErr result (λ stop. Stops (typed (closes_block) draft.old contents.old) contents.new stop) }
{
    draft.close_block(alloc)?;
    Ok(true)
}

fn sync_line(
    contents: &mut Contents,
    alloc: Global,
    draft: &mut Draft,
    source: NameWord<'_>,
    target: NameWord<'_>,
) -> Result<bool, Stop>
    requires short { IsShort source.bytes.now × IsShort target.bytes.now }
    requires room { HasRoom 3 contents.old }
    ensures ok { IfOk result (λ inside. Taken inside (a_sync source.entry.bytes.now target.entry.bytes.now) draft.old contents.old draft.new contents.new) }
    ensures refused { IfErr result (λ stop. Stops (typed (a_sync source.entry.bytes.now target.entry.bytes.now) draft.old contents.old) contents.new stop) }
{
    if put_sync(contents, alloc, draft, source, target)? {
        Ok(true)
    } else {
        Err(Stop::Refused(Why::Twice))
    }
}

fn element_line(
    contents: &mut Contents,
    alloc: Global,
    draft: &mut Draft,
    element: NameWord<'_>,
    kind: ElementKind,
) -> Result<bool, Stop>
    requires short { IsShort element.bytes.now }
    requires room { HasRoom 3 contents.old }
    ensures ok { IfOk result (λ inside. Taken inside (an_element element.entry.bytes.now kind) draft.old contents.old draft.new contents.new) }
    ensures refused { IfErr result (λ stop. Stops (typed (an_element element.entry.bytes.now kind) draft.old contents.old) contents.new stop) }
{
    if put_element(contents, alloc, draft, element, kind)? {
        Ok(true)
    } else {
        Err(Stop::Refused(Why::Twice))
    }
}

fn read_line(
    contents: &mut Contents,
    alloc: Global,
    draft: &mut Draft,
    node: NameWord<'_>,
    element: NameWord<'_>,
    mandatory: bool,
) -> Result<bool, Stop>
    requires short { IsShort node.bytes.now × IsShort element.bytes.now }
    requires room { HasRoom 3 contents.old }
    ensures ok { IfOk result (λ inside. Taken inside (a_read node.entry.bytes.now element.entry.bytes.now mandatory) draft.old contents.old draft.new contents.new) }
    ensures refused { IfErr result (λ stop. Stops (typed (a_read node.entry.bytes.now element.entry.bytes.now mandatory) draft.old contents.old) contents.new stop) }
{
    if put_read(contents, alloc, draft, node, element, mandatory)? {
        Ok(true)
    } else {
        Err(Stop::Refused(Why::Twice))
    }
}

fn write_line(
    contents: &mut Contents,
    alloc: Global,
    draft: &mut Draft,
    node: NameWord<'_>,
    element: NameWord<'_>,
) -> Result<bool, Stop>
    requires short { IsShort node.bytes.now × IsShort element.bytes.now }
    requires room { HasRoom 3 contents.old }
    ensures ok { IfOk result (λ inside. Taken inside (a_write node.entry.bytes.now element.entry.bytes.now) draft.old contents.old draft.new contents.new) }
    ensures refused { IfErr result (λ stop. Stops (typed (a_write node.entry.bytes.now element.entry.bytes.now) draft.old contents.old) contents.new stop) }
{
    if put_write(contents, alloc, draft, node, element)? {
        Ok(true)
    } else {
        Err(Stop::Refused(Why::Twice))
    }
}

fn end_line(contents: &mut Contents, alloc: Global, draft: Draft) -> Result<Section, Stop>
    requires room { HasRoom 3 contents.old }
    ensures ok { IfOk result (λ place. typed (type_end) draft contents.old ≡ Ok (at_place place contents.new)) }
    ensures refused { IfErr result (λ stop. Stops (typed (type_end) draft contents.old) contents.new stop) }
{
    let (name, schema) = draft.finish(alloc)?;
    match check(alloc, schema) {
        Ok(checked) => {
            add_sound(contents, alloc, name, checked)?;
            Ok(Section::Outside)
        }
        Err(SoundRefusal::Fault(fault)) => Err(Stop::Refused(Why::Unsound(fault))),
        Err(SoundRefusal::NoMemory) => Err(Stop::NoMemory),
    }
}

fn add_activity(
    contents: &mut Contents,
    alloc: Global,
    draft: &mut Draft,
    node: NameWord<'_>,
    role: RoleWord<'_>,
) -> Result<(), NoMemory>
    requires short { IsShort node.bytes.now × RoleHas IsShort (shown_role role) }
    requires room { HasRoom 3 contents.old }
    ensures noted { OnOk result (contents.new ≡ with_role (shown_role role.entry) (with_node node.entry.bytes.now contents.old)) }
    ensures draft { OnOk result (draft.new ≡ with_role_of node.entry.bytes.now (shown_role role.entry) draft.old contents.old) }
{
    let node = node_number(contents, alloc, node)?;
    let role = role_number(contents, alloc, role)?;
    draft.push_activity(node)?;
    draft.put_role(node, role)
}

fn open_and(
    contents: &mut Contents,
    alloc: Global,
    draft: &mut Draft,
    split: NameWord<'_>,
    join: NameWord<'_>,
) -> Result<(), NoMemory>
    requires short { IsShort split.bytes.now × IsShort join.bytes.now }
    requires room { HasRoom 3 contents.old }
    ensures noted { OnOk result (contents.new ≡ with_nodes split.entry.bytes.now join.entry.bytes.now contents.old) }
    ensures draft { OnOk result (draft.new ≡ with_and split.entry.bytes.now join.entry.bytes.now draft.old contents.old) }
{
    let (split, join) = node_numbers(contents, alloc, split, join)?;
    draft.open_gate(alloc, GateKind::And, split, join)
}

fn open_xor(
    contents: &mut Contents,
    alloc: Global,
    draft: &mut Draft,
    split: NameWord<'_>,
    join: NameWord<'_>,
    role: RoleWord<'_>,
) -> Result<(), NoMemory>
    requires short { IsShort split.bytes.now × IsShort join.bytes.now × RoleHas IsShort (shown_role role) }
    requires room { HasRoom 3 contents.old }
    ensures noted { OnOk result (contents.new ≡ with_role (shown_role role.entry) (with_nodes split.entry.bytes.now join.entry.bytes.now contents.old)) }
    ensures draft { OnOk result (draft.new ≡ with_xor split.entry.bytes.now join.entry.bytes.now (shown_role role.entry) draft.old contents.old) }
{
    let (split, join) = node_numbers(contents, alloc, split, join)?;
    let role = role_number(contents, alloc, role)?;
    draft.open_gate(alloc, GateKind::Xor, split, join)?;
    draft.put_role(split, role)
}

fn open_loop(
    contents: &mut Contents,
    alloc: Global,
    draft: &mut Draft,
    start: NameWord<'_>,
    end: NameWord<'_>,
    role: RoleWord<'_>,
) -> Result<(), NoMemory>
    requires short { IsShort start.bytes.now × IsShort end.bytes.now × RoleHas IsShort (shown_role role) }
    requires room { HasRoom 3 contents.old }
    ensures noted { OnOk result (contents.new ≡ with_role (shown_role role.entry) (with_nodes start.entry.bytes.now end.entry.bytes.now contents.old)) }
    ensures draft { OnOk result (draft.new ≡ with_loop start.entry.bytes.now end.entry.bytes.now (shown_role role.entry) draft.old contents.old) }
{
    let (start, end) = node_numbers(contents, alloc, start, end)?;
    let role = role_number(contents, alloc, role)?;
    draft.open_loop(alloc, start, end)?;
    draft.put_role(end, role)
}

fn put_sync(
    contents: &mut Contents,
    alloc: Global,
    draft: &mut Draft,
    source: NameWord<'_>,
    target: NameWord<'_>,
) -> Result<bool, NoMemory>
    requires short { IsShort source.bytes.now × IsShort target.bytes.now }
    requires room { HasRoom 3 contents.old }
    ensures noted { OnOk result (contents.new ≡ with_nodes source.entry.bytes.now target.entry.bytes.now contents.old) }
    ensures added { IfOk result (λ added. added ≡ not (has_sync source.entry.bytes.now target.entry.bytes.now draft.old contents.old)) }
    ensures rows { IfOk result (λ added. draft.new ≡ (if added then put_sync source.entry.bytes.now target.entry.bytes.now draft.old contents.old else draft.old)) }
{
    let (source, target) = node_numbers(contents, alloc, source, target)?;
    draft.put_sync(source, target)
}

fn put_element(
    contents: &mut Contents,
    alloc: Global,
    draft: &mut Draft,
    element: NameWord<'_>,
    kind: ElementKind,
) -> Result<bool, NoMemory>
    requires short { IsShort element.bytes.now }
    requires room { HasRoom 3 contents.old }
    ensures noted { OnOk result (contents.new ≡ with_element element.entry.bytes.now contents.old) }
    ensures added { IfOk result (λ added. added ≡ not (has_element element.entry.bytes.now draft.old contents.old)) }
    ensures rows { IfOk result (λ added. draft.new ≡ (if added then put_element element.entry.bytes.now kind draft.old contents.old else draft.old)) }
{
    let element = element_number(contents, alloc, element)?;
    draft.put_element(element, kind)
}

fn put_read(
    contents: &mut Contents,
    alloc: Global,
    draft: &mut Draft,
    node: NameWord<'_>,
    element: NameWord<'_>,
    mandatory: bool,
) -> Result<bool, NoMemory>
    requires short { IsShort node.bytes.now × IsShort element.bytes.now }
    requires room { HasRoom 3 contents.old }
    ensures noted { OnOk result (contents.new ≡ with_node_and_element node.entry.bytes.now element.entry.bytes.now contents.old) }
    ensures added { IfOk result (λ added. added ≡ not (has_read node.entry.bytes.now element.entry.bytes.now draft.old contents.old)) }
    ensures rows { IfOk result (λ added. draft.new ≡ (if added then put_read node.entry.bytes.now element.entry.bytes.now mandatory draft.old contents.old else draft.old)) }
{
    let (node, element) = node_and_element_numbers(contents, alloc, node, element)?;
    draft.put_read(node, element, mandatory)
}

fn put_write(
    contents: &mut Contents,
    alloc: Global,
    draft: &mut Draft,
    node: NameWord<'_>,
    element: NameWord<'_>,
) -> Result<bool, NoMemory>
    requires short { IsShort node.bytes.now × IsShort element.bytes.now }
    requires room { HasRoom 3 contents.old }
    ensures noted { OnOk result (contents.new ≡ with_node_and_element node.entry.bytes.now element.entry.bytes.now contents.old) }
    ensures added { IfOk result (λ added. added ≡ not (has_write node.entry.bytes.now element.entry.bytes.now draft.old contents.old)) }
    ensures rows { IfOk result (λ added. draft.new ≡ (if added then put_write node.entry.bytes.now element.entry.bytes.now draft.old contents.old else draft.old)) }
{
    let (node, element) = node_and_element_numbers(contents, alloc, node, element)?;
    draft.put_write(node, element)
}

// One more type. The schema that was checked is let go here alone.
fn add_sound(
    contents: &mut Contents,
    alloc: Global,
    name: Name64,
    checked: Checked,
) -> Result<(), NoMemory>
    requires room { HasRoom 3 contents.old }
    ensures { OnOk result (contents.new ≡ with_type name checked contents.old) }
{
    add_type(contents, alloc, name, &checked)
}

fn add_type(
    contents: &mut Contents,
    alloc: Global,
    name: Name64,
    checked: &Checked,
) -> Result<(), NoMemory>
    requires room { HasRoom 3 contents.old }
    ensures { OnOk result (contents.new ≡ with_type name checked.now contents.old) }
{
    let schema = checked.schema().copy(alloc)?;
    contents.types.names.note(alloc, name.word())?;
    contents.types.items.push(TypeDecl { name, schema })
}
