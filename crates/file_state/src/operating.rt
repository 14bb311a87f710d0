// Lines of a group of operations.
ghost use Rattle.std.specs.Prelude.{◌≡◌, [], ◌∷◌, ◌++◌, Ok, Some, IfOk, IfErr, OnOk};
ghost use Rattle.file_forms.specs.{NamesInForms.RoleHas, Shown.{shown_role, shown_place, shown_operation}, Forms.{insert, delete, move, sync, unsync, element, read, unread, write, unwrite, set_role}};
ghost use Rattle.file_model.specs.{Outcomes.Stops, Room.HasRoom, ShortForms.{IsShort, IsShortGap, IsShortOperation}, Steps.{at_place, node_in, with_node}, Operating.{gap_in, with_place, op_in, with_names, line_of_group, grouped, operated}};

use crate::contents::{
    element_number, node_and_element_numbers, node_number, node_numbers, role_number,
};
use crate::scripting::push_line;
use file_forms::{NamedGap, OperationLine, RoleWord};
use file_limits::MAX_OPS;
use file_model::{Act, Contents, FileLimit, Group, Line, Section, Stop, Target, Why};
use file_words::NameWord;
use std::alloc::Global;
use wsm_lists::{ElementKind, NoMemory};
use wsm_ops::{Gap, Op, Ops};

// The script line of a group that has ended.
fn line_of_group(group: Group) -> Line
    ensures { result ≡ line_of_group group }
{
    let act = match group.target {
        Target::Case(id) => Act::Change { id, ops: group.ops },
        Target::Type(type_no) => Act::Install {
            type_no,
            ops: group.ops,
        },
    };
    Line {
        at: group.at,
        order: group.order,
        actor: group.actor,
        act,
    }
}

/// A line of a group.
pub fn operated(
    contents: &mut Contents,
    alloc: Global,
    group: Group,
    line: OperationLine<'_>,
) -> Result<Section, Stop>
    requires short { IsShortOperation (shown_operation line) }
    requires room { HasRoom 6 contents.old }
    ensures ok { IfOk result (λ next. operated (shown_operation line.entry) group contents.old ≡ Ok (at_place next contents.new)) }
    ensures refused { IfErr result (λ stop. Stops (operated (shown_operation line.entry) group contents.old) contents.new stop) }
{
    let found = operation(contents, alloc, line)?;
    grouped(contents, alloc, group, found)
}

fn grouped(
    contents: &mut Contents,
    alloc: Global,
    group: Group,
    found: Option<Op>,
) -> Result<Section, Stop>
    ensures ok { IfOk result (λ next. grouped found group contents.old ≡ Ok (at_place next contents.new)) }
    ensures refused { IfErr result (λ stop. Stops (grouped found group contents.old) contents.new stop) }
{
    match found {
        None => {
            push_line(contents, alloc, line_of_group(group))?;
            Ok(Section::Outside)
        }
        Some(op) => with_operation(contents, alloc, group, op),
    }
}

fn with_operation(
    contents: &mut Contents,
    alloc: Global,
    group: Group,
    op: Op,
) -> Result<Section, Stop>
    ensures ok { IfOk result (λ next. grouped (Some op) group contents.old ≡ Ok (at_place next contents.new)) }
    ensures refused { IfErr result (λ stop. Stops (grouped (Some op) group contents.old) contents.new stop) }
{
    if group.ops.len() >= MAX_OPS {
        return Err(Stop::Refused(Why::Limit(FileLimit::Ops)));
    }
    let mut longer = group;
    longer.ops = with_one(alloc, longer.ops, op)?;
    Ok(Section::InGroup(longer))
}

// One more operation. Most groups have one alone, and take no room for more.
fn with_one(alloc: Global, ops: Ops, op: Op) -> Result<Ops, NoMemory>
    ensures { IfOk result (λ longer. longer ≡ ops ++ op ∷ []) }
{
    if ops.is_empty() {
        return Ops::of_one(alloc, op);
    }
    let mut longer = ops;
    longer.push(op)?;
    Ok(longer)
}

// The operation of a line. None where the group ends.
fn operation(
    contents: &mut Contents,
    alloc: Global,
    line: OperationLine<'_>,
) -> Result<Option<Op>, NoMemory>
    requires short { IsShortOperation (shown_operation line) }
    requires room { HasRoom 6 contents.old }
    ensures noted { OnOk result (contents.new ≡ with_names (shown_operation line.entry) contents.old) }
    ensures op { IfOk result (λ found. found ≡ op_in (shown_operation line.entry) contents.old) }
{
    match line {
        OperationLine::Insert { node, role, place } => insertion(
            contents, alloc, node, role, place,
        ),
        OperationLine::Parallel {
            node,
            role,
            split,
            join,
            first,
            last,
        } => parallel_insertion(contents, alloc, node, role, split, join, first, last),
        OperationLine::Conditional {
            node,
            role,
            split,
            join,
            place,
        } => conditional_insertion(contents, alloc, node, role, split, join, place),
        OperationLine::Delete(node) => deletion(contents, alloc, node),
        OperationLine::Move { node, place } => movement(contents, alloc, node, place),
        OperationLine::Sync { source, target } => new_sync(contents, alloc, source, target),
        OperationLine::Unsync { source, target } => lost_sync(contents, alloc, source, target),
        OperationLine::Element { element, kind } => new_element(contents, alloc, element, kind),
        OperationLine::Read {
            node,
            element,
            mandatory,
        } => new_read(contents, alloc, node, element, mandatory),
        OperationLine::Unread { node, element } => lost_read(contents, alloc, node, element),
        OperationLine::Write { node, element } => new_write(contents, alloc, node, element),
        OperationLine::Unwrite { node, element } => lost_write(contents, alloc, node, element),
        OperationLine::Role { node, role } => new_role(contents, alloc, node, role),
        OperationLine::GroupEnd => Ok(None),
    }
}

fn gap(contents: &mut Contents, alloc: Global, place: NamedGap<'_>) -> Result<Gap, NoMemory>
    requires short { IsShortGap (shown_place place) }
    requires room { HasRoom 1 contents.old }
    ensures noted { OnOk result (contents.new ≡ with_place (shown_place place.entry) contents.old) }
    ensures gap { IfOk result (λ gap. gap ≡ gap_in (shown_place place.entry) contents.old) }
{
    match place {
        NamedGap::After(node) => Ok(Gap::After(node_number(contents, alloc, node)?)),
        NamedGap::Head { split, code } => Ok(Gap::Head(node_number(contents, alloc, split)?, code)),
    }
}

fn insertion(
    contents: &mut Contents,
    alloc: Global,
    node: NameWord<'_>,
    role: RoleWord<'_>,
    place: NamedGap<'_>,
) -> Result<Option<Op>, NoMemory>
    requires short { IsShort node.bytes.now × RoleHas IsShort (shown_role role) × IsShortGap (shown_place place) }
    requires room { HasRoom 6 contents.old }
    ensures noted { OnOk result (contents.new ≡ with_names (insert node.entry.bytes.now (shown_role role.entry) (shown_place place.entry)) contents.old) }
    ensures op { IfOk result (λ found. found ≡ op_in (insert node.entry.bytes.now (shown_role role.entry) (shown_place place.entry)) contents.old) }
{
    let node = node_number(contents, alloc, node)?;
    let gap = gap(contents, alloc, place)?;
    let role = role_number(contents, alloc, role)?;
    Ok(Some(Op::InsertSerial { node, role, gap }))
}

fn parallel_insertion(
    contents: &mut Contents,
    alloc: Global,
    node: NameWord<'_>,
    role: RoleWord<'_>,
    split: NameWord<'_>,
    join: NameWord<'_>,
    first: NameWord<'_>,
    last: NameWord<'_>,
) -> Result<Option<Op>, NoMemory>
    requires short { IsShort node.bytes.now × RoleHas IsShort (shown_role role) × IsShort split.bytes.now × IsShort join.bytes.now × IsShort first.bytes.now × IsShort last.bytes.now }
    requires room { HasRoom 6 contents.old }
    ensures noted { OnOk result (contents.new ≡ with_names (shown_operation (OperationLine.Parallel node.entry role.entry split.entry join.entry first.entry last.entry)) contents.old) }
    ensures op { IfOk result (λ found. found ≡ op_in (shown_operation (OperationLine.Parallel node.entry role.entry split.entry join.entry first.entry last.entry)) contents.old) }
{
    let node = node_number(contents, alloc, node)?;
    let (split, join) = node_numbers(contents, alloc, split, join)?;
    let (first, last) = node_numbers(contents, alloc, first, last)?;
    let role = role_number(contents, alloc, role)?;
    Ok(Some(Op::InsertParallel {
        node,
        role,
        split,
        join,
        first,
        last,
    }))
}

fn conditional_insertion(
    contents: &mut Contents,
    alloc: Global,
    node: NameWord<'_>,
    role: RoleWord<'_>,
    split: NameWord<'_>,
    join: NameWord<'_>,
    place: NamedGap<'_>,
) -> Result<Option<Op>, NoMemory>
    requires short { IsShort node.bytes.now × RoleHas IsShort (shown_role role) × IsShort split.bytes.now × IsShort join.bytes.now × IsShortGap (shown_place place) }
    requires room { HasRoom 6 contents.old }
    ensures noted { OnOk result (contents.new ≡ with_names (shown_operation (OperationLine.Conditional node.entry role.entry split.entry join.entry place.entry)) contents.old) }
    ensures op { IfOk result (λ found. found ≡ op_in (shown_operation (OperationLine.Conditional node.entry role.entry split.entry join.entry place.entry)) contents.old) }
{
    let node = node_number(contents, alloc, node)?;
    let (split, join) = node_numbers(contents, alloc, split, join)?;
    let gap = gap(contents, alloc, place)?;
    let role = role_number(contents, alloc, role)?;
    Ok(Some(Op::InsertConditional {
        node,
        role,
        split,
        join,
        gap,
    }))
}

fn deletion(
    contents: &mut Contents,
    alloc: Global,
    node: NameWord<'_>,
) -> Result<Option<Op>, NoMemory>
    requires short { IsShort node.bytes.now }
    requires room { HasRoom 6 contents.old }
    ensures noted { OnOk result (contents.new ≡ with_names (delete node.entry.bytes.now) contents.old) }
    ensures op { IfOk result (λ found. found ≡ op_in (delete node.entry.bytes.now) contents.old) }
{
    let node = node_number(contents, alloc, node)?;
    Ok(Some(Op::DeleteActivity { node }))
}

fn movement(
    contents: &mut Contents,
    alloc: Global,
    node: NameWord<'_>,
    place: NamedGap<'_>,
) -> Result<Option<Op>, NoMemory>
    requires short { IsShort node.bytes.now × IsShortGap (shown_place place) }
    requires room { HasRoom 6 contents.old }
    ensures noted { OnOk result (contents.new ≡ with_names (move node.entry.bytes.now (shown_place place.entry)) contents.old) }
    ensures op { IfOk result (λ found. found ≡ op_in (move node.entry.bytes.now (shown_place place.entry)) contents.old) }
{
    let node = node_number(contents, alloc, node)?;
    let gap = gap(contents, alloc, place)?;
    Ok(Some(Op::MoveActivity { node, gap }))
}

fn new_sync(
    contents: &mut Contents,
    alloc: Global,
    source: NameWord<'_>,
    target: NameWord<'_>,
) -> Result<Option<Op>, NoMemory>
    requires short { IsShort source.bytes.now × IsShort target.bytes.now }
    requires room { HasRoom 6 contents.old }
    ensures noted { OnOk result (contents.new ≡ with_names (sync source.entry.bytes.now target.entry.bytes.now) contents.old) }
    ensures op { IfOk result (λ found. found ≡ op_in (sync source.entry.bytes.now target.entry.bytes.now) contents.old) }
{
    let (source, target) = node_numbers(contents, alloc, source, target)?;
    Ok(Some(Op::InsertSync { source, target }))
}

fn lost_sync(
    contents: &mut Contents,
    alloc: Global,
    source: NameWord<'_>,
    target: NameWord<'_>,
) -> Result<Option<Op>, NoMemory>
    requires short { IsShort source.bytes.now × IsShort target.bytes.now }
    requires room { HasRoom 6 contents.old }
    ensures noted { OnOk result (contents.new ≡ with_names (unsync source.entry.bytes.now target.entry.bytes.now) contents.old) }
    ensures op { IfOk result (λ found. found ≡ op_in (unsync source.entry.bytes.now target.entry.bytes.now) contents.old) }
{
    let (source, target) = node_numbers(contents, alloc, source, target)?;
    Ok(Some(Op::DeleteSync { source, target }))
}

fn new_element(
    contents: &mut Contents,
    alloc: Global,
    name: NameWord<'_>,
    kind: ElementKind,
) -> Result<Option<Op>, NoMemory>
    requires short { IsShort name.bytes.now }
    requires room { HasRoom 6 contents.old }
    ensures noted { OnOk result (contents.new ≡ with_names (element name.entry.bytes.now kind) contents.old) }
    ensures op { IfOk result (λ found. found ≡ op_in (element name.entry.bytes.now kind) contents.old) }
{
    let element = element_number(contents, alloc, name)?;
    Ok(Some(Op::AddElement { element, kind }))
}

fn new_read(
    contents: &mut Contents,
    alloc: Global,
    node: NameWord<'_>,
    element: NameWord<'_>,
    mandatory: bool,
) -> Result<Option<Op>, NoMemory>
    requires short { IsShort node.bytes.now × IsShort element.bytes.now }
    requires room { HasRoom 6 contents.old }
    ensures noted { OnOk result (contents.new ≡ with_names (read node.entry.bytes.now element.entry.bytes.now mandatory) contents.old) }
    ensures op { IfOk result (λ found. found ≡ op_in (read node.entry.bytes.now element.entry.bytes.now mandatory) contents.old) }
{
    let (node, element) = node_and_element_numbers(contents, alloc, node, element)?;
    Ok(Some(Op::AddRead {
        node,
        element,
        mandatory,
    }))
}

fn lost_read(
    contents: &mut Contents,
    alloc: Global,
    node: NameWord<'_>,
    element: NameWord<'_>,
) -> Result<Option<Op>, NoMemory>
    requires short { IsShort node.bytes.now × IsShort element.bytes.now }
    requires room { HasRoom 6 contents.old }
    ensures noted { OnOk result (contents.new ≡ with_names (unread node.entry.bytes.now element.entry.bytes.now) contents.old) }
    ensures op { IfOk result (λ found. found ≡ op_in (unread node.entry.bytes.now element.entry.bytes.now) contents.old) }
{
    let (node, element) = node_and_element_numbers(contents, alloc, node, element)?;
    Ok(Some(Op::RemoveRead { node, element }))
}

fn new_write(
    contents: &mut Contents,
    alloc: Global,
    node: NameWord<'_>,
    element: NameWord<'_>,
) -> Result<Option<Op>, NoMemory>
    requires short { IsShort node.bytes.now × IsShort element.bytes.now }
    requires room { HasRoom 6 contents.old }
    ensures noted { OnOk result (contents.new ≡ with_names (write node.entry.bytes.now element.entry.bytes.now) contents.old) }
    ensures op { IfOk result (λ found. found ≡ op_in (write node.entry.bytes.now element.entry.bytes.now) contents.old) }
{
    let (node, element) = node_and_element_numbers(contents, alloc, node, element)?;
    Ok(Some(Op::AddWrite { node, element }))
}

fn lost_write(
    contents: &mut Contents,
    alloc: Global,
    node: NameWord<'_>,
    element: NameWord<'_>,
) -> Result<Option<Op>, NoMemory>
    requires short { IsShort node.bytes.now × IsShort element.bytes.now }
    requires room { HasRoom 6 contents.old }
    ensures noted { OnOk result (contents.new ≡ with_names (unwrite node.entry.bytes.now element.entry.bytes.now) contents.old) }
    ensures op { IfOk result (λ found. found ≡ op_in (unwrite node.entry.bytes.now element.entry.bytes.now) contents.old) }
{
    let (node, element) = node_and_element_numbers(contents, alloc, node, element)?;
    Ok(Some(Op::RemoveWrite { node, element }))
}

fn new_role(
    contents: &mut Contents,
    alloc: Global,
    node: NameWord<'_>,
    role: RoleWord<'_>,
) -> Result<Option<Op>, NoMemory>
    requires short { IsShort node.bytes.now × RoleHas IsShort (shown_role role) }
    requires room { HasRoom 6 contents.old }
    ensures noted { OnOk result (contents.new ≡ with_names (set_role node.entry.bytes.now (shown_role role.entry)) contents.old) }
    ensures op { IfOk result (λ found. found ≡ op_in (set_role node.entry.bytes.now (shown_role role.entry)) contents.old) }
{
    let node = node_number(contents, alloc, node)?;
    let role = role_number(contents, alloc, role)?;
    Ok(Some(Op::SetRole { node, role }))
}
