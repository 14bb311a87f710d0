// What was read so far: names and refusals.
ghost use Rattle.std.specs.Prelude.{◌≡◌, ◌≤◌, ◌+◌, length, map, Err, IfOk, OnOk};
ghost use Rattle.wsm_lists.specs.Rows.{AllRows};
ghost use Rattle.file_forms.specs.{NamesInForms.RoleHas, Shown.shown_role};
ghost use Rattle.file_model.specs.{Declaring.{role_numbers, with_roles}, Outcomes.Tells, Reading.refused, Room.{HasRoom, count_of_names}, ShortForms.IsShort, Steps.{no_contents, node_in, with_node, element_in, with_element, node_behind}};
ghost use Rattle.file_model.specs.Steps.{with_nodes, element_behind, with_node_and_element, role_in, with_role};

use crate::texts::text_of;
use file_forms::RoleWord;
use file_limits::{FIRST_NAMED_ROLE, MAX_ACTORS, MAX_CASES, MAX_MIGRATIONS, MAX_TYPES};
use file_model::{CaseTable, Contents, Counts, FileRefusal, Limits, Phases, Refused, Why};
use file_names::{DeclaredList, NameTable};
use file_words::NameWord;
use std::alloc::Global;
use wsm_lists::{NoMemory, RoleList};

/// Before the first line.
pub fn no_contents(alloc: Global) -> Result<Contents, NoMemory>
    ensures { IfOk result (λ contents. contents ≡ no_contents) }
{
    let nodes = NameTable::start_and_finish(alloc)?;
    Ok(Contents {
        limits: Limits {
            types: MAX_TYPES as u32,
            actors: MAX_ACTORS as u32,
            cases: MAX_CASES as u32,
            migrations: MAX_MIGRATIONS as u32,
        },
        format: 1,
        nodes,
        elements: NameTable::new(alloc),
        roles: NameTable::new(alloc),
        types: DeclaredList::new(alloc),
        actors: DeclaredList::new(alloc),
        cases: CaseTable::new(alloc),
        phases: Phases::new(alloc),
        current: None,
        counts: Counts {
            lines: 0,
            installs: 0,
            migrations: 0,
        },
    })
}

/// The refusal of a file at a line, or want of memory for its text.
pub fn refusal(contents: &Contents, alloc: Global, at: u32, why: Why) -> FileRefusal
    ensures { Tells (Err (refused at why contents.now)) result }
{
    match text_of(alloc, &contents.nodes, &contents.elements, why) {
        Ok(text) => FileRefusal::Refused(Refused {
            line: at,
            why,
            text,
        }),
        Err(_) => FileRefusal::NoMemory,
    }
}

/// The number of a node, which gets the next one where it has none.
#[tactic(auto, using(file_model::proofs::Grown::node_grown))]
pub fn node_number(
    contents: &mut Contents,
    alloc: Global,
    name: NameWord<'_>,
) -> Result<u32, NoMemory>
    requires short { IsShort name.bytes.now }
    requires room { HasRoom 1 contents.old }
    ensures noted { OnOk result (contents.new ≡ with_node name.entry.bytes.now contents.old) }
    ensures number { IfOk result (λ number. number ≡ node_in name.entry.bytes.now contents.old) }
    ensures room { OnOk result (count_of_names contents.new ≤ count_of_names contents.old + 1) }
{
    contents.nodes.note(alloc, name)
}

/// The number of an element, which gets the next one where it has none.
#[tactic(auto, using(file_model::proofs::Grown::element_grown))]
pub fn element_number(
    contents: &mut Contents,
    alloc: Global,
    name: NameWord<'_>,
) -> Result<u32, NoMemory>
    requires short { IsShort name.bytes.now }
    requires room { HasRoom 1 contents.old }
    ensures noted { OnOk result (contents.new ≡ with_element name.entry.bytes.now contents.old) }
    ensures number { IfOk result (λ number. number ≡ element_in name.entry.bytes.now contents.old) }
    ensures room { OnOk result (count_of_names contents.new ≤ count_of_names contents.old + 1) }
{
    contents.elements.note(alloc, name)
}

/// The numbers of two nodes, in this order.
pub fn node_numbers(
    contents: &mut Contents,
    alloc: Global,
    a: NameWord<'_>,
    b: NameWord<'_>,
) -> Result<(u32, u32), NoMemory>
    requires short { IsShort a.bytes.now × IsShort b.bytes.now }
    requires room { HasRoom 2 contents.old }
    ensures noted { OnOk result (contents.new ≡ with_nodes a.entry.bytes.now b.entry.bytes.now contents.old) }
    ensures numbers { IfOk result (λ p. p ≡ (node_in a.entry.bytes.now contents.old, node_behind a.entry.bytes.now b.entry.bytes.now contents.old)) }
    ensures room { OnOk result (count_of_names contents.new ≤ count_of_names contents.old + 2) }
{
    let first = node_number(contents, alloc, a)?;
    let second = node_number(contents, alloc, b)?;
    Ok((first, second))
}

/// The numbers of a node and of an element, in this order.
pub fn node_and_element_numbers(
    contents: &mut Contents,
    alloc: Global,
    node: NameWord<'_>,
    element: NameWord<'_>,
) -> Result<(u32, u32), NoMemory>
    requires short { IsShort node.bytes.now × IsShort element.bytes.now }
    requires room { HasRoom 2 contents.old }
    ensures noted { OnOk result (contents.new ≡ with_node_and_element node.entry.bytes.now element.entry.bytes.now contents.old) }
    ensures numbers { IfOk result (λ p. p ≡ (node_in node.entry.bytes.now contents.old, element_behind node.entry.bytes.now element.entry.bytes.now contents.old)) }
    ensures room { OnOk result (count_of_names contents.new ≤ count_of_names contents.old + 2) }
{
    let first = node_number(contents, alloc, node)?;
    let second = element_number(contents, alloc, element)?;
    Ok((first, second))
}

/// The number of a role. A name gets the next one where it has none.
#[tactic(auto, using(file_model::proofs::Grown::role_grown))]
pub fn role_number(
    contents: &mut Contents,
    alloc: Global,
    role: RoleWord<'_>,
) -> Result<u32, NoMemory>
    requires short { RoleHas IsShort (shown_role role) }
    requires room { HasRoom 1 contents.old }
    ensures noted { OnOk result (contents.new ≡ with_role (shown_role role.entry) contents.old) }
    ensures number { IfOk result (λ number. number ≡ role_in (shown_role role.entry) contents.old) }
    ensures room { OnOk result (count_of_names contents.new ≤ count_of_names contents.old + 1) }
{
    match role {
        RoleWord::Number(number) => Ok(number),
        RoleWord::Name(name) => Ok(FIRST_NAMED_ROLE + contents.roles.note(alloc, name)?),
    }
}

/// The numbers of roles, one after another.
pub fn role_numbers(
    contents: &mut Contents,
    alloc: Global,
    roles: &[RoleWord<'_>],
) -> Result<RoleList, NoMemory>
    requires short { AllRows (RoleHas IsShort) (map shown_role roles.now) }
    requires room { HasRoom (length roles.now) contents.old }
    ensures noted { OnOk result (contents.new ≡ with_roles (map shown_role roles.now) contents.old) }
    ensures numbers { IfOk result (λ numbers. numbers ≡ role_numbers contents.old.roles (map shown_role roles.now)) }
    ensures room { OnOk result (count_of_names contents.new ≤ count_of_names contents.old + length roles.now) }
{
    let mut numbers = RoleList::new(alloc);
    for role in roles {
        numbers.push(role_number(contents, alloc, *role)?)?;
    }
    Ok(numbers)
}
