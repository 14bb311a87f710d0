//! The values that the end of a node brings: which of them are wrong, and how right ones are recorded.
#![tactic(auto)]

ghost use Rattle.std.specs.{Prelude.{◌≡◌, ℕ, List, [], ◌++◌, map, filter, fold, IfOk, OnOk}, Option.option_copied};
ghost use Rattle.case_writes.specs.Writes.{number_key, is_wrong, is_right, only_value, writes_to, wrong_elements, by_element};
ghost use Rattle.wsm_lists.specs.{Keys.first, Rows.put_row};
ghost use Rattle.wsm_schema.specs.Trail.{is_one_of};

use std::alloc::Global;
use wsm_schema::{Flat, Keys, NoMemory, Nodes, Table, Value, Writes};

/// Numbers in ascending order, each once.
struct ByNumber;

impl Keys for ByNumber {
    type Row = u32;

    ghost key_of = { number_key };

    fn key(row: &u32) -> (u32, u32) {
        (*row, 0)
    }
}

/// Writes in ascending order of their elements, one for each.
struct ByWritten;

impl Keys for ByWritten {
    type Row = (u32, Value);

    ghost key_of = { first };

    fn key(row: &(u32, Value)) -> (u32, u32) {
        (row.0, 0)
    }
}

/// The elements for which the writes are wrong, ascending.
pub fn wrong_elements(
    alloc: Global,
    flat: &Flat,
    edges: &[u32],
    writes: &[(u32, Value)],
) -> Result<Nodes, NoMemory>
    ensures { IfOk result (λ wrong. wrong ≡ wrong_elements flat.now.elements edges.now writes.now) }
{
    let mut wrong = Table::new(alloc);
    add_wrong_edges(&mut wrong, flat, edges, writes)?;
    add_wrong_writes(&mut wrong, flat, edges, writes)?;
    Ok(Nodes::from_vec(wrong.into_vec()))
}

fn add_wrong_edges(
    wrong: &mut Table<ByNumber>,
    flat: &Flat,
    edges: &[u32],
    writes: &[(u32, Value)],
) -> Result<(), NoMemory>
    ensures { OnOk result (wrong.new ≡ fold (λ sorted n. put_row number_key n sorted) wrong.old (filter (is_wrong flat.now.elements edges.now writes.now) edges.now)) }
{
    for element in edges {
        if is_wrong(flat, edges, writes, *element) {
            wrong.set(*element)?;
        }
    }
    Ok(())
}

fn add_wrong_writes(
    wrong: &mut Table<ByNumber>,
    flat: &Flat,
    edges: &[u32],
    writes: &[(u32, Value)],
) -> Result<(), NoMemory>
    ensures { OnOk result (wrong.new ≡ fold (λ sorted n. put_row number_key n sorted) wrong.old (filter (is_wrong flat.now.elements edges.now writes.now) (map (λ w. w.0) writes.now))) }
{
    for write in writes {
        if is_wrong(flat, edges, writes, write.0) {
            wrong.set(write.0)?;
        }
    }
    Ok(())
}

fn is_wrong(flat: &Flat, edges: &[u32], writes: &[(u32, Value)], element: u32) -> bool
    ensures { result ≡ is_wrong flat.now.elements edges.now writes.now element }
{
    !(is_one_of(element, edges) && is_right(flat, only_value(writes, element), element))
}

// Whether there is a value, of the element's kind.
fn is_right(flat: &Flat, value: Option<&Value>, element: u32) -> bool
    ensures { result ≡ is_right flat.now.elements (option_copied value.entry) element }
{
    match value {
        None => false,
        Some(value) => flat.kind(element) == Some(value.kind()),
    }
}

// The value that is written to the element, where exactly one is.
fn only_value(writes: &[(u32, Value)], element: u32) -> Option<&Value>
    ensures { option_copied result ≡ only_value (writes_to element writes.now) }
{
    let mut found = None;
    for write in writes {
        if write.0 == element {
            if found.is_some() {
                return None;
            }
            found = Some(&write.1);
        }
    }
    found
}

/// The writes in ascending order of their elements.
pub fn by_element(alloc: Global, writes: &Writes) -> Result<Writes, NoMemory>
    ensures { IfOk result (λ sorted. sorted ≡ by_element writes.now) }
{
    let mut sorted = Table::new(alloc);
    for write in writes.as_slice() {
        add_write(alloc, &mut sorted, write)?;
    }
    Ok(Writes::from_vec(sorted.into_vec()))
}

fn add_write(
    alloc: Global,
    sorted: &mut Table<ByWritten>,
    write: &(u32, Value),
) -> Result<(), NoMemory>
    ensures { OnOk result (sorted.new ≡ put_row first write.now sorted.old) }
{
    sorted.set((write.0, write.1.copy(alloc)?))
}

/// Whether the number is among these.
pub fn is_one_of(number: u32, numbers: &[u32]) -> bool
    ensures { result ≡ is_one_of number numbers.now }
{
    numbers.iter().any(|n| *n == number)
}
