// What two ascending lists of elements share, and both together.
ghost use Rattle.std.specs.Prelude.{◌≡◌, find, IsTrue, IfOk, ◌&&◌, ◌||◌, ◌++◌};
ghost use Rattle.wsm_data.specs.Sets.{InOrder, AllBelow, Holds};
ghost use Rattle.wsm_schema.specs.Trail.{is_one_of};

use std::alloc::Global;
use wsm_lists::NoMemory;

/// The first element of one list that stands in another.
pub fn shared_element(elements: &[u32], others: &[u32]) -> Option<u32>
    requires first { InOrder elements.now }
    requires second { InOrder others.now }
    ensures { result ≡ find (λ d. is_one_of d others.now) elements.now }
{
    if are_below(elements, others) || are_below(others, elements) {
        return None;
    }
    first_shared(elements, others)
}

// Whether all elements of one list are found to be below those of another.
fn are_below(lower: &[u32], upper: &[u32]) -> bool
    requires first { InOrder lower.now }
    requires second { InOrder upper.now }
    ensures { IsTrue result → AllBelow lower.now upper.now }
{
    if lower.is_empty() || upper.is_empty() {
        return true;
    }
    lower[lower.len() - 1] < upper[0]
}

// The first element of one list that stands in another, by one pass over both.
fn first_shared(elements: &[u32], others: &[u32]) -> Option<u32>
    requires first { InOrder elements.now }
    requires second { InOrder others.now }
    ensures { result ≡ find (λ d. is_one_of d others.now) elements.now }
{
    let mut i = 0;
    let mut j = 0;
    'both: while i < elements.len() && j < others.len() {
        if elements[i] == others[j] {
            return Some(elements[i]);
        }
        if elements[i] < others[j] {
            i += 1;
        } else {
            j += 1;
        }
    }
    None
}

/// What both lists have, in order, by one pass over both.
pub fn shared_elements(
    alloc: Global,
    elements: &[u32],
    others: &[u32],
) -> Result<Vec<u32>, NoMemory>
    requires first { InOrder elements.now }
    requires second { InOrder others.now }
    ensures order { IfOk result (λ new. InOrder new.items) }
    ensures members { IfOk result (λ new. Holds new.items (λ d. is_one_of d elements.now && is_one_of d others.now)) }
{
    let mut shared = Vec::new(alloc);
    let mut i = 0;
    let mut j = 0;
    'both: while i < elements.len() && j < others.len() {
        if elements[i] < others[j] {
            i += 1;
        } else if others[j] < elements[i] {
            j += 1;
        } else {
            shared.push(elements[i])?;
            i += 1;
        }
    }
    Ok(shared)
}

/// What is in one of the lists or in both, in order, by one pass over both.
pub fn joined_elements(
    alloc: Global,
    elements: &[u32],
    others: &[u32],
) -> Result<Vec<u32>, NoMemory>
    requires first { InOrder elements.now }
    requires second { InOrder others.now }
    ensures order { IfOk result (λ new. InOrder new.items) }
    ensures members { IfOk result (λ new. Holds new.items (λ d. is_one_of d elements.now || is_one_of d others.now)) }
{
    let mut all = Vec::new(alloc);
    let mut i = 0;
    let mut j = 0;
    'both: while i < elements.len() && j < others.len() {
        if elements[i] < others[j] {
            all.push(elements[i])?;
            i += 1;
        } else if others[j] < elements[i] {
            all.push(others[j])?;
            j += 1;
        } else {
            all.push(elements[i])?;
            i += 1;
            j += 1;
        }
    }
    with_rests(all, &elements[i..], &others[j..])
}

// The list, with what is left of two others, of which one is at its end.
fn with_rests(elements: Vec<u32>, rest: &[u32], other_rest: &[u32]) -> Result<Vec<u32>, NoMemory>
    ensures { IfOk result (λ new. new.items ≡ (elements.items ++ rest.now) ++ other_rest.now) }
{
    let mut all = elements;
    all.extend_from_slice(rest)?;
    all.extend_from_slice(other_rest)?;
    Ok(all)
}
