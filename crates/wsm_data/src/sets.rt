// Sets of elements.
ghost use Rattle.std.specs.Prelude.{◌≡◌, ◌==◌, ◌||◌, ◌&&◌, ◌≤◌, [], length, IfOk, OnOk};
ghost use Rattle.wsm_lists.specs.Rows.{rows_below, key_lt};
ghost use Rattle.wsm_schema.specs.Trail.{is_one_of};
ghost use Rattle.wsm_data.specs.Sets.{number, Holds, InOrder};

use crate::merges::{joined_elements, shared_elements};
use std::alloc::Global;
use std::marker::Model;
use wsm_lists::NoMemory;

/// A set of elements: numbers that ascend.
#[derive(Drop)]
pub struct ElementSet {
    numbers: Vec<u32>,
}

impl Model for ElementSet {
    ghost use Rattle.std.specs.Prelude.{ℕ, List};
    ghost use Rattle.wsm_data.specs.Sets.{InOrder};

    ghost Value = { List ℕ };

    ghost view = { λ a. a.numbers.items };

    ghost invariant = { λ a. InOrder a.numbers.items };
}

impl ElementSet {
    /// The set without elements.
    pub fn new(alloc: Global) -> ElementSet
        ensures { result ≡ [] }
    {
        ElementSet {
            numbers: Vec::new(alloc),
        }
    }

    /// All elements.
    pub fn as_slice(&self) -> &[u32]
        ensures rows { result.now ≡ self.now }
        ensures order { InOrder result.now }
    {
        &self.numbers
    }

    /// An equal set.
    pub fn copy(&self, alloc: Global) -> Result<ElementSet, NoMemory>
        ensures { IfOk result (λ new. new ≡ self.now) }
    {
        Ok(ElementSet {
            numbers: Vec::from_slice(alloc, &self.numbers)?,
        })
    }

    /// Whether the element is one of the set, by a binary search.
    pub fn contains(&self, element: u32) -> bool
        ensures { result ≡ is_one_of element self.now }
    {
        let at = place_of(&self.numbers, element);
        stands_at(&self.numbers, at, element)
    }

    /// The set with one element more.
    pub fn add(&mut self, element: u32) -> Result<(), NoMemory>
        ensures { OnOk result (Holds self.new (λ d. is_one_of d self.old || element == d)) }
    {
        let at = place_of(&self.numbers, element);
        if stands_at(&self.numbers, at, element) {
            return Ok(());
        }
        self.numbers.insert(at, element)?;
        Ok(())
    }

    /// The set with the elements of a list in order too.
    pub fn add_all(&mut self, alloc: Global, elements: &[u32]) -> Result<(), NoMemory>
        requires { InOrder elements.now }
        ensures { OnOk result (Holds self.new (λ d. is_one_of d self.old || is_one_of d elements.now)) }
    {
        self.numbers = joined_elements(alloc, &self.numbers, elements)?;
        Ok(())
    }

    /// What the set and a list in order share.
    pub fn common(&self, alloc: Global, elements: &[u32]) -> Result<ElementSet, NoMemory>
        requires { InOrder elements.now }
        ensures { IfOk result (λ new. Holds new (λ d. is_one_of d self.now && is_one_of d elements.now)) }
    {
        Ok(ElementSet {
            numbers: shared_elements(alloc, &self.numbers, elements)?,
        })
    }
}

// How many numbers are below the element, by a binary search.
fn place_of(numbers: &[u32], element: u32) -> usize
    requires { InOrder numbers.now }
    ensures place { result ≡ rows_below number (element, 0) numbers.now }
    ensures bound { result ≤ length numbers.now }
{
    numbers.partition_point(|number| is_below(*number, element))
}

fn is_below(a: u32, b: u32) -> bool
    ensures { result ≡ key_lt (number a) (number b) }
{
    a < b
}

// Whether the element stands at its place.
fn stands_at(numbers: &[u32], at: usize, element: u32) -> bool
    requires order { InOrder numbers.now }
    requires place { at ≡ rows_below number (element, 0) numbers.now }
    ensures { result ≡ is_one_of element numbers.now }
{
    at < numbers.len() && numbers[at] == element
}
