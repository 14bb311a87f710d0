// Numbers that stand twice.
ghost use Rattle.std.specs.Prelude.{◌≡◌, ◌≤◌, [], None, map, take, length, IfOk};
ghost use Rattle.wsm_schema.specs.{Sound.{twice, nodes_of}, Trail.is_one_of};
ghost use Rattle.wsm_block.specs.Ascents.{is_above, ascend_from};

use crate::heights::Heights;
use std::alloc::Global;
use wsm_schema::{Branch, Flat, NoMemory};

// The first node that stood earlier.
pub fn node_twice(flat: &Flat) -> Option<u32>
    ensures { result ≡ twice [] (nodes_of flat.now.cards) }
{
    let cards = flat.cards();
    for i in 0..cards.len() {
        let node = cards[i].node;
        if is_among(flat, node, i) {
            return Some(node);
        }
    }
    None
}

// Whether the node is one of those of the first so many cards.
fn is_among(flat: &Flat, node: u32, count: usize) -> bool
    requires { count ≤ length flat.now.cards }
    ensures { result ≡ is_one_of node (take count (nodes_of flat.now.cards)) }
{
    match flat.place(node) {
        Some(place) => place < count,
        None => false,
    }
}

// The first code that stood earlier. Most often the codes ascend, so that is asked first, which takes no memory.
pub fn code_twice(alloc: Global, branches: &[Branch]) -> Result<Option<u16>, NoMemory>
    ensures { IfOk result (λ found. found ≡ twice [] (map (λ b. b.code) branches.now)) }
{
    if are_ascending(branches) {
        return Ok(None);
    }
    let codes = Heights::of(alloc, codes_of(alloc, branches)?)?;
    Ok(first_twice(&codes, branches))
}

// Whether each code is above the one before it.
fn are_ascending(branches: &[Branch]) -> bool
    ensures { result ≡ ascend_from None (map (λ b. b.code) branches.now) }
{
    let mut last = None;
    for i in 0..branches.len() {
        let code = branches[i].code;
        if !is_above(last, code) {
            return false;
        }
        last = Some(code);
    }
    true
}

fn is_above(last: Option<u16>, code: u16) -> bool
    ensures { result ≡ is_above last code }
{
    match last {
        None => true,
        Some(last) => last < code,
    }
}

// The same, where the codes are found by binary searches.
fn first_twice(codes: &Heights, branches: &[Branch]) -> Option<u16>
    requires { codes.now ≡ map (λ b. b.code) branches.now }
    ensures { result ≡ twice [] (map (λ b. b.code) branches.now) }
{
    for i in 0..branches.len() {
        let code = branches[i].code;
        if codes.is_among(u32::from(code), i) {
            return Some(code);
        }
    }
    None
}

// The codes of branches.
fn codes_of(alloc: Global, branches: &[Branch]) -> Result<Vec<u32>, NoMemory>
    ensures { IfOk result (λ codes. codes.items ≡ map (λ b. b.code) branches.now) }
{
    branches
        .iter()
        .map(|branch| u32::from(branch.code))
        .collect(alloc)
}
