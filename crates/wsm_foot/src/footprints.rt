// The names that lists of operations change and use.
ghost use Rattle.std.specs.{Prelude.{◌≡◌, ◌++◌, [], ◌∷◌, IfOk, OnOk, flat_map}, BTreeSet.{contains, IsFromIterResult}};
ghost use Rattle.wsm_foot.specs.{Order.name_cmp, declared.names.Name.Name, Foot.{gap_name, gap_owner, changes, uses, all_changes, footprint, is_among}};
ghost use Rattle.wsm_foot.specs.declared.names.Name.TheVariants as name;

use crate::names::Name;
use std::alloc::Global;
use std::collections::BTreeSet;
use wsm_lists::NoMemory;
use wsm_ops::{Gap, Op, Ops};

// A gap.
fn gap_name(gap: Gap) -> Name
    ensures { result ≡ gap_name gap }
{
    match gap {
        Gap::After(node) => Name::GapAfter(node),
        Gap::Head(split, code) => Name::GapHead(split, code),
    }
}

// The node whose gap it is.
fn gap_owner(gap: Gap) -> Name
    ensures { result ≡ gap_owner gap }
{
    match gap {
        Gap::After(node) | Gap::Head(node, _) => Name::Node(node),
    }
}

// What an operation changes, at the end.
fn put_changes(all: &mut Vec<Name>, op: &Op) -> Result<(), NoMemory>
    ensures { OnOk result (all.new.items ≡ all.old.items ++ changes op.now) }
{
    match *op {
        Op::InsertSerial { node, gap, .. } => {
            all.extend_from_slice(&[Name::Node(node), Name::Role(node), gap_name(gap)])
        }
        Op::InsertParallel {
            node,
            split,
            join,
            last,
            ..
        } => {
            put_block(all, node, split, join)?;
            all.extend_from_slice(&[Name::Role(node), Name::GapAfter(last)])
        }
        Op::InsertConditional {
            node,
            split,
            join,
            gap,
            ..
        } => {
            put_block(all, node, split, join)?;
            all.extend_from_slice(&[Name::Role(node), Name::Role(split), gap_name(gap)])
        }
        Op::DeleteActivity { node } => all.extend_from_slice(&[Name::Node(node)]),
        Op::MoveActivity { node, gap } => {
            all.extend_from_slice(&[Name::Node(node), gap_name(gap)])
        }
        Op::InsertSync { source, target } | Op::DeleteSync { source, target } => {
            all.extend_from_slice(&[Name::Sync(source, target)])
        }
        Op::AddElement { element, .. } => all.extend_from_slice(&[Name::Element(element)]),
        Op::AddRead { node, element, .. } | Op::RemoveRead { node, element } => {
            all.extend_from_slice(&[Name::Read(node, element)])
        }
        Op::AddWrite { node, element } | Op::RemoveWrite { node, element } => {
            all.extend_from_slice(&[Name::Write(node, element)])
        }
        Op::SetRole { node, .. } => all.extend_from_slice(&[Name::Role(node)]),
    }
}

// The nodes of a new block.
fn put_block(all: &mut Vec<Name>, node: u32, split: u32, join: u32) -> Result<(), NoMemory>
    ensures { OnOk result (all.new.items ≡ all.old.items ++ (name.Node node ∷ name.Node split ∷ name.Node join ∷ [])) }
{
    all.extend_from_slice(&[Name::Node(node), Name::Node(split), Name::Node(join)])
}

// What an operation uses beside that, at the end.
fn put_uses(all: &mut Vec<Name>, op: &Op) -> Result<(), NoMemory>
    ensures { OnOk result (all.new.items ≡ all.old.items ++ uses op.now) }
{
    match *op {
        Op::InsertSerial { gap, .. }
        | Op::InsertConditional { gap, .. }
        | Op::MoveActivity { gap, .. } => all.extend_from_slice(&[gap_owner(gap)]),
        Op::InsertParallel { first, last, .. } => {
            all.extend_from_slice(&[Name::Node(first), Name::Node(last)])
        }
        Op::DeleteActivity { .. } | Op::AddElement { .. } => Ok(()),
        Op::InsertSync { source, target } | Op::DeleteSync { source, target } => {
            all.extend_from_slice(&[Name::Node(source), Name::Node(target)])
        }
        Op::AddRead { node, element, .. }
        | Op::RemoveRead { node, element }
        | Op::AddWrite { node, element }
        | Op::RemoveWrite { node, element } => {
            all.extend_from_slice(&[Name::Node(node), Name::Element(element)])
        }
        Op::SetRole { node, .. } => all.extend_from_slice(&[Name::Node(node)]),
    }
}

/// All names that the operations change.
pub fn all_changes(alloc: Global, ops: &Ops) -> Result<Vec<Name>, NoMemory>
    ensures { IfOk result (λ names. names.items ≡ all_changes ops.now) }
{
    let mut all = Vec::new(alloc);
    for op in ops.as_slice() {
        put_changes(&mut all, op)?;
    }
    Ok(all)
}

// What all operations use, at the end.
fn put_all_uses(all: &mut Vec<Name>, ops: &Ops) -> Result<(), NoMemory>
    ensures { OnOk result (all.new.items ≡ all.old.items ++ flat_map uses ops.now) }
{
    for op in ops.as_slice() {
        put_uses(all, op)?;
    }
    Ok(())
}

// The names as a set.
fn set_of(alloc: Global, names: Vec<Name>) -> Result<BTreeSet<Name>, NoMemory>
    ensures { IfOk result (IsFromIterResult name_cmp names.items) }
{
    names.into_iter().collect(alloc)
}

/// All names that the operations change or use, those that they change first.
pub fn all_touched(alloc: Global, ops: &Ops) -> Result<Vec<Name>, NoMemory>
    ensures { IfOk result (λ names. names.items ≡ footprint ops.now) }
{
    let mut names = all_changes(alloc, ops)?;
    put_all_uses(&mut names, ops)?;
    Ok(names)
}

/// All names that the operations change or use, as a set.
pub fn footprint(alloc: Global, ops: &Ops) -> Result<BTreeSet<Name>, NoMemory>
    ensures { IfOk result (λ set. (n : Name) → contains name_cmp set n ≡ is_among (footprint ops.now) n) }
{
    let names = all_touched(alloc, ops)?;
    set_of(alloc, names)
}
