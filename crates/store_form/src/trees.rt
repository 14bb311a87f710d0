// The tree of a schema in a payload.
ghost use Rattle.std.specs.Prelude.{◌≡◌, ◌≤◌, ◌∷◌, ◌++◌, length, map, IsErrOf, OnOk};
ghost use Rattle.wsm_schema.specs.{TreeOf.{part_of, parts_of, lane_of, lanes_of}, Tree.{act, lanes}};
ghost use Rattle.store_form.specs.{Given.Gives, Payload.{part_bytes, parts_bytes, lanes_bytes, body_bytes, branches_bytes}, Reading.{as_at, part_at, body_at, lane_at, lanes_at, block_behind, many_at, u32_at}, Shrinking.HasBytesForCount};
ghost use Rattle.store_form.specs.Stored.{FitsPart, FitsParts, FitsLanes, FitsItems, FitsBranches};

use crate::fields::{Part, ReadFault, put_tagged};
use crate::lists::put_count;
use adept_io::NoMemory;
use std::alloc::Global;
use wsm_schema::{Block, Branch, Branches, Items};

// Puts a block: its tag, and its fields.
#[cycle(put)]
fn put_block(block: &Block, out: &mut Vec<u8>) -> Result<(), NoMemory>
    ensures bytes { OnOk result (out.new.items ≡ out.old.items ++ part_bytes (part_of block.now)) }
    ensures fits { OnOk result (FitsPart (part_of block.now)) }
{
    match block {
        Block::Act(node) => put_tagged(0, *node, out),
        Block::And {
            split,
            join,
            branches,
        } => {
            put_tagged(1, (*split, *join), out)?;
            put_branches(branches, out)
        }
        Block::Xor {
            split,
            join,
            branches,
        } => {
            put_tagged(2, (*split, *join), out)?;
            put_branches(branches, out)
        }
        Block::Loop { start, end, body } => {
            put_tagged(3, (*start, *end), out)?;
            put_items(body, out)
        }
    }
}

// Puts the number of the items, and each of them.
#[cycle(put)]
pub(crate) fn put_items(items: &[Block], out: &mut Vec<u8>) -> Result<(), NoMemory>
    ensures bytes { OnOk result (out.new.items ≡ out.old.items ++ body_bytes (parts_of items.now)) }
    ensures fits { OnOk result (FitsItems (parts_of items.now)) }
{
    put_count(items.len(), out)?;
    put_each_item(items, out)
}

#[cycle(put)]
fn put_each_item(items: &[Block], out: &mut Vec<u8>) -> Result<(), NoMemory>
    ensures bytes { OnOk result (out.new.items ≡ out.old.items ++ parts_bytes (parts_of items.now)) }
    ensures fits { OnOk result (FitsParts (parts_of items.now)) }
{
    for i in 0..items.len() {
        put_block(&items[i], out)?;
    }
    Ok(())
}

// Puts the number of the branches, and each of them with its code.
#[cycle(put)]
fn put_branches(branches: &[Branch], out: &mut Vec<u8>) -> Result<(), NoMemory>
    ensures bytes { OnOk result (out.new.items ≡ out.old.items ++ branches_bytes (lanes (lanes_of branches.now))) }
    ensures fits { OnOk result (FitsBranches (lanes (lanes_of branches.now))) }
{
    put_count(branches.len(), out)?;
    put_each_branch(branches, out)
}

#[cycle(put)]
fn put_each_branch(branches: &[Branch], out: &mut Vec<u8>) -> Result<(), NoMemory>
    ensures bytes { OnOk result (out.new.items ≡ out.old.items ++ lanes_bytes (lanes (lanes_of branches.now))) }
    ensures fits { OnOk result (FitsLanes (lanes (lanes_of branches.now))) }
{
    for i in 0..branches.len() {
        let branch = &branches[i];
        branch.code.put(out)?;
        put_items(&branch.items, out)?;
    }
    Ok(())
}

// Reads a block, in which at most so many stand one inside another.
#[cycle(read)]
fn read_block(alloc: Global, deep: u32, from: &[u8]) -> Result<(Block, &[u8]), ReadFault>
    ensures { Gives (λ x. (part_of x.0, x.1.now)) result (part_at deep from.now) }
{
    let [tag, rest @ ..] = from else {
        return Err(ReadFault::Malformed);
    };
    read_tagged(alloc, deep, *tag, rest)
}

// Reads what stands behind a block's tag.
#[cycle(read)]
fn read_tagged(alloc: Global, deep: u32, tag: u8, from: &[u8]) -> Result<(Block, &[u8]), ReadFault>
    ensures { Gives (λ x. (part_of x.0, x.1.now)) result (part_at deep (tag ∷ from.now)) }
{
    if tag == 0 {
        return read_activity(alloc, from);
    }
    if deep == 0 {
        return Err(ReadFault::Malformed);
    }
    read_round(alloc, deep - 1, tag, from)
}

// Reads the node of an activity.
fn read_activity(alloc: Global, from: &[u8]) -> Result<(Block, &[u8]), ReadFault>
    ensures { Gives (λ x. (part_of x.0, x.1.now)) result (as_at act u32_at from.now) }
{
    let (node, rest) = u32::read(alloc, from)?;
    Ok((Block::Act(node), rest))
}

// Reads the block of a tag round others, in which at most so many stand one inside another.
#[cycle(read)]
fn read_round(alloc: Global, deep: u32, tag: u8, from: &[u8]) -> Result<(Block, &[u8]), ReadFault>
    ensures { Gives (λ x. (part_of x.0, x.1.now)) result (block_behind (part_at deep) tag from.now) }
{
    match tag {
        1 => {
            let (split, rest) = u32::read(alloc, from)?;
            let (join, rest) = u32::read(alloc, rest)?;
            let (branches, rest) = read_branches(alloc, deep, rest)?;
            let block = Block::And {
                split,
                join,
                branches,
            };
            Ok((block, rest))
        }
        2 => {
            let (split, rest) = u32::read(alloc, from)?;
            let (join, rest) = u32::read(alloc, rest)?;
            let (branches, rest) = read_branches(alloc, deep, rest)?;
            let block = Block::Xor {
                split,
                join,
                branches,
            };
            Ok((block, rest))
        }
        3 => {
            let (start, rest) = u32::read(alloc, from)?;
            let (end, rest) = u32::read(alloc, rest)?;
            let (body, rest) = read_items(alloc, deep, rest)?;
            Ok((Block::Loop { start, end, body }, rest))
        }
        _ => Err(ReadFault::Malformed),
    }
}

// Reads items behind their number.
#[cycle(read)]
pub(crate) fn read_items(alloc: Global, deep: u32, from: &[u8]) -> Result<(Items, &[u8]), ReadFault>
    ensures read { Gives (λ x. (parts_of x.0.items, x.1.now)) result (body_at (part_at deep) from.now) }
    ensures memory { IsErrOf result ReadFault.NoMemory → HasBytesForCount from.now }
{
    let (count, rest) = u32::read(alloc, from)?;
    read_each_item(alloc, deep, count, rest)
}

// Reads so many items, of which each takes a byte at least.
#[cycle(read)]
fn read_each_item(
    alloc: Global,
    deep: u32,
    count: u32,
    from: &[u8],
) -> Result<(Items, &[u8]), ReadFault>
    ensures read { Gives (λ x. (map part_of x.0.items, x.1.now)) result (many_at (part_at deep) count from.now) }
    ensures memory { IsErrOf result ReadFault.NoMemory → count ≤ length from.now }
{
    let mut items = Vec::new(alloc);
    if count as usize > from.len() {
        return Err(ReadFault::Malformed);
    }
    let mut rest = from;
    for _ in 0..count {
        let (item, after) = read_block(alloc, deep, rest)?;
        items.push(item)?;
        rest = after;
    }
    Ok((items, rest))
}

// Reads branches behind their number.
#[cycle(read)]
fn read_branches(alloc: Global, deep: u32, from: &[u8]) -> Result<(Branches, &[u8]), ReadFault>
    ensures read { Gives (λ x. (lanes (lanes_of x.0.items), x.1.now)) result (lanes_at (part_at deep) from.now) }
    ensures memory { IsErrOf result ReadFault.NoMemory → HasBytesForCount from.now }
{
    let (count, rest) = u32::read(alloc, from)?;
    read_each_branch(alloc, deep, count, rest)
}

// Reads so many branches, of which each takes a byte at least.
#[cycle(read)]
fn read_each_branch(
    alloc: Global,
    deep: u32,
    count: u32,
    from: &[u8],
) -> Result<(Branches, &[u8]), ReadFault>
    ensures read { Gives (λ x. (lanes_of x.0.items, x.1.now)) result (many_at (lane_at (part_at deep)) count from.now) }
    ensures memory { IsErrOf result ReadFault.NoMemory → count ≤ length from.now }
{
    let mut branches = Vec::new(alloc);
    if count as usize > from.len() {
        return Err(ReadFault::Malformed);
    }
    let mut rest = from;
    for _ in 0..count {
        let (branch, after) = read_branch(alloc, deep, rest)?;
        branches.push(branch)?;
        rest = after;
    }
    Ok((branches, rest))
}

// Reads a code and the items of its branch.
#[cycle(read)]
fn read_branch(alloc: Global, deep: u32, from: &[u8]) -> Result<(Branch, &[u8]), ReadFault>
    ensures { Gives (λ x. (lane_of x.0, x.1.now)) result (lane_at (part_at deep) from.now) }
{
    let (code, rest) = u16::read(alloc, from)?;
    let (items, rest) = read_items(alloc, deep, rest)?;
    Ok((Branch { code, items }, rest))
}
