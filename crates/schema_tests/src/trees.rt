// The schemas of the tests. Their nodes start and finish are 0 and 1, and each block has the branches 0 and 1.
use std::alloc::Global;
use wsm_schema::{Block, Branch, Branches, Items, NoMemory, Schema};

pub fn schema_of(alloc: Global, body: Items) -> Schema {
    Schema::new(alloc, 0, 1, body)
}

/// One activity.
pub fn act(alloc: Global, node: u32) -> Result<Items, NoMemory> {
    Ok(vec![in alloc; Block::Act(node)]?)
}

fn branches(alloc: Global, zero: Items, one: Items) -> Result<Branches, NoMemory> {
    let zero = Branch {
        code: 0,
        items: zero,
    };
    let one = Branch {
        code: 1,
        items: one,
    };
    Ok(vec![in alloc; zero, one]?)
}

pub fn and(
    alloc: Global,
    split: u32,
    join: u32,
    zero: Items,
    one: Items,
) -> Result<Block, NoMemory> {
    Ok(Block::And {
        split,
        join,
        branches: branches(alloc, zero, one)?,
    })
}

pub fn xor(
    alloc: Global,
    split: u32,
    join: u32,
    zero: Items,
    one: Items,
) -> Result<Block, NoMemory> {
    Ok(Block::Xor {
        split,
        join,
        branches: branches(alloc, zero, one)?,
    })
}

/// An AND block with the activities 4 and 5 in its branches.
pub fn side_by_side(alloc: Global) -> Result<Schema, NoMemory> {
    let block = and(alloc, 2, 3, act(alloc, 4)?, act(alloc, 5)?)?;
    Ok(schema_of(alloc, vec![in alloc; block]?))
}
