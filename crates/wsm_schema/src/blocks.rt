// The tree of blocks between start and finish.
ghost use Rattle.std.specs.Prelude.{◌≡◌, ◌-◌, ◌^◌, min, IfOk};
ghost use Rattle.wsm_schema.specs.{Sizes.{part_size, parts_size, lanes_size}, Tree.lanes, TreeOf.{part_of, parts_of, lanes_of}, Ends.{first_node, first_of, last_of}, Places.leaving};

use crate::cards::End;
use std::alloc::Global;
use wsm_lists::NoMemory;

/// Blocks one after another.
pub type Items = Vec<Block>;

/// The branches of a block, side by side.
pub type Branches = Vec<Branch>;

/// An activity, or a block with its first and its last node. All branches of an And are taken, one of a Xor.
#[cycle(tree)]
#[derive(Drop)]
pub enum Block {
    Act(u32),
    And {
        split: u32,
        join: u32,
        branches: Branches,
    },
    Xor {
        split: u32,
        join: u32,
        branches: Branches,
    },
    Loop {
        start: u32,
        end: u32,
        body: Items,
    },
}

/// One branch of a block, with its code. A branch without items is one edge from split to join.
#[cycle(tree)]
#[derive(Drop)]
pub struct Branch {
    pub code: u16,
    pub items: Items,
}

impl Block {
    /// The node that the edge into the block enters.
    pub fn first(&self) -> u32
        ensures { result ≡ first_of (part_of self.now) }
    {
        match self {
            Block::Act(node) => *node,
            Block::And { split, .. } => *split,
            Block::Xor { split, .. } => *split,
            Block::Loop { start, .. } => *start,
        }
    }

    /// The node that the edge out of the block leaves.
    pub fn last(&self) -> u32
        ensures { result ≡ last_of (part_of self.now) }
    {
        match self {
            Block::Act(node) => *node,
            Block::And { join, .. } => *join,
            Block::Xor { join, .. } => *join,
            Block::Loop { end, .. } => *end,
        }
    }
}

/// The first node of the items, or `otherwise` where there is none.
pub fn first_node(items: &[Block], otherwise: u32) -> u32
    ensures { result ≡ first_node (parts_of items.now) otherwise }
{
    match items {
        [] => otherwise,
        [block, ..] => block.first(),
    }
}

/// Where the edge comes from that leaves the items, which the edge from `from` enters.
pub fn leaving(items: &[Block], from: End) -> End
    ensures { result ≡ leaving (parts_of items.now) from }
{
    let mut last = from;
    for block in items {
        last = End::plain(block.last());
    }
    last
}

/// How many nodes the items have.
#[cycle(count)]
pub fn nodes_in(items: &[Block]) -> usize
    ensures { result ≡ min (parts_size (parts_of items.now)) (2 ^ 64 - 1) }
{
    let mut count: usize = 0;
    for i in 0..items.len() {
        count = count.saturating_add(nodes_in_block(&items[i]));
    }
    count
}

#[cycle(count)]
fn nodes_in_block(block: &Block) -> usize
    ensures { result ≡ min (part_size (part_of block.now)) (2 ^ 64 - 1) }
{
    match block {
        Block::Act(_) => 1,
        Block::And { branches, .. } => nodes_in_branches(branches).saturating_add(2),
        Block::Xor { branches, .. } => nodes_in_branches(branches).saturating_add(2),
        Block::Loop { body, .. } => nodes_in(body).saturating_add(2),
    }
}

#[cycle(count)]
fn nodes_in_branches(branches: &[Branch]) -> usize
    ensures { result ≡ min (lanes_size (lanes (lanes_of branches.now))) (2 ^ 64 - 1) }
{
    let mut count: usize = 0;
    for i in 0..branches.len() {
        count = count.saturating_add(nodes_in(&branches[i].items));
    }
    count
}

#[cycle(copy)]
fn copy_block(alloc: Global, block: &Block) -> Result<Block, NoMemory>
    ensures { IfOk result (λ new. part_of new ≡ part_of block.now) }
{
    match block {
        Block::Act(node) => Ok(Block::Act(*node)),
        Block::And {
            split,
            join,
            branches,
        } => Ok(Block::And {
            split: *split,
            join: *join,
            branches: copy_branches(alloc, branches)?,
        }),
        Block::Xor {
            split,
            join,
            branches,
        } => Ok(Block::Xor {
            split: *split,
            join: *join,
            branches: copy_branches(alloc, branches)?,
        }),
        Block::Loop { start, end, body } => Ok(Block::Loop {
            start: *start,
            end: *end,
            body: copy_items(alloc, body)?,
        }),
    }
}

/// The same items.
#[cycle(copy)]
pub fn copy_items(alloc: Global, items: &[Block]) -> Result<Items, NoMemory>
    ensures { IfOk result (λ new. parts_of new.items ≡ parts_of items.now) }
{
    let mut all = Vec::with_capacity(alloc, items.len())?;
    for i in 0..items.len() {
        all.push(copy_block(alloc, &items[i])?)?;
    }
    Ok(all)
}

#[cycle(copy)]
fn copy_branches(alloc: Global, branches: &[Branch]) -> Result<Branches, NoMemory>
    ensures { IfOk result (λ new. lanes_of new.items ≡ lanes_of branches.now) }
{
    let mut all = Vec::with_capacity(alloc, branches.len())?;
    for i in 0..branches.len() {
        let items = copy_items(alloc, &branches[i].items)?;
        all.push(Branch {
            code: branches[i].code,
            items,
        })?;
    }
    Ok(all)
}
