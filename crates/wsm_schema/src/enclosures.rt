// The blocks round each node, and what they tell of two nodes.
ghost use Rattle.std.specs.Prelude.{◌≡◌, ◌<◌, ◌∷◌, [], ◌++◌, ℕ, None, length, slice_get, slice_index, IfOk, OnOk};
ghost use Rattle.wsm_schema.specs.{Flat.{flat_of, cards_of}, Sound.{twice, nodes_of, parts_apart, parts_bound, parts_loop}, Tree.lanes, TreeOf.{part_of, parts_of, lanes_of}, Enclosures.{enclosure, parts_round, part_ways, are_bound}};
ghost use Rattle.wsm_schema.specs.Enclosures.{are_free, innermost_loop, part_walk, parts_walk, lanes_walk, schema_walk};

use crate::blocks::{Block, Branch, nodes_in};
use crate::cards::NodeKind;
use crate::flats::Flat;
use crate::schemas::Schema;
use std::alloc::Global;
use std::marker::Model;
use wsm_lists::{Listing, NoMemory};

/// A block round a node, by its first node, and the branch in which the node stands: 0 in a loop.
#[derive(Clone, Copy, PartialEq, Eq, Debug)]
pub struct Enclosure {
    pub first: u32,
    pub kind: NodeKind,
    pub branch: usize,
}

// The blocks round a node, the outermost first.
type Enclosing = Listing<Enclosure>;

/// A schema whose nodes are distinct, with the blocks round each of them.
#[derive(Drop)]
pub struct Enclosures<'a> {
    schema: &'a Schema,
    flat: &'a Flat,
    blocks: Vec<Enclosing>,
}

impl<'a> Model for Enclosures<'a> {
    ghost use Rattle.wsm_schema.specs.SchemaModel.{SchemaModel, schema_code};
    ghost use Rattle.wsm_schema.specs.Enclosures.{IsEnclosed};

    ghost Value = { SchemaModel };

    ghost coded = { schema_code };

    ghost view = { λ a. a.schema.now };

    ghost invariant = { λ a. IsEnclosed a.schema.now a.flat.now a.blocks.items };
}

impl<'a> Enclosures<'a> {
    /// The blocks round each node, found in one walk over the tree.
    pub fn of(alloc: Global, schema: &'a Schema, flat: &'a Flat) -> Result<Enclosures<'a>, NoMemory>
        requires flat { flat.now ≡ flat_of schema.now }
        requires distinct { twice [] (nodes_of flat.now.cards) ≡ None }
        ensures { IfOk result (λ new. new ≡ schema.now) }
    {
        let blocks = walk(alloc, &schema.body)?;
        Ok(Enclosures {
            schema,
            flat,
            blocks,
        })
    }

    /// Whether the nodes stand in different branches of an AND block that is the smallest block round both.
    pub fn are_apart(&self, a: u32, b: u32) -> bool
        ensures { result ≡ parts_apart self.now.body a b }
    {
        part_ways(self.round(a), self.round(b))
    }

    /// The same of the nodes that stand at two places of document order.
    pub fn are_apart_at(&self, a: usize, b: usize) -> bool
        requires first { a < length (cards_of self.now) }
        requires second { b < length (cards_of self.now) }
        ensures { let node = slice_index (nodes_of (cards_of self.now)) in result ≡ parts_apart self.now.body (node a) (node b) }
    {
        part_ways(self.round_at(a), self.round_at(b))
    }

    /// Whether each XOR block that has the first node in a branch has the second one in the same branch.
    pub fn is_bound(&self, a: u32, b: u32) -> bool
        ensures { result ≡ parts_bound self.now.body a b }
    {
        are_bound(self.round(a), self.round(b))
    }

    /// The start of the innermost loop round the node.
    pub fn loop_round(&self, node: u32) -> Option<u32>
        ensures { result ≡ parts_loop self.now.body node None }
    {
        innermost_loop(self.round(node))
    }

    // The blocks round the node.
    fn round(&self, node: u32) -> &[Enclosure]
        ensures blocks { result.now ≡ parts_round self.now.body node }
        ensures distinct { twice [] (nodes_of (cards_of self.now)) ≡ None }
    {
        match self.flat.place(node) {
            Some(place) => self.round_at(place),
            None => &[],
        }
    }

    // The blocks round the node that stands at a place of document order.
    fn round_at(&self, place: usize) -> &[Enclosure]
        requires { place < length (cards_of self.now) }
        ensures blocks { result.now ≡ parts_round self.now.body (slice_index (nodes_of (cards_of self.now)) place) }
        ensures distinct { twice [] (nodes_of (cards_of self.now)) ≡ None }
    {
        self.blocks[place].as_slice()
    }
}

// Whether two nodes stand apart, by the blocks round them.
fn part_ways(a: &[Enclosure], b: &[Enclosure]) -> bool
    ensures { result ≡ part_ways a.now b.now }
{
    for i in 0..a.len().min(b.len()) {
        if a[i].first != b[i].first {
            return false;
        }
        if a[i].branch != b[i].branch {
            return a[i].kind == NodeKind::AndSplit;
        }
    }
    false
}

// Whether each XOR block round one node is round another, with one branch, by the blocks round both.
fn are_bound(a: &[Enclosure], b: &[Enclosure]) -> bool
    ensures { result ≡ are_bound a.now b.now }
{
    let shorter = a.len().min(b.len());
    for i in 0..shorter {
        if a[i].first != b[i].first || a[i].branch != b[i].branch {
            return are_free(&a[i..]);
        }
    }
    are_free(&a[shorter..])
}

// Whether none of the blocks chooses a branch.
fn are_free(blocks: &[Enclosure]) -> bool
    ensures { result ≡ are_free blocks.now }
{
    for block in blocks {
        if block.kind == NodeKind::XorSplit {
            return false;
        }
    }
    true
}

// The start of the innermost loop among blocks.
fn innermost_loop(blocks: &[Enclosure]) -> Option<u32>
    ensures { result ≡ innermost_loop blocks.now None }
{
    let mut around = None;
    for block in blocks {
        if block.kind == NodeKind::LoopStart {
            around = Some(block.first);
        }
    }
    around
}

// The blocks round each node of a schema, in document order.
fn walk(alloc: Global, body: &[Block]) -> Result<Vec<Enclosing>, NoMemory>
    ensures { IfOk result (λ all. all.items ≡ schema_walk (parts_of body.now)) }
{
    let mut all = Vec::with_capacity(alloc, nodes_in(body).saturating_add(2))?;
    put(alloc, &mut all, &[])?;
    put_items(alloc, &mut all, body, &[])?;
    put(alloc, &mut all, &[])?;
    Ok(all)
}

// The blocks round one node more.
fn put(alloc: Global, all: &mut Vec<Enclosing>, outer: &[Enclosure]) -> Result<(), NoMemory>
    ensures { OnOk result (all.new.items ≡ all.old.items ++ outer.now ∷ []) }
{
    all.push(Listing::from_vec(Vec::from_slice(alloc, outer)?))?;
    Ok(())
}

// The same of all nodes of items, round which `outer` stand.
#[cycle(walk)]
fn put_items(
    alloc: Global,
    all: &mut Vec<Enclosing>,
    items: &[Block],
    outer: &[Enclosure],
) -> Result<(), NoMemory>
    ensures { OnOk result (all.new.items ≡ all.old.items ++ parts_walk outer.now (parts_of items.now)) }
{
    for i in 0..items.len() {
        put_block(alloc, all, &items[i], outer)?;
    }
    Ok(())
}

#[cycle(walk)]
fn put_block(
    alloc: Global,
    all: &mut Vec<Enclosing>,
    block: &Block,
    outer: &[Enclosure],
) -> Result<(), NoMemory>
    ensures { OnOk result (all.new.items ≡ all.old.items ++ part_walk outer.now (part_of block.now)) }
{
    match block {
        Block::Act(_) => put(alloc, all, outer),
        Block::And {
            split,
            branches,
            ..
        } => put_gate(alloc, all, NodeKind::AndSplit, *split, branches, outer),
        Block::Xor {
            split,
            branches,
            ..
        } => put_gate(alloc, all, NodeKind::XorSplit, *split, branches, outer),
        Block::Loop { start, body, .. } => {
            let inner = with_block(alloc, outer, *start, NodeKind::LoopStart, 0)?;
            put(alloc, all, &inner)?;
            put_items(alloc, all, body, &inner)?;
            put(alloc, all, &inner)
        }
    }
}

#[cycle(walk)]
fn put_gate(
    alloc: Global,
    all: &mut Vec<Enclosing>,
    kind: NodeKind,
    split: u32,
    branches: &[Branch],
    outer: &[Enclosure],
) -> Result<(), NoMemory>
    ensures { OnOk result (all.new.items ≡ all.old.items ++ outer.now ∷ (lanes_walk outer.now split kind 0 (lanes (lanes_of branches.now)) ++ outer.now ∷ [])) }
{
    put(alloc, all, outer)?;
    for i in 0..branches.len() {
        let inner = with_block(alloc, outer, split, kind, i)?;
        put_items(alloc, all, &branches[i].items, &inner)?;
    }
    put(alloc, all, outer)
}

// The blocks with one more inside them.
fn with_block(
    alloc: Global,
    outer: &[Enclosure],
    first: u32,
    kind: NodeKind,
    branch: usize,
) -> Result<Vec<Enclosure>, NoMemory>
    ensures { IfOk result (λ inner. inner.items ≡ outer.now ++ enclosure first kind branch ∷ []) }
{
    let mut inner = Vec::from_slice(alloc, outer)?;
    inner.push(Enclosure {
        first,
        kind,
        branch,
    })?;
    Ok(inner)
}
