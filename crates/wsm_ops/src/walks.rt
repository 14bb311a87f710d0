// The pieces of a schema, by one walk through its tree.
ghost use Rattle.std.specs.Prelude.{◌≡◌, [], ◌∷◌, ◌++◌, map, OnOk, IfOk};
ghost use Rattle.wsm_schema.specs.{TreeOf.{part_of, parts_of, lanes_of}, Tree.lanes};
ghost use Rattle.wsm_ops.specs.declared.pieces.Piece.TheVariants.{Node};
ghost use Rattle.wsm_ops.specs.Outline.{part_pieces, parts_pieces, lanes_pieces, schema_pieces};

use crate::pieces::Piece;
use std::alloc::Global;
use std::collections::BTreeSet;
use wsm_schema::{Block, Branch, NoMemory, NodeKind, Schema};

/// The pieces of the schema, in document order.
pub fn pieces_of(alloc: Global, schema: &Schema) -> Result<Vec<Piece>, NoMemory>
    ensures { IfOk result (λ all. all.items ≡ schema_pieces schema.now) }
{
    let mut all = Vec::new(alloc);
    put_node(&mut all, schema.start, NodeKind::Start, None)?;
    put_items(alloc, &mut all, &schema.body)?;
    put_node(&mut all, schema.finish, NodeKind::Finish, None)?;
    Ok(all)
}

// One more node.
fn put_node(
    all: &mut Vec<Piece>,
    node: u32,
    kind: NodeKind,
    partner: Option<u32>,
) -> Result<(), NoMemory>
    ensures { OnOk result (all.new.items ≡ all.old.items ++ Node node kind partner ∷ []) }
{
    all.push(Piece::Node {
        node,
        kind,
        partner,
    })?;
    Ok(())
}

// The pieces of items.
#[cycle(walk)]
fn put_items(alloc: Global, all: &mut Vec<Piece>, items: &[Block]) -> Result<(), NoMemory>
    ensures { OnOk result (all.new.items ≡ all.old.items ++ parts_pieces (parts_of items.now)) }
{
    for i in 0..items.len() {
        put_block(alloc, all, &items[i])?;
    }
    Ok(())
}

// The pieces of a block.
#[cycle(walk)]
fn put_block(alloc: Global, all: &mut Vec<Piece>, block: &Block) -> Result<(), NoMemory>
    ensures { OnOk result (all.new.items ≡ all.old.items ++ part_pieces (part_of block.now)) }
{
    match block {
        Block::Act(node) => put_node(all, *node, NodeKind::Activity, None),
        Block::And {
            split,
            join,
            branches,
        } => {
            put_node(all, *split, NodeKind::AndSplit, Some(*join))?;
            put_branches(alloc, all, *split, branches)?;
            put_node(all, *join, NodeKind::AndJoin, Some(*split))
        }
        Block::Xor {
            split,
            join,
            branches,
        } => {
            put_node(all, *split, NodeKind::XorSplit, Some(*join))?;
            put_branches(alloc, all, *split, branches)?;
            put_node(all, *join, NodeKind::XorJoin, Some(*split))
        }
        Block::Loop { start, end, body } => {
            put_node(all, *start, NodeKind::LoopStart, Some(*end))?;
            put_items(alloc, all, body)?;
            put_node(all, *end, NodeKind::LoopEnd, Some(*start))
        }
    }
}

// The pieces of branches behind a split.
#[cycle(walk)]
fn put_branches(
    alloc: Global,
    all: &mut Vec<Piece>,
    split: u32,
    branches: &[Branch],
) -> Result<(), NoMemory>
    ensures { OnOk result (all.new.items ≡ all.old.items ++ lanes_pieces split [] (lanes (lanes_of branches.now))) }
{
    let mut seen = BTreeSet::new(alloc);
    for i in 0..branches.len() {
        let code = branches[i].code;
        let first = seen.insert(code)?;
        all.push(Piece::Head { split, code, first })?;
        put_items(alloc, all, &branches[i].items)?;
    }
    Ok(())
}
