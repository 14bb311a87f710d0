// Trees from their pieces, which are read from the right.
ghost use Rattle.std.specs.Prelude.{◌≡◌, [], ◌∷◌, OnOk, IfOk};
ghost use Rattle.wsm_schema.specs.{TreeOf.{part_of, parts_of, lanes_of}, Tree.{lanes, gate, loop, and_gate, xor_gate}, Tokens.{empty, outer, before, read_token, a_branch, open_gate, open_loop, close}};
ghost use Rattle.wsm_ops.specs.{Outline.{node_tokens, read_onto, read_piece, tree_in}, Readings.{level_of, levels_of}};

use crate::pieces::Piece;
use std::alloc::Global;
use std::mem;
use wsm_schema::{Block, Branch, Branches, Items, NoMemory, NodeKind};

// The items and the branches that have been read of an open block, last ones first. They grow as they are read, and are handed on
// without spare room, since a schema is kept as long as its case.
#[derive(Drop)]
struct Open {
    items: Items,
    branches: Branches,
}

impl Open {
    // Nothing read.
    fn new(alloc: Global) -> Open
        ensures { level_of result ≡ empty }
    {
        Open {
            items: Vec::new(alloc),
            branches: Vec::new(alloc),
        }
    }

    // The items in their order.
    fn into_items(self) -> Items
        ensures { parts_of result.items ≡ (level_of self).items }
    {
        let mut items = self.items;
        items.shrink_to_fit();
        items.reverse();
        items
    }

    // The branches in their order.
    fn into_branches(self) -> Branches
        ensures { lanes (lanes_of result.items) ≡ (level_of self).branches }
    {
        let mut branches = self.branches;
        branches.shrink_to_fit();
        branches.reverse();
        branches
    }
}

// What has been read of the blocks that are open.
#[derive(Drop)]
struct Reader {
    inner: Open,
    around: Vec<Open>,
}

impl Reader {
    fn new(alloc: Global) -> Reader
        ensures { levels_of result ≡ (empty, []) }
    {
        Reader {
            inner: Open::new(alloc),
            around: Vec::new(alloc),
        }
    }

    // One more block, which stands before those that have been read.
    fn put(&mut self, block: Block) -> Result<(), NoMemory>
        ensures { OnOk result (levels_of self.new ≡ before (part_of block) (levels_of self.old)) }
    {
        self.inner.items.push(block)?;
        Ok(())
    }

    // A block that ends here.
    fn enter(&mut self, alloc: Global) -> Result<(), NoMemory>
        ensures { OnOk result (levels_of self.new ≡ read_token close (levels_of self.old)) }
    {
        let inner = mem::replace(&mut self.inner, Open::new(alloc));
        self.around.push(inner)?;
        Ok(())
    }

    // The innermost block, which begins here.
    fn leave(&mut self, alloc: Global) -> Open
        ensures inner { level_of result ≡ (levels_of self.old).0 }
        ensures around { levels_of self.new ≡ outer (levels_of self.old).1 }
    {
        let around = match self.around.pop() {
            Some(open) => open,
            None => Open::new(alloc),
        };
        mem::replace(&mut self.inner, around)
    }

    // A branch that begins here.
    fn branch(&mut self, alloc: Global, code: u16) -> Result<(), NoMemory>
        ensures { OnOk result (levels_of self.new ≡ read_token (a_branch code) (levels_of self.old)) }
    {
        let mut items = mem::replace(&mut self.inner.items, Vec::new(alloc));
        items.shrink_to_fit();
        items.reverse();
        self.inner.branches.push(Branch { code, items })?;
        Ok(())
    }

    fn and_block(&mut self, alloc: Global, split: u32, join: u32) -> Result<(), NoMemory>
        ensures { OnOk result (levels_of self.new ≡ read_token (open_gate and_gate split join) (levels_of self.old)) }
    {
        let branches = self.leave(alloc).into_branches();
        self.put(Block::And {
            split,
            join,
            branches,
        })
    }

    fn xor_block(&mut self, alloc: Global, split: u32, join: u32) -> Result<(), NoMemory>
        ensures { OnOk result (levels_of self.new ≡ read_token (open_gate xor_gate split join) (levels_of self.old)) }
    {
        let branches = self.leave(alloc).into_branches();
        self.put(Block::Xor {
            split,
            join,
            branches,
        })
    }

    fn loop_block(&mut self, alloc: Global, start: u32, end: u32) -> Result<(), NoMemory>
        ensures { OnOk result (levels_of self.new ≡ read_token (open_loop start end) (levels_of self.old)) }
    {
        let body = self.leave(alloc).into_items();
        self.put(Block::Loop { start, end, body })
    }

    fn node(
        &mut self,
        alloc: Global,
        node: u32,
        kind: NodeKind,
        partner: Option<u32>,
    ) -> Result<(), NoMemory>
        ensures { OnOk result (levels_of self.new ≡ read_onto (node_tokens kind node partner) (levels_of self.old)) }
    {
        match kind {
            NodeKind::Start | NodeKind::Finish => Ok(()),
            NodeKind::Activity => self.put(Block::Act(node)),
            NodeKind::AndJoin | NodeKind::XorJoin | NodeKind::LoopEnd => self.enter(alloc),
            NodeKind::AndSplit => match partner {
                None => Ok(()),
                Some(join) => self.and_block(alloc, node, join),
            },
            NodeKind::XorSplit => match partner {
                None => Ok(()),
                Some(join) => self.xor_block(alloc, node, join),
            },
            NodeKind::LoopStart => match partner {
                None => Ok(()),
                Some(end) => self.loop_block(alloc, node, end),
            },
        }
    }

    fn read(&mut self, alloc: Global, piece: Piece) -> Result<(), NoMemory>
        ensures { OnOk result (levels_of self.new ≡ read_piece piece (levels_of self.old)) }
    {
        match piece {
            Piece::Node {
                node,
                kind,
                partner,
            } => self.node(alloc, node, kind, partner),
            Piece::Head { code, .. } => self.branch(alloc, code),
        }
    }

    fn into_items(self) -> Items
        ensures { parts_of result.items ≡ (levels_of self).0.items }
    {
        self.inner.into_items()
    }
}

/// The tree of the pieces.
pub fn tree_of(alloc: Global, pieces: Vec<Piece>) -> Result<Items, NoMemory>
    ensures { IfOk result (λ items. parts_of items.items ≡ tree_in pieces.items) }
{
    let mut rest = pieces;
    let mut reader = Reader::new(alloc);
    while let Some(piece) = rest.pop() {
        reader.read(alloc, piece)?;
    }
    Ok(reader.into_items())
}
