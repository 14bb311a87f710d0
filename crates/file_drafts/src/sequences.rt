// Blocks one after another, and branches side by side.
ghost use Rattle.std.specs.Prelude.{◌≡◌, ℕ, [], ◌∷◌, ◌++◌, OnOk};
ghost use Rattle.wsm_schema.specs.{Tree.{act, gate, and_gate, xor_gate, loop, parts, lanes}, TreeOf.{part_of, parts_of, lanes_of}};

use std::alloc::Global;
use std::marker::Model;
use wsm_lists::NoMemory;
use wsm_schema::{Block, Branch, Branches, Items};

/// Blocks one after another.
#[derive(Drop)]
pub struct Sequence {
    blocks: Items,
}

impl Model for Sequence {
    ghost use Rattle.std.specs.Prelude.{List, map};
    ghost use Rattle.wsm_schema.specs.Tree.{Part};
    ghost use Rattle.wsm_schema.specs.TreeOf.{part_of};
    ghost use Rattle.file_drafts.specs.Sequences.{sequence_code};

    ghost Value = { List Part };

    ghost coded = { sequence_code };

    ghost view = { λ a. map part_of a.blocks.items };
}

/// Branches side by side, all of which have ended.
#[derive(Drop)]
pub struct ClosedBranches {
    branches: Branches,
}

impl Model for ClosedBranches {
    ghost use Rattle.std.specs.Prelude.{ℕ, List};
    ghost use Rattle.wsm_schema.specs.Tree.{Parts};
    ghost use Rattle.wsm_schema.specs.TreeOf.{lanes_of};
    ghost use Rattle.file_drafts.specs.Sequences.{branches_code};

    ghost Value = { List (ℕ × Parts) };

    ghost coded = { branches_code };

    ghost view = { λ a. lanes_of a.branches.items };
}

impl Sequence {
    /// No blocks.
    pub fn new(alloc: Global) -> Sequence
        ensures { result ≡ [] }
    {
        Sequence {
            blocks: Items::new(alloc),
        }
    }

    /// One more activity at the end.
    pub fn push_activity(&mut self, node: u32) -> Result<(), NoMemory>
        ensures { OnOk result (self.new ≡ self.old ++ act node ∷ []) }
    {
        self.blocks.push(Block::Act(node))?;
        Ok(())
    }

    /// One more AND block at the end.
    pub fn push_and(
        &mut self,
        split: u32,
        join: u32,
        branches: ClosedBranches,
    ) -> Result<(), NoMemory>
        ensures { OnOk result (self.new ≡ self.old ++ gate and_gate split join (lanes branches) ∷ []) }
    {
        let branches = branches.branches;
        self.blocks.push(Block::And {
            split,
            join,
            branches,
        })?;
        Ok(())
    }

    /// One more XOR block at the end.
    pub fn push_xor(
        &mut self,
        split: u32,
        join: u32,
        branches: ClosedBranches,
    ) -> Result<(), NoMemory>
        ensures { OnOk result (self.new ≡ self.old ++ gate xor_gate split join (lanes branches) ∷ []) }
    {
        let branches = branches.branches;
        self.blocks.push(Block::Xor {
            split,
            join,
            branches,
        })?;
        Ok(())
    }

    /// One more loop at the end.
    pub fn push_loop(&mut self, start: u32, end: u32, body: Sequence) -> Result<(), NoMemory>
        ensures { OnOk result (self.new ≡ self.old ++ loop start end (parts body) ∷ []) }
    {
        let body = body.blocks;
        self.blocks.push(Block::Loop { start, end, body })?;
        Ok(())
    }

    /// The blocks alone.
    pub fn into_items(self) -> Items
        ensures { parts_of result.items ≡ parts self }
    {
        self.blocks
    }
}

impl ClosedBranches {
    /// No branches.
    pub fn new(alloc: Global) -> ClosedBranches
        ensures { result ≡ [] }
    {
        ClosedBranches {
            branches: Branches::new(alloc),
        }
    }

    /// One more branch.
    pub fn push(&mut self, code: u16, items: Sequence) -> Result<(), NoMemory>
        ensures { OnOk result (self.new ≡ self.old ++ (code, parts items) ∷ []) }
    {
        let items = items.blocks;
        self.branches.push(Branch { code, items })?;
        Ok(())
    }
}
