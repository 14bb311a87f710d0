// A schema while operations change it.
ghost use Rattle.std.specs.Prelude.{◌≡◌, [], None, IfOk, option_map};
ghost use Rattle.wsm_schema.specs.{Flat.{cards_of, card_at}, Sound.{nodes_of, twice}};
ghost use Rattle.wsm_ops.specs.Outline.{seat_of, has_branch};

use crate::outlines::Outline;
use crate::pieces::Seat;
use crate::readers::tree_of;
use crate::walks::pieces_of;
use std::alloc::Global;
use std::marker::Model;
use wsm_lists::Roles;
use wsm_schema::{Elements, NoMemory, Reads, Schema, Syncs, WriteEdges};

/// A schema whose tree is the list of its pieces. A contract sees the schema.
#[derive(Drop)]
pub struct Draft {
    pub start: u32,
    pub finish: u32,
    pub outline: Outline,
    pub syncs: Syncs,
    pub elements: Elements,
    pub reads: Reads,
    pub writes: WriteEdges,
    pub roles: Roles,
}

impl Model for Draft {
    ghost use Rattle.wsm_schema.specs.SchemaModel.{SchemaModel, schema_code};
    ghost use Rattle.wsm_ops.specs.Outline.{IsOutline, tree_in};

    ghost Value = { SchemaModel };

    ghost coded = { schema_code };

    ghost view = { λ d. record { start = d.start; finish = d.finish; body = tree_in d.outline; syncs = d.syncs; elements = d.elements; reads = d.reads; writes = d.writes; roles = d.roles } };

    ghost invariant = { λ d. IsOutline d.start d.finish d.outline };
}

impl Draft {
    /// The draft of a schema, for so many operations.
    pub fn of(alloc: Global, schema: &Schema, operations: usize) -> Result<Draft, NoMemory>
        requires { twice [] (nodes_of (cards_of schema.now)) ≡ None }
        ensures { IfOk result (λ draft. draft ≡ schema.now) }
    {
        Ok(Draft {
            start: schema.start,
            finish: schema.finish,
            syncs: schema.syncs.copy(alloc)?,
            elements: schema.elements.copy(alloc)?,
            reads: schema.reads.copy(alloc)?,
            writes: schema.writes.copy(alloc)?,
            roles: schema.roles.copy(alloc)?,
            outline: Outline::of(alloc, &pieces_of(alloc, schema)?, operations)?,
        })
    }

    /// The schema of the draft.
    pub fn into_schema(self, alloc: Global) -> Result<Schema, NoMemory>
        ensures { IfOk result (λ schema. schema ≡ self) }
    {
        Ok(Schema {
            start: self.start,
            finish: self.finish,
            body: tree_of(alloc, self.outline.pieces(alloc)?)?,
            syncs: self.syncs,
            elements: self.elements,
            reads: self.reads,
            writes: self.writes,
            roles: self.roles,
        })
    }

    /// What the node is.
    pub fn seat(&self, node: u32) -> Option<Seat>
        ensures { result ≡ option_map seat_of (card_at node (cards_of self.now)) }
    {
        self.outline.seat(node)
    }

    /// Whether the node is a split with a branch of this code.
    pub fn has_branch(&self, split: u32, code: u16) -> bool
        ensures { result ≡ has_branch code (card_at split (cards_of self.now)) }
    {
        self.outline.has_head(split, code)
    }
}
