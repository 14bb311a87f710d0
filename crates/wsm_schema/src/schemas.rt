// A schema: a tree of blocks between two nodes, and five lists.
ghost use Rattle.std.specs.{Prelude.{◌≡◌, not, OnErr, OnOk, IfOk, if◌then◌else◌}, Option.is_some};
ghost use Rattle.wsm_lists.specs.{Rows.{put_row, row_at}, Keys.{both, first, first_two, put_role}};
ghost use Rattle.wsm_schema.specs.{TreeOf.parts_of, SchemaModel.plain};

use crate::blocks::{Items, copy_items};
use std::alloc::Global;
use std::marker::Model;
use wsm_lists::{ElementKind, Elements, NoMemory, Reads, Roles, Syncs, WriteEdges};

/// A process schema: the blocks between a start and a finish node, with the sync edges, the data elements, and the nodes' reads, writes and roles.
#[derive(Drop)]
pub struct Schema {
    pub start: u32,
    pub finish: u32,
    pub body: Items,
    pub syncs: Syncs,
    pub elements: Elements,
    pub reads: Reads,
    pub writes: WriteEdges,
    pub roles: Roles,
}

impl Model for Schema {
    ghost use Rattle.wsm_schema.specs.SchemaModel.{SchemaModel, schema_code};
    ghost use Rattle.wsm_schema.specs.TreeOf.{parts_of};

    ghost Value = { SchemaModel };

    ghost coded = { schema_code };

    ghost view = { λ a. record { start = a.start; finish = a.finish; body = parts_of a.body.items; syncs = a.syncs; elements = a.elements; reads = a.reads; writes = a.writes; roles = a.roles } };
}

impl Schema {
    /// A schema whose lists are empty.
    pub fn new(alloc: Global, start: u32, finish: u32, body: Items) -> Schema
        ensures { result ≡ plain start finish (parts_of body.items) }
    {
        Schema {
            start,
            finish,
            body,
            syncs: Syncs::new(alloc),
            elements: Elements::new(alloc),
            reads: Reads::new(alloc),
            writes: WriteEdges::new(alloc),
            roles: Roles::new(alloc),
        }
    }

    /// One more sync edge. False, with no change, where the edge is there.
    pub fn put_sync(&mut self, source: u32, target: u32) -> Result<bool, NoMemory>
        ensures added { IfOk result (λ added. added ≡ not (is_some (row_at both (source, target) self.old.syncs))) }
        ensures rows { IfOk result (λ added. self.new ≡ (if added then record self.old { syncs = put_row both (source, target) self.old.syncs } else self.old)) }
        ensures err { OnErr result (self.new ≡ self.old) }
    {
        self.syncs.put((source, target))
    }

    /// One more element. False, with no change, where one with its number is there.
    pub fn put_element(&mut self, element: u32, kind: ElementKind) -> Result<bool, NoMemory>
        ensures added { IfOk result (λ added. added ≡ not (is_some (row_at first (element, 0) self.old.elements))) }
        ensures rows { IfOk result (λ added. self.new ≡ (if added then record self.old { elements = put_row first (element, kind) self.old.elements } else self.old)) }
        ensures err { OnErr result (self.new ≡ self.old) }
    {
        self.elements.put((element, kind))
    }

    /// The node then reads the element, and is not started without a value where the read is mandatory. False, with no
    /// change, where the node's read of the element is there.
    pub fn put_read(&mut self, node: u32, element: u32, mandatory: bool) -> Result<bool, NoMemory>
        ensures added { IfOk result (λ added. added ≡ not (is_some (row_at first_two (node, element) self.old.reads))) }
        ensures rows { IfOk result (λ added. self.new ≡ (if added then record self.old { reads = put_row first_two (node, element, mandatory) self.old.reads } else self.old)) }
        ensures err { OnErr result (self.new ≡ self.old) }
    {
        self.reads.put((node, element, mandatory))
    }

    /// The node then writes the element. False, with no change, where the node's write of the element is there.
    pub fn put_write(&mut self, node: u32, element: u32) -> Result<bool, NoMemory>
        ensures added { IfOk result (λ added. added ≡ not (is_some (row_at both (node, element) self.old.writes))) }
        ensures rows { IfOk result (λ added. self.new ≡ (if added then record self.old { writes = put_row both (node, element) self.old.writes } else self.old)) }
        ensures err { OnErr result (self.new ≡ self.old) }
    {
        self.writes.put((node, element))
    }

    /// The role of the node is then `role`, where 0 stands for no role.
    pub fn put_role(&mut self, node: u32, role: u32) -> Result<(), NoMemory>
        ensures ok { OnOk result (self.new ≡ record self.old { roles = put_role node role self.old.roles }) }
        ensures err { OnErr result (self.new ≡ self.old) }
    {
        self.roles.put(node, role)
    }

    /// An equal schema.
    pub fn copy(&self, alloc: Global) -> Result<Schema, NoMemory>
        ensures { IfOk result (λ new. new ≡ self.now) }
    {
        Ok(Schema {
            start: self.start,
            finish: self.finish,
            syncs: self.syncs.copy(alloc)?,
            elements: self.elements.copy(alloc)?,
            reads: self.reads.copy(alloc)?,
            writes: self.writes.copy(alloc)?,
            roles: self.roles.copy(alloc)?,
            body: copy_items(alloc, &self.body)?,
        })
    }
}
