// A schema without blocks while its lists grow.
ghost use Rattle.std.specs.{Prelude.{◌≡◌, not, IfOk, OnErr, OnOk, if◌then◌else◌}, Option.is_some};
ghost use Rattle.wsm_lists.specs.{Keys.{both, first, first_two, put_role}, Rows.{put_row, row_at}};
ghost use Rattle.wsm_schema.specs.{SchemaModel.plain, Tree.nothing, TreeOf.parts_of};

use std::alloc::Global;
use std::marker::Model;
use wsm_lists::{ByEdge, ByElement, ByRead, ElementKind, GrowingRoles, GrowingTable, NoMemory};
use wsm_schema::{Items, Schema};

// What a growing schema holds.
#[derive(Drop)]
struct GrowingLists {
    start: u32,
    finish: u32,
    syncs: GrowingTable<ByEdge>,
    elements: GrowingTable<ByElement>,
    reads: GrowingTable<ByRead>,
    writes: GrowingTable<ByEdge>,
    roles: GrowingRoles,
}

/// The lists of a schema between two nodes, while rows are put in any order. They lie in a box, so a draft is small.
#[derive(Drop)]
pub struct GrowingSchema {
    lists: Box<GrowingLists>,
}

impl Model for GrowingSchema {
    ghost use Rattle.wsm_schema.specs.SchemaModel.{SchemaModel, schema_code};
    ghost use Rattle.wsm_schema.specs.Tree.{nothing};

    ghost Value = { SchemaModel };

    ghost coded = { schema_code };

    ghost view = { λ a. record { start = a.lists.value.start; finish = a.lists.value.finish; body = nothing; syncs = a.lists.value.syncs; elements = a.lists.value.elements; reads = a.lists.value.reads; writes = a.lists.value.writes; roles = a.lists.value.roles } };
}

impl GrowingSchema {
    /// A schema between two nodes, with empty lists.
    pub fn new(alloc: Global, start: u32, finish: u32) -> Result<GrowingSchema, NoMemory>
        ensures { IfOk result (λ schema. schema ≡ plain start finish nothing) }
    {
        let lists = Box::new(
            alloc,
            GrowingLists {
                start,
                finish,
                syncs: GrowingTable::new(alloc),
                elements: GrowingTable::new(alloc),
                reads: GrowingTable::new(alloc),
                writes: GrowingTable::new(alloc),
                roles: GrowingRoles::new(alloc),
            },
        )?;
        Ok(GrowingSchema { lists })
    }

    /// One more sync edge. False, with no change, where the edge is there.
    pub fn put_sync(&mut self, source: u32, target: u32) -> Result<bool, NoMemory>
        ensures added { IfOk result (λ added. added ≡ not (is_some (row_at both (source, target) self.old.syncs))) }
        ensures rows { IfOk result (λ added. self.new ≡ (if added then record self.old { syncs = put_row both (source, target) self.old.syncs } else self.old)) }
        ensures err { OnErr result (self.new ≡ self.old) }
    {
        self.lists.syncs.put((source, target))
    }

    /// One more element. False, with no change, where it is there.
    pub fn put_element(&mut self, element: u32, kind: ElementKind) -> Result<bool, NoMemory>
        ensures added { IfOk result (λ added. added ≡ not (is_some (row_at first (element, 0) self.old.elements))) }
        ensures rows { IfOk result (λ added. self.new ≡ (if added then record self.old { elements = put_row first (element, kind) self.old.elements } else self.old)) }
        ensures err { OnErr result (self.new ≡ self.old) }
    {
        self.lists.elements.put((element, kind))
    }

    /// One more read. False, with no change, where the node's read of the element is there.
    pub fn put_read(&mut self, node: u32, element: u32, mandatory: bool) -> Result<bool, NoMemory>
        ensures added { IfOk result (λ added. added ≡ not (is_some (row_at first_two (node, element) self.old.reads))) }
        ensures rows { IfOk result (λ added. self.new ≡ (if added then record self.old { reads = put_row first_two (node, element, mandatory) self.old.reads } else self.old)) }
        ensures err { OnErr result (self.new ≡ self.old) }
    {
        self.lists.reads.put((node, element, mandatory))
    }

    /// One more write. False, with no change, where the node's write of the element is there.
    pub fn put_write(&mut self, node: u32, element: u32) -> Result<bool, NoMemory>
        ensures added { IfOk result (λ added. added ≡ not (is_some (row_at both (node, element) self.old.writes))) }
        ensures rows { IfOk result (λ added. self.new ≡ (if added then record self.old { writes = put_row both (node, element) self.old.writes } else self.old)) }
        ensures err { OnErr result (self.new ≡ self.old) }
    {
        self.lists.writes.put((node, element))
    }

    /// The role of the node is then `role`, where 0 lets everybody work on it.
    pub fn put_role(&mut self, node: u32, role: u32) -> Result<(), NoMemory>
        ensures ok { OnOk result (self.new ≡ record self.old { roles = put_role node role self.old.roles }) }
        ensures err { OnErr result (self.new ≡ self.old) }
    {
        self.lists.roles.put(node, role)
    }

    /// The schema with these lists and this body, which grows no more.
    pub fn into_schema(self, alloc: Global, body: Items) -> Result<Schema, NoMemory>
        ensures { IfOk result (λ schema. schema ≡ record self { body = parts_of body.items }) }
    {
        let lists = Box::into_inner(self.lists);
        Ok(Schema {
            start: lists.start,
            finish: lists.finish,
            body,
            syncs: lists.syncs.into_table(alloc)?,
            elements: lists.elements.into_table(alloc)?,
            reads: lists.reads.into_table(alloc)?,
            writes: lists.writes.into_table(alloc)?,
            roles: lists.roles.into_roles(alloc)?,
        })
    }
}
