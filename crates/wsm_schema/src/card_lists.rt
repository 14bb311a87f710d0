// The card of a node, from the lists of its schema.
ghost use Rattle.std.specs.Prelude.{◌≡◌, IfOk, map, filter, ◌==◌};
ghost use Rattle.wsm_lists.specs.Keys.{role_in};
ghost use Rattle.wsm_schema.specs.{Flat.card_of, Groups.reversed};

use crate::cards::{Card, CardNumbers, CardReads};
use crate::groups::Groups;
use crate::places::Place;
use crate::schemas::Schema;
use std::alloc::Global;
use std::marker::Model;
use wsm_lists::NoMemory;

/// A schema whose sync edges are grouped by their targets too.
#[derive(Drop)]
pub struct Lists<'a> {
    schema: &'a Schema,
    incoming: Groups<u32>,
}

impl<'a> Model for Lists<'a> {
    ghost use Rattle.wsm_schema.specs.SchemaModel.{SchemaModel, schema_code};
    ghost use Rattle.wsm_schema.specs.Groups.{SameGroups, reversed};

    ghost Value = { SchemaModel };

    ghost coded = { schema_code };

    ghost view = { λ a. a.schema.now };

    ghost invariant = { λ a. SameGroups (reversed a.schema.now.syncs) a.incoming };
}

impl<'a> Lists<'a> {
    /// The lists of the schema.
    pub fn of(alloc: Global, schema: &'a Schema) -> Result<Lists<'a>, NoMemory>
        ensures { IfOk result (λ new. new ≡ schema.now) }
    {
        let edges = reversed(alloc, schema.syncs.as_slice())?;
        let incoming = Groups::of(edges)?;
        Ok(Lists { schema, incoming })
    }

    /// The card of the node that stands at this place of the schema's tree.
    pub fn card(&self, alloc: Global, place: Place) -> Result<Card, NoMemory>
        ensures { IfOk result (λ new. new ≡ card_of self.now place) }
    {
        let node = place.node;
        Ok(Card {
            node,
            kind: place.kind,
            partner: place.partner,
            ins: place.ins,
            outs: place.outs,
            syncs_in: self.syncs_into(alloc, node)?,
            syncs_out: self.syncs_from(alloc, node)?,
            reads: self.reads_by(alloc, node)?,
            writes: self.writes_by(alloc, node)?,
            role: self.role_of(node),
        })
    }

    // The nodes from which sync edges lead to a node.
    fn syncs_into(&self, alloc: Global, node: u32) -> Result<CardNumbers, NoMemory>
        ensures { IfOk result (λ new. new ≡ map (λ e. e.0) (filter (λ e. e.1 == node) self.now.syncs)) }
    {
        let schema = self.schema;
        if schema.syncs.is_empty() {
            return Ok(CardNumbers::new());
        }
        seconds_of(alloc, self.incoming.rows_with(node))
    }

    // The nodes to which sync edges lead from a node.
    fn syncs_from(&self, alloc: Global, node: u32) -> Result<CardNumbers, NoMemory>
        ensures { IfOk result (λ new. new ≡ map (λ e. e.1) (filter (λ e. e.0 == node) self.now.syncs)) }
    {
        let schema = self.schema;
        if schema.syncs.is_empty() {
            return Ok(CardNumbers::new());
        }
        seconds_of(alloc, schema.syncs.rows_of(node))
    }

    // The elements that a node reads.
    fn reads_by(&self, alloc: Global, node: u32) -> Result<CardReads, NoMemory>
        ensures { IfOk result (λ new. new ≡ map (λ r. (r.1, r.2)) (filter (λ r. r.0 == node) self.now.reads)) }
    {
        let schema = self.schema;
        if schema.reads.is_empty() {
            return Ok(CardReads::new());
        }
        reads_of(alloc, schema.reads.rows_of(node))
    }

    // The elements that a node writes.
    fn writes_by(&self, alloc: Global, node: u32) -> Result<CardNumbers, NoMemory>
        ensures { IfOk result (λ new. new ≡ map (λ w. w.1) (filter (λ w. w.0 == node) self.now.writes)) }
    {
        let schema = self.schema;
        if schema.writes.is_empty() {
            return Ok(CardNumbers::new());
        }
        seconds_of(alloc, schema.writes.rows_of(node))
    }

    // The role of a node.
    fn role_of(&self, node: u32) -> u32
        ensures { result ≡ role_in node self.now.roles }
    {
        let schema = self.schema;
        schema.roles.role(node)
    }
}

// Edges from their targets back to their sources.
fn reversed(alloc: Global, edges: &[(u32, u32)]) -> Result<Vec<(u32, u32)>, NoMemory>
    ensures { IfOk result (λ new. new.items ≡ reversed edges.now) }
{
    edges.iter().map(|e| (e.1, e.0)).collect(alloc)
}

// The second numbers of rows.
fn seconds_of(alloc: Global, rows: &[(u32, u32)]) -> Result<CardNumbers, NoMemory>
    ensures { IfOk result (λ new. new ≡ map (λ r. r.1) rows.now) }
{
    match rows {
        [] => Ok(CardNumbers::new()),
        [row] => Ok(CardNumbers::of_one(row.1)),
        _ => CardNumbers::from_vec(alloc, list_seconds(alloc, rows)?),
    }
}

fn list_seconds(alloc: Global, rows: &[(u32, u32)]) -> Result<Vec<u32>, NoMemory>
    ensures { IfOk result (λ new. new.items ≡ map (λ r. r.1) rows.now) }
{
    rows.iter().map(|row| row.1).collect(alloc)
}

// The elements of reads, and whether each is mandatory.
fn reads_of(alloc: Global, reads: &[(u32, u32, bool)]) -> Result<CardReads, NoMemory>
    ensures { IfOk result (λ new. new ≡ map (λ r. (r.1, r.2)) reads.now) }
{
    match reads {
        [] => Ok(CardReads::new()),
        [read] => Ok(CardReads::of_one((read.1, read.2))),
        _ => CardReads::from_vec(alloc, list_reads(alloc, reads)?),
    }
}

fn list_reads(alloc: Global, reads: &[(u32, u32, bool)]) -> Result<Vec<(u32, bool)>, NoMemory>
    ensures { IfOk result (λ new. new.items ≡ map (λ r. (r.1, r.2)) reads.now) }
{
    reads.iter().map(|r| (r.1, r.2)).collect(alloc)
}
