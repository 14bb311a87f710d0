// Schemas in a payload.
ghost use Rattle.std.specs.{Prelude.{◌≡◌, ◌≤◌, ◌++◌, nat_lt, true, OnOk, IfOk}, List.list_all};
ghost use Rattle.wsm_lists.specs.{Keys.first, Rows.{Ascends, key_lt}};
ghost use Rattle.wsm_schema.specs.Sound.{parts_depth};
ghost use Rattle.store_form.specs.{Given.Gives, Payload.{u32, flag, listed, schema_bytes, tables_bytes, edges_bytes}, Reading.{read_at, rises, rises_from, roles_at, schema_at, table_at}, Shrinking.read_shrinks, Stored.{FitsEach, FitsEdges}};
ghost use Rattle.store_form.specs.Stored.{FitsSchema, FitsTables, IsNumber};

use crate::fields::{Part, ReadFault};
use crate::limits::MAX_DEPTH;
use crate::lists::{put_list, read_list};
use crate::trees::{put_items, read_items};
use adept_io::NoMemory;
use std::alloc::Global;
use wsm_lists::{ByEdge, ByElement, ByNode, ByRead, Keys, Roles, Table};
use wsm_schema::Schema;

impl Part for (u32, u32, bool) {
    ghost bytes = { λ r. u32 r.0 ++ (u32 r.1 ++ flag r.2) };

    ghost reading = { read_at };

    ghost fits = { λ r. IsNumber r.0 × IsNumber r.1 };

    fn put(&self, out: &mut Vec<u8>) -> Result<(), NoMemory> {
        self.0.put(out)?;
        self.1.put(out)?;
        self.2.put(out)
    }

    fn read(alloc: Global, from: &[u8]) -> Result<((u32, u32, bool), &[u8]), ReadFault> {
        let (node, rest) = u32::read(alloc, from)?;
        let (element, rest) = u32::read(alloc, rest)?;
        let (mandatory, rest) = bool::read(alloc, rest)?;
        Ok(((node, element, mandatory), rest))
    }

    ghost shrinks = { read_shrinks };
}

// Puts a schema: its ends, its tree, and its lists.
pub(crate) fn put_schema(schema: &Schema, out: &mut Vec<u8>) -> Result<(), NoMemory>
    requires deep { parts_depth schema.now.body ≤ 64 }
    ensures bytes { OnOk result (out.new.items ≡ out.old.items ++ schema_bytes schema.now) }
    ensures fits { OnOk result (FitsSchema schema.now) }
{
    (schema.start, schema.finish).put(out)?;
    put_items(&schema.body, out)?;
    put_tables(schema, out)
}

// Puts the lists of a schema.
fn put_tables(schema: &Schema, out: &mut Vec<u8>) -> Result<(), NoMemory>
    ensures bytes { OnOk result (out.new.items ≡ out.old.items ++ tables_bytes schema.now) }
    ensures fits { OnOk result (FitsTables schema.now) }
{
    put_table(&schema.syncs, out)?;
    put_table(&schema.elements, out)?;
    put_edges(schema, out)
}

// Puts the reads, the writes and the roles of a schema.
fn put_edges(schema: &Schema, out: &mut Vec<u8>) -> Result<(), NoMemory>
    ensures bytes { OnOk result (out.new.items ≡ out.old.items ++ edges_bytes schema.now) }
    ensures fits { OnOk result (FitsEdges schema.now) }
{
    put_table(&schema.reads, out)?;
    put_table(&schema.writes, out)?;
    put_list(schema.roles.as_slice(), out)
}

// Puts the rows of a table, which ascend.
fn put_table<K: Keys>(table: &Table<K>, out: &mut Vec<u8>) -> Result<(), NoMemory>
where
    K::Row: Part,
    ensures bytes { OnOk result (out.new.items ≡ out.old.items ++ listed K.Row.bytes table.now) }
    ensures fits { OnOk result (FitsEach K.Row.fits table.now × Ascends K.key_of table.now) }
{
    put_list(table.as_slice(), out)
}

// Reads a schema.
#[tactic(auto, unfolding(crate::specs::Reading::schema_at))]
pub(crate) fn read_schema(alloc: Global, from: &[u8]) -> Result<(Schema, &[u8]), ReadFault>
    ensures { Gives (λ x. (x.0, x.1.now)) result (schema_at from.now) }
{
    let (start, rest) = u32::read(alloc, from)?;
    let (finish, rest) = u32::read(alloc, rest)?;
    let (body, rest) = read_items(alloc, MAX_DEPTH, rest)?;
    let (syncs, rest) = read_table::<ByEdge>(alloc, rest)?;
    let (elements, rest) = read_table::<ByElement>(alloc, rest)?;
    let (reads, rest) = read_table::<ByRead>(alloc, rest)?;
    let (writes, rest) = read_table::<ByEdge>(alloc, rest)?;
    let (roles, rest) = read_roles(alloc, rest)?;
    let schema = Schema {
        start,
        finish,
        body,
        syncs,
        elements,
        reads,
        writes,
        roles,
    };
    Ok((schema, rest))
}

// Reads the rows of a table, which ascend by their keys.
fn read_table<K: Keys>(alloc: Global, from: &[u8]) -> Result<(Table<K>, &[u8]), ReadFault>
where
    K::Row: Part + Copy,
    ensures { Gives (λ x. (x.0, x.1.now)) result (table_at K.key_of K.Row.reading from.now) }
{
    let (rows, rest) = read_list::<K::Row>(alloc, from)?;
    if !rise::<K>(&rows) {
        return Err(ReadFault::Malformed);
    }
    Ok((table_of::<K>(alloc, &rows)?, rest))
}

// Whether each key is above the one before it.
fn rise<K: Keys>(rows: &[K::Row]) -> bool
    ensures { result ≡ rises K.key_of rows.now }
{
    match rows {
        [] => true,
        [first, rest @ ..] => rise_from::<K>(K::key(first), rest),
    }
}

// Whether each key is above the one before it, and the first above that one.
fn rise_from<K: Keys>(start: (u32, u32), rows: &[K::Row]) -> bool
    ensures { result ≡ rises_from K.key_of start rows.now }
{
    let mut below = start;
    for row in rows {
        let key = K::key(row);
        if !is_below(below, key) {
            return false;
        }
        below = key;
    }
    true
}

fn is_below(a: (u32, u32), b: (u32, u32)) -> bool
    ensures { result ≡ key_lt a b }
{
    a.0 < b.0 || (a.0 == b.0 && a.1 < b.1)
}

// The table of rows that ascend.
fn table_of<K: Keys>(alloc: Global, rows: &[K::Row]) -> Result<Table<K>, NoMemory>
where
    K::Row: Copy,
    requires { rises K.key_of rows.now ≡ true }
    ensures { IfOk result (λ table. table ≡ rows.now) }
{
    let mut table = Table::new(alloc);
    for row in rows {
        table.set(*row)?;
    }
    Ok(table)
}

// Reads the roles of nodes, of which none is 0.
fn read_roles(alloc: Global, from: &[u8]) -> Result<(Roles, &[u8]), ReadFault>
    ensures { Gives (λ x. (x.0, x.1.now)) result (roles_at from.now) }
{
    let (rows, rest) = read_list::<(u32, u32)>(alloc, from)?;
    if !rise::<ByNode>(&rows) {
        return Err(ReadFault::Malformed);
    }
    if !are_roles(&rows) {
        return Err(ReadFault::Malformed);
    }
    Ok((roles_of(alloc, &rows)?, rest))
}

// Whether no role is 0.
fn are_roles(rows: &[(u32, u32)]) -> bool
    ensures { result ≡ list_all (λ r. nat_lt 0 r.1) rows.now }
{
    rows.iter().all(|row| 0 < row.1)
}

// The roles that rows list, which ascend by node.
fn roles_of(alloc: Global, rows: &[(u32, u32)]) -> Result<Roles, NoMemory>
    requires rise { rises first rows.now ≡ true }
    requires roles { list_all (λ r. nat_lt 0 r.1) rows.now ≡ true }
    ensures { IfOk result (λ roles. roles ≡ rows.now) }
{
    let mut roles = Roles::new(alloc);
    for row in rows {
        roles.put(row.0, row.1)?;
    }
    Ok(roles)
}
