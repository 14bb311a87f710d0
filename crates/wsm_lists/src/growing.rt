// Tables while many rows are put, one after another and in any order.
ghost use Rattle.std.specs.{Prelude.{◌≡◌, ◌<◌, ℕ, [], false, not, OnErr, OnOk, IfOk, if◌then◌else◌}, Option.{is_some, option_copied}};
ghost use Rattle.wsm_lists.specs.{Entries.{Keyed, rows_of}, Keys.put_role, PutOver.put_over, Rows.{Ascends, put_row, drop_row, row_at}};

use crate::NoMemory;
use crate::keys::{ByNode, Keys};
use crate::roles::Roles;
use crate::tables::{Table, are_below};
use std::alloc::Global;
use std::collections::BTreeMap;
use std::marker::Model;

/// A table that grows: a row is put in a time that grows with the logarithm of the number of rows. Its first rows stand in a
/// list, since most tables stay that small, and so do those that come in order, since no others are moved for them.
#[derive(Drop)]
pub struct GrowingTable<K: Keys> {
    few: Table<K>,
    more: BTreeMap<(u32, u32), K::Row>,
}

/// How many rows stand in a list, in whatever order they come, before others go into a map.
const FEW_ROWS: usize = 16;

impl<K: Keys> Model for GrowingTable<K> {
    ghost use Rattle.std.specs.Prelude.{List};
    ghost use Rattle.wsm_lists.specs.Entries.{rows_of, Keyed};
    ghost use Rattle.wsm_lists.specs.PutOver.{put_over};
    ghost use Rattle.wsm_lists.specs.Rows.{Ascends};

    ghost Value = { List K.Row };

    ghost view = { λ a. put_over K.key_of a.few (rows_of a.more.entries) };

    ghost invariant = { λ a. Keyed K.key_of a.more.entries × Ascends K.key_of (rows_of a.more.entries) };
}

impl<K: Keys> GrowingTable<K> {
    /// The table without rows.
    pub fn new(alloc: Global) -> Self
        ensures { result ≡ [] }
    {
        GrowingTable {
            few: Table::new(alloc),
            more: BTreeMap::new(alloc),
        }
    }

    /// The row with that key.
    pub fn find(&self, key: (u32, u32)) -> Option<&K::Row>
        ensures found { option_copied result ≡ row_at K.key_of key self.now }
        ensures ascends { Ascends K.key_of self.now }
    {
        match self.few.find(key) {
            None => self.more.get(&key),
            Some(row) => Some(row),
        }
    }

    /// Whether there is a row with that key.
    pub fn has(&self, key: (u32, u32)) -> bool
        ensures { result ≡ is_some (row_at K.key_of key self.now) }
    {
        self.find(key).is_some()
    }

    /// One more row at its place. False, with no change, where its key is there.
    pub fn put(&mut self, row: K::Row) -> Result<bool, NoMemory>
        ensures added { IfOk result (λ added. added ≡ not (is_some (row_at K.key_of (K.key_of row) self.old))) }
        ensures rows { IfOk result (λ added. self.new ≡ (if added then put_row K.key_of row self.old else self.old)) }
        ensures err { OnErr result (self.new ≡ self.old) }
    {
        if self.has(K::key(&row)) {
            return Ok(false);
        }
        self.set(row)?;
        Ok(true)
    }

    /// The row at its place, in place of one with the same key.
    pub fn set(&mut self, row: K::Row) -> Result<(), NoMemory>
        ensures ok { OnOk result (self.new ≡ put_row K.key_of row self.old) }
        ensures err { OnErr result (self.new ≡ self.old) }
    {
        if goes_into_list::<K>(&self.few, K::key(&row)) {
            return self.few.set(row);
        }
        put_in_map::<K>(&mut self.more, row)?;
        Ok(())
    }

    /// Without the row of that key.
    pub fn remove(&mut self, key: (u32, u32))
        ensures { self.new ≡ drop_row K.key_of key self.old }
    {
        let _ = self.few.as_slice();
        self.few.remove(key);
        self.more.remove(&key);
    }

    /// The table with these rows, which grows no more.
    pub fn into_table(self, alloc: Global) -> Result<Table<K>, NoMemory>
        ensures { IfOk result (λ table. table ≡ self) }
    {
        let GrowingTable { mut few, mut more } = self;
        let _ = few.as_slice();
        if more.is_empty() {
            return Ok(few);
        }
        if more.len() < FEW_ROWS {
            put_under::<K>(&mut few, table_of::<K>(alloc, more)?.into_vec())?;
            return Ok(few);
        }
        put_all_in_map::<K>(&mut more, few.into_vec())?;
        table_of::<K>(alloc, more)
    }
}

// Whether a row of that key goes into the list: while that is short, where its key is behind all that are there, and where
// it is there.
fn goes_into_list<K: Keys>(list: &Table<K>, key: (u32, u32)) -> bool
    ensures { result ≡ false → is_some (row_at K.key_of key list.now) ≡ false }
{
    list.len() < FEW_ROWS || are_below::<K>(list.as_slice(), key) || list.has(key)
}

// Some more rows, but for those whose keys are there.
fn put_under<K: Keys>(table: &mut Table<K>, rows: Vec<K::Row>) -> Result<(), NoMemory>
    requires { Ascends K.key_of rows.items }
    ensures { OnOk result (table.new ≡ put_over K.key_of table.old rows.items) }
{
    let _ = table.as_slice();
    for row in rows {
        table.put(row)?;
    }
    Ok(())
}

// The rows of the map as a table.
fn table_of<K: Keys>(alloc: Global, map: BTreeMap<(u32, u32), K::Row>) -> Result<Table<K>, NoMemory>
    requires { Ascends K.key_of (rows_of map.entries) }
    ensures { IfOk result (λ table. table ≡ rows_of map.entries) }
{
    Ok(Table::of_ascending(map.into_values().collect(alloc)?))
}

// The row at its place in the map, in place of one with the same key.
fn put_in_map<K: Keys>(map: &mut BTreeMap<(u32, u32), K::Row>, row: K::Row) -> Result<(), NoMemory>
    requires { Keyed K.key_of map.old.entries }
    ensures rows { OnOk result (rows_of map.new.entries ≡ put_row K.key_of row (rows_of map.old.entries)) }
    ensures keyed { OnOk result (Keyed K.key_of map.new.entries) }
    ensures err { OnErr result (map.new.entries ≡ map.old.entries) }
{
    let key = K::key(&row);
    map.insert(key, row)?;
    Ok(())
}

// The rows at their places in the map, in place of those with the same keys.
fn put_all_in_map<K: Keys>(
    map: &mut BTreeMap<(u32, u32), K::Row>,
    rows: Vec<K::Row>,
) -> Result<(), NoMemory>
    requires rows { Ascends K.key_of rows.items }
    requires keyed { Keyed K.key_of map.old.entries }
    requires ascends { Ascends K.key_of (rows_of map.old.entries) }
    ensures rows { OnOk result (rows_of map.new.entries ≡ put_over K.key_of rows.items (rows_of map.old.entries)) }
    ensures ascends { OnOk result (Ascends K.key_of (rows_of map.new.entries)) }
{
    for row in rows {
        put_in_map::<K>(map, row)?;
    }
    Ok(())
}

/// Roles of nodes that grow: a role is put in a time that grows with the logarithm of their number.
#[derive(Drop)]
pub struct GrowingRoles {
    rows: GrowingTable<ByNode>,
}

impl Model for GrowingRoles {
    ghost use Rattle.std.specs.Prelude.{ℕ, List, ◌<◌};
    ghost use Rattle.wsm_lists.specs.Rows.{AllRows};

    ghost Value = { List (ℕ × ℕ) };

    ghost view = { λ a. a.rows };

    ghost invariant = { λ a. AllRows (λ (r : ℕ × ℕ). 0 < r.1) a.rows };
}

impl GrowingRoles {
    /// No node has a role.
    pub fn new(alloc: Global) -> GrowingRoles
        ensures { result ≡ [] }
    {
        GrowingRoles {
            rows: GrowingTable::new(alloc),
        }
    }

    /// The role of the node is then `role`. Role 0 takes the node from the list.
    pub fn put(&mut self, node: u32, role: u32) -> Result<(), NoMemory>
        ensures ok { OnOk result (self.new ≡ put_role node role self.old) }
        ensures err { OnErr result (self.new ≡ self.old) }
    {
        if role == 0 {
            self.rows.remove((node, 0));
            return Ok(());
        }
        self.rows.set((node, role))
    }

    /// These roles, which grow no more.
    pub fn into_roles(self, alloc: Global) -> Result<Roles, NoMemory>
        ensures { IfOk result (λ roles. roles ≡ self) }
    {
        Ok(Roles::of_rows(self.rows.into_table(alloc)?))
    }
}
