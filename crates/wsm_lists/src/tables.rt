// Tables: rows that ascend strictly by their keys.
ghost use Rattle.std.specs.{Prelude.{◌≡◌, ◌<◌, ℕ, ◌+◌, List, [], true, false, length, slice_get, filter, ◌==◌, not, OnErr, OnOk, IfOk, IsTrue, ◌↔◌, if◌then◌else◌}, Option.{option_copied, is_some}, Slice.Iter.iter_rest};
ghost use Rattle.wsm_lists.specs.Rows.{put_row, drop_row, row_at, rows_below, is_row_at, key_lt, key_eq, Ascends};

use crate::NoMemory;
use crate::keys::Keys;
use std::alloc::Global;
use std::marker::Model;
use std::slice;

/// Rows that ascend strictly by their keys.
#[derive(Drop)]
pub struct Table<K: Keys> {
    rows: Vec<K::Row>,
}

impl<K: Keys> Model for Table<K> {
    ghost use Rattle.std.specs.Prelude.{List};
    ghost use Rattle.wsm_lists.specs.Rows.{Ascends};

    ghost Value = { List K.Row };

    ghost view = { λ a. a.rows.items };

    ghost invariant = { λ a. Ascends K.key_of a.rows.items };
}

impl<K: Keys> Table<K> {
    /// The table without rows.
    pub fn new(alloc: Global) -> Self
        ensures { result ≡ [] }
    {
        Table {
            rows: Vec::new(alloc),
        }
    }

    // The table with these rows.
    pub(crate) fn of_ascending(rows: Vec<K::Row>) -> Self
        requires { Ascends K.key_of rows.items }
        ensures { result ≡ rows.items }
    {
        Table { rows }
    }

    /// The number of rows.
    pub fn len(&self) -> usize
        ensures { result ≡ length self.now }
    {
        self.rows.len()
    }

    /// Whether there are no rows.
    pub fn is_empty(&self) -> bool
        ensures { IsTrue result ↔ (self.now ≡ []) }
    {
        self.rows.is_empty()
    }

    /// The row at an index.
    pub fn get(&self, index: usize) -> Option<&K::Row>
        ensures { option_copied result ≡ slice_get self.now index }
    {
        self.rows.get(index)
    }

    /// All rows.
    pub fn as_slice(&self) -> &[K::Row]
        ensures rows { result.now ≡ self.now }
        ensures ascends { Ascends K.key_of result.now }
    {
        &self.rows
    }

    /// The rows one after another.
    pub fn iter(&self) -> slice::Iter<'_, K::Row>
        ensures { iter_rest result ≡ self.now }
    {
        self.rows.iter()
    }

    // Where a row with that key stands, or would stand.
    fn place(&self, key: (u32, u32)) -> usize
        ensures place { result ≡ rows_below K.key_of key self.now }
        ensures ascends { Ascends K.key_of self.now }
    {
        place_of::<K>(&self.rows, key)
    }

    /// The row with that key, by a binary search.
    pub fn find(&self, key: (u32, u32)) -> Option<&K::Row>
        ensures { option_copied result ≡ row_at K.key_of key self.now }
    {
        let at = self.place(key);
        row_with::<K>(&self.rows, at, key)
    }

    /// Whether there is a row with that key.
    pub fn has(&self, key: (u32, u32)) -> bool
        ensures { result ≡ is_some (row_at K.key_of key self.now) }
    {
        self.find(key).is_some()
    }

    /// The rows whose keys begin with this number, by two binary searches.
    pub fn rows_of(&self, number: u32) -> &[K::Row]
        ensures { result.now ≡ filter (λ row. (K.key_of row).0 == number) self.now }
    {
        run_of::<K>(&self.rows, number)
    }

    // Whether the row of that key stands at the place that it would have.
    fn has_at(&self, at: usize, key: (u32, u32)) -> bool
        requires { at ≡ rows_below K.key_of key self.now }
        ensures { result ≡ is_some (row_at K.key_of key self.now) }
    {
        row_with::<K>(&self.rows, at, key).is_some()
    }

    /// One more row at its place. False, with no change, where its key is there.
    pub fn put(&mut self, row: K::Row) -> Result<bool, NoMemory>
        ensures added { IfOk result (λ added. added ≡ not (is_some (row_at K.key_of (K.key_of row) self.old))) }
        ensures rows { IfOk result (λ added. self.new ≡ (if added then put_row K.key_of row self.old else self.old)) }
        ensures err { OnErr result (self.new ≡ self.old) }
    {
        let at = self.place(K::key(&row));
        if self.has_at(at, K::key(&row)) {
            return Ok(false);
        }
        self.add(at, row)?;
        Ok(true)
    }

    // One more row at its place, where its key is not there.
    fn add(&mut self, at: usize, row: K::Row) -> Result<(), NoMemory>
        requires place { at ≡ rows_below K.key_of (K.key_of row) self.old }
        requires absent { is_some (row_at K.key_of (K.key_of row) self.old) ≡ false }
        ensures ok { OnOk result (self.new ≡ put_row K.key_of row self.old) }
        ensures err { OnErr result (self.new ≡ self.old) }
    {
        self.rows.insert(at, row)?;
        Ok(())
    }

    // The row in place of the one with its key.
    fn replace(&mut self, at: usize, row: K::Row)
        requires place { at ≡ rows_below K.key_of (K.key_of row) self.old }
        requires there { is_some (row_at K.key_of (K.key_of row) self.old) ≡ true }
        ensures { self.new ≡ put_row K.key_of row self.old }
    {
        self.rows[at] = row;
    }

    /// The row at its place, in place of one with the same key.
    pub fn set(&mut self, row: K::Row) -> Result<(), NoMemory>
        ensures ok { OnOk result (self.new ≡ put_row K.key_of row self.old) }
        ensures err { OnErr result (self.new ≡ self.old) }
    {
        let at = self.place(K::key(&row));
        if self.has_at(at, K::key(&row)) {
            self.replace(at, row);
            return Ok(());
        }
        self.add(at, row)
    }

    /// Without the row of that key.
    pub fn remove(&mut self, key: (u32, u32))
        ensures { self.new ≡ drop_row K.key_of key self.old }
    {
        if self.has(key) {
            let at = self.place(key);
            self.rows.remove(at);
        }
    }

    /// The rows as a vector, without taking memory.
    pub fn into_vec(self) -> Vec<K::Row>
        ensures { result.items ≡ self }
    {
        self.rows
    }
}

impl<K: Keys> Table<K>
where
    K::Row: Copy,
{
    /// An equal table.
    pub fn copy(&self, alloc: Global) -> Result<Self, NoMemory>
        ensures { IfOk result (λ new. new ≡ self.now) }
    {
        Ok(Table {
            rows: Vec::from_slice(alloc, &self.rows)?,
        })
    }
}

// How many rows have a key below `key`: all, where the last one's is, since rows mostly come in order.
fn place_of<K: Keys>(rows: &[K::Row], key: (u32, u32)) -> usize
    requires { Ascends K.key_of rows.now }
    ensures { result ≡ rows_below K.key_of key rows.now }
{
    if are_below::<K>(rows, key) {
        rows.len()
    } else {
        searched_place::<K>(rows, key)
    }
}

// Whether all rows have keys below `key`, as the last one tells.
pub(crate) fn are_below<K: Keys>(rows: &[K::Row], key: (u32, u32)) -> bool
    requires { Ascends K.key_of rows.now }
    ensures { result ≡ true → rows_below K.key_of key rows.now ≡ length rows.now }
{
    match rows.last() {
        None => true,
        Some(row) => is_below(K::key(row), key),
    }
}

// How many rows have a key below `key`, by a binary search.
fn searched_place<K: Keys>(rows: &[K::Row], key: (u32, u32)) -> usize
    requires { Ascends K.key_of rows.now }
    ensures { result ≡ rows_below K.key_of key rows.now }
{
    rows.partition_point(|row| is_below(K::key(row), key))
}

// The rows whose keys begin with this number.
fn run_of<K: Keys>(rows: &[K::Row], number: u32) -> &[K::Row]
    requires { Ascends K.key_of rows.now }
    ensures { result.now ≡ filter (λ row. (K.key_of row).0 == number) rows.now }
{
    let from = place_of::<K>(rows, (number, 0));
    let to = end_of::<K>(rows, number);
    let (_, rest) = rows.split_at(from);
    let (run, _) = rest.split_at(to - from);
    run
}

// How many rows have a key that begins with this number or a smaller one, by a binary search.
fn end_of<K: Keys>(rows: &[K::Row], number: u32) -> usize
    requires { Ascends K.key_of rows.now }
    ensures { result ≡ rows_below K.key_of (number + 1, 0) rows.now }
{
    rows.partition_point(|row| K::key(row).0 <= number)
}

// The row at a place, where it has the key.
fn row_with<K: Keys>(rows: &[K::Row], at: usize, key: (u32, u32)) -> Option<&K::Row>
    requires ascends { Ascends K.key_of rows.now }
    requires place { at ≡ rows_below K.key_of key rows.now }
    ensures { option_copied result ≡ row_at K.key_of key rows.now }
{
    match item_at(rows, at) {
        None => None,
        Some(row) => {
            if is_same(K::key(row), key) {
                Some(row)
            } else {
                None
            }
        }
    }
}

fn item_at<T>(items: &[T], index: usize) -> Option<&T>
    ensures { option_copied result ≡ slice_get items.now index }
{
    items.get(index)
}

fn is_below(a: (u32, u32), b: (u32, u32)) -> bool
    ensures { result ≡ key_lt a b }
{
    a.0 < b.0 || (a.0 == b.0 && a.1 < b.1)
}

fn is_same(a: (u32, u32), b: (u32, u32)) -> bool
    ensures { result ≡ key_eq a b }
{
    a.0 == b.0 && a.1 == b.1
}
