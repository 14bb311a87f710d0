// Where each element was written last.
ghost use Rattle.std.specs.{Prelude.{◌≡◌, ◌+◌, ◌≤◌, ◌<◌, [], length, vec_len, vec_capacity, OnOk, OnErr, IfOk}, List.insert, Option.is_some};
ghost use Rattle.wsm_lists.specs.{Keys.first, Rows.{put_row, Ascends}, ByNumber.item_at};
ghost use Rattle.wsm_trail.specs.LastWrites.{noted, noted_entry};

use crate::entries::written_by;
use crate::lookups::{find, place_of};
use std::alloc::Global;
use std::marker::Model;
use wsm_schema::{Entry, NoMemory, Value};

/// For each element that was written, the position of its last write, ascending by element.
#[derive(Drop)]
pub struct LastWrites {
    rows: Vec<(u32, u32)>,
}

impl Model for LastWrites {
    ghost use Rattle.std.specs.Prelude.{◌-◌, vec_len, vec_capacity};
    ghost use Rattle.wsm_lists.specs.Keys.{first};
    ghost use Rattle.wsm_lists.specs.Rows.{Ascends};
    ghost use Rattle.wsm_trail.specs.LastWrites.{RowsWithRoom};

    ghost Value = { RowsWithRoom };

    ghost view = { λ a. record { rows = a.rows.items; spare = vec_capacity a.rows - vec_len a.rows } };

    ghost invariant = { λ a. Ascends first a.rows.items };
}

impl LastWrites {
    /// No element was written.
    pub fn new(alloc: Global) -> Self
        ensures { result.rows ≡ [] }
    {
        LastWrites {
            rows: Vec::new(alloc),
        }
    }

    /// The position of the element's last write.
    pub fn position(&self, element: u32) -> Option<u32>
        ensures { result ≡ item_at element self.now.rows }
    {
        find(&self.rows, element).copied()
    }

    /// All elements that were written, each with the position of its last write.
    pub fn as_slice(&self) -> &[(u32, u32)]
        ensures rows { result.now ≡ self.now.rows }
        ensures ascends { Ascends first result.now }
    {
        &self.rows
    }

    /// The same rows, without further room.
    pub fn copy(&self, alloc: Global) -> Result<LastWrites, NoMemory>
        ensures { IfOk result (λ new. new.rows ≡ self.now.rows) }
    {
        Ok(LastWrites {
            rows: Vec::from_slice(alloc, &self.rows)?,
        })
    }

    /// That entry stands at that position, which is behind all others.
    pub fn note_entry(&mut self, position: u32, entry: &Entry) -> Result<(), NoMemory>
        ensures ok { OnOk result (self.new.rows ≡ noted_entry self.old.rows (position, entry.now)) }
        ensures err { OnErr result (self.new.rows ≡ self.old.rows) }
    {
        let writes = written_by(entry);
        self.reserve(writes.len())?;
        self.note(position, writes);
        Ok(())
    }

    // Room for so many more elements.
    fn reserve(&mut self, more: usize) -> Result<(), NoMemory>
        ensures same { self.new.rows ≡ self.old.rows }
        ensures room { OnOk result (more ≤ self.new.spare) }
    {
        self.rows.try_reserve(more)
    }

    // These were written at that position, which is behind all others. Takes no memory.
    fn note(&mut self, position: u32, writes: &[(u32, Value)])
        requires { length writes.now ≤ self.old.spare }
        ensures rows { self.new.rows ≡ noted position self.old.rows writes.now }
        ensures spare { self.old.spare ≤ self.new.spare + length writes.now }
    {
        for write in writes {
            self.put(write.0, position);
        }
    }

    // The element was written last at that position.
    fn put(&mut self, element: u32, position: u32)
        requires { 0 < self.old.spare }
        ensures rows { self.new.rows ≡ put_row first (element, position) self.old.rows }
        ensures spare { self.old.spare ≤ self.new.spare + 1 }
    {
        put_row(&mut self.rows, (element, position));
    }
}

// The row at its place, or in place of the one with its number.
fn put_row(rows: &mut Vec<(u32, u32)>, row: (u32, u32))
    requires ascends { Ascends first rows.old.items }
    requires room { vec_len rows.old < vec_capacity rows.old }
    ensures rows { rows.new.items ≡ put_row first row rows.old.items }
    ensures capacity { vec_capacity rows.old ≤ vec_capacity rows.new }
    ensures len { vec_len rows.new ≤ vec_len rows.old + 1 }
{
    let at = place_of(rows, row.0);
    if has_row(rows, row.0) {
        rows[at] = row;
    } else {
        insert_row(rows, at, row);
    }
}

fn has_row(rows: &[(u32, u32)], number: u32) -> bool
    requires { Ascends first rows.now }
    ensures { result ≡ is_some (item_at number rows.now) }
{
    find(rows, number).is_some()
}

// One more row at that place. Takes no memory.
fn insert_row(rows: &mut Vec<(u32, u32)>, at: usize, row: (u32, u32))
    requires place { at ≤ vec_len rows.old }
    requires room { vec_len rows.old < vec_capacity rows.old }
    ensures rows { rows.new.items ≡ insert rows.old.items at row }
    ensures capacity { vec_capacity rows.old ≤ vec_capacity rows.new }
    ensures len { vec_len rows.new ≡ vec_len rows.old + 1 }
{
    if rows.insert(at, row).is_err() {
        unreachable!()
    }
}
