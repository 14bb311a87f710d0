// Rows by number, in reserved room.
ghost use Rattle.std.specs.{Prelude.{◌≡◌, ◌+◌, ◌<◌, ◌≤◌, [], length, slice_get, vec_len, vec_capacity, IfOk, IfSome, OnOk, if◌then◌else◌}, List.insert, Option.{is_some, option_copied}};
ghost use Rattle.wsm_lists.specs.{Keys.first, ByNumber.{changed, item_at}, Rows.{Ascends, drop_row, put_row, rows_below}};

use crate::NoMemory;
use crate::keys::ByFirst;
use crate::tables::Table;
use crate::taking::take_in;
use std::alloc::Global;
use std::marker::Model;

/// Rows that ascend by a number in front of each. While reserved room lasts, rows are set without taking memory.
#[derive(Drop)]
pub struct NumberedRows<T: Drop> {
    rows: Vec<(u32, T)>,
}

impl<T: Drop> Model for NumberedRows<T> {
    ghost use Rattle.std.specs.Prelude.{◌-◌, vec_len, vec_capacity};
    ghost use Rattle.wsm_lists.specs.Keys.{first};
    ghost use Rattle.wsm_lists.specs.ByNumber.{RowsWithRoom};
    ghost use Rattle.wsm_lists.specs.Rows.{Ascends};

    ghost Value = { RowsWithRoom T };

    ghost view = { λ a. record { rows = a.rows.items; spare = vec_capacity a.rows - vec_len a.rows } };

    ghost invariant = { λ a. Ascends first a.rows.items };
}

impl<T: Drop> NumberedRows<T> {
    /// No rows.
    pub fn new(alloc: Global) -> Self
        ensures { result.rows ≡ [] }
    {
        NumberedRows {
            rows: Vec::new(alloc),
        }
    }

    /// All rows.
    pub fn as_slice(&self) -> &[(u32, T)]
        ensures rows { result.now ≡ self.now.rows }
        ensures ascends { Ascends first result.now }
    {
        &self.rows
    }

    /// What the row of a number holds, by a binary search. None where there is no such row.
    pub fn get(&self, number: u32) -> Option<&T>
        ensures { option_copied result ≡ item_at number self.now.rows }
    {
        find(&self.rows, number)
    }

    /// Room for so many more rows.
    pub fn reserve(&mut self, more: usize) -> Result<(), NoMemory>
        ensures same { self.new.rows ≡ self.old.rows }
        ensures room { OnOk result (more ≤ self.new.spare) }
        ensures kept { self.old.spare ≤ self.new.spare }
    {
        let count = self.rows.len();
        if more <= self.rows.capacity() - count {
            return Ok(());
        }
        self.rows.reserve_exact(more.max(more_room(count)))
    }

    /// The row of a number holds that from now on. Takes no memory.
    pub fn set(&mut self, number: u32, item: T)
        requires { 0 < self.old.spare + (if is_some (item_at number self.old.rows) then 1 else 0) }
        ensures rows { self.new.rows ≡ put_row first (number, item) self.old.rows }
        ensures spare { self.old.spare ≤ self.new.spare + (if is_some (item_at number self.old.rows) then 0 else 1) }
    {
        set_row(&mut self.rows, (number, item));
    }

    /// Without the row of that number. Takes no memory.
    pub fn remove(&mut self, number: u32)
        ensures rows { self.new.rows ≡ drop_row first (number, 0) self.old.rows }
        ensures spare { self.old.spare ≤ self.new.spare }
    {
        if has(&self.rows, number) {
            let at = place_of(&self.rows, number);
            self.rows.remove(at);
        }
    }
}

impl<T: Copy + Drop> NumberedRows<T> {
    /// Equal rows, without further room.
    pub fn copy(&self, alloc: Global) -> Result<Self, NoMemory>
        ensures { IfOk result (λ new. new.rows ≡ self.now.rows) }
    {
        Ok(NumberedRows {
            rows: Vec::from_slice(alloc, &self.rows)?,
        })
    }

    /// The changes, one for each number that they name: a row is put, or goes where there is None. Takes no memory.
    pub fn take_in(&mut self, changes: Table<ByFirst<Option<T>>>)
        requires { length changes ≤ self.old.spare }
        ensures rows { self.new.rows ≡ changed changes self.old.rows }
        ensures spare { self.old.spare ≤ self.new.spare + length changes }
    {
        take_in(&mut self.rows, changes.as_slice());
    }
}

// For how many rows more there is room where so many have no more: a case keeps rows for long, and mostly few.
fn more_room(count: usize) -> usize {
    match count {
        0..=3 => 4 - count,
        _ => count / 2,
    }
}

// The row at its place, or in place of the one with its number.
pub(crate) fn set_row<T: Drop>(rows: &mut Vec<(u32, T)>, row: (u32, T))
    requires ascends { Ascends first rows.old.items }
    requires room { vec_len rows.old < vec_capacity rows.old + (if is_some (item_at row.0 rows.old.items) then 1 else 0) }
    ensures rows { rows.new.items ≡ put_row first row rows.old.items }
    ensures capacity { vec_capacity rows.old ≤ vec_capacity rows.new }
    ensures len { vec_len rows.new ≡ vec_len rows.old + (if is_some (item_at row.0 rows.old.items) then 0 else 1) }
{
    let at = place_of(rows, row.0);
    if is_there(rows, at, row.0) {
        rows[at] = row;
    } else {
        insert_row(rows, at, row);
    }
}

// One more row at that place. Takes no memory.
fn insert_row<T: Drop>(rows: &mut Vec<(u32, T)>, at: usize, row: (u32, T))
    requires place { at ≤ vec_len rows.old }
    requires room { vec_len rows.old < vec_capacity rows.old }
    ensures rows { rows.new.items ≡ insert rows.old.items at row }
    ensures capacity { vec_capacity rows.old ≤ vec_capacity rows.new }
    ensures len { vec_len rows.new ≡ vec_len rows.old + 1 }
{
    if rows.insert(at, row).is_err() {
        unreachable!()
    }
}

// How many rows have a smaller number: told by the last row or by the first where numbers have no gaps between, else by a binary
// search.
fn place_of<T>(rows: &[(u32, T)], number: u32) -> usize
    requires { Ascends first rows.now }
    ensures { result ≡ rows_below first (number, 0) rows.now }
{
    match place_before_last(rows, number) {
        Some(at) => at,
        None => match place_behind_first(rows, number) {
            Some(at) => at,
            None => searched_place(rows, number),
        },
    }
}

// Where the row of that number stands if the numbers from it to the last have no gaps, or if it is greater than them. None if it
// does not stand there.
fn place_before_last<T>(rows: &[(u32, T)], number: u32) -> Option<usize>
    requires { Ascends first rows.now }
    ensures { IfSome result (λ at. at ≡ rows_below first (number, 0) rows.now) }
{
    match rows.last() {
        None => None,
        Some(last) => {
            if last.0 < number {
                return Some(rows.len());
            }
            let at = (rows.len() - 1).checked_sub((last.0 - number) as usize)?;
            place_if_there(rows, at, number)
        }
    }
}

// Where the row of that number stands if the numbers before it have no gaps. None if it does not stand there.
fn place_behind_first<T>(rows: &[(u32, T)], number: u32) -> Option<usize>
    requires { Ascends first rows.now }
    ensures { IfSome result (λ at. at ≡ rows_below first (number, 0) rows.now) }
{
    let least = rows.first()?.0;
    let at = number.checked_sub(least)? as usize;
    place_if_there(rows, at, number)
}

// The place, where the row there has the number.
fn place_if_there<T>(rows: &[(u32, T)], at: usize, number: u32) -> Option<usize>
    requires { Ascends first rows.now }
    ensures { IfSome result (λ at. at ≡ rows_below first (number, 0) rows.now) }
{
    match row_at(rows, at) {
        Some(row) => { if row.0 == number { Some(at) } else { None } }
        None => None,
    }
}

fn searched_place<T>(rows: &[(u32, T)], number: u32) -> usize
    requires { Ascends first rows.now }
    ensures { result ≡ rows_below first (number, 0) rows.now }
{
    rows.partition_point(|row| row.0 < number)
}

pub(crate) fn has<T>(rows: &[(u32, T)], number: u32) -> bool
    requires { Ascends first rows.now }
    ensures { result ≡ is_some (item_at number rows.now) }
{
    find(rows, number).is_some()
}

// Whether there is a row of that number, where it stands at the place if there is one.
fn is_there<T>(rows: &[(u32, T)], at: usize, number: u32) -> bool
    requires ascends { Ascends first rows.now }
    requires place { at ≡ rows_below first (number, 0) rows.now }
    ensures { result ≡ is_some (item_at number rows.now) }
{
    item_if_there(rows, at, number).is_some()
}

// What the row of that number holds.
pub(crate) fn find<T>(rows: &[(u32, T)], number: u32) -> Option<&T>
    requires { Ascends first rows.now }
    ensures { option_copied result ≡ item_at number rows.now }
{
    let at = place_of(rows, number);
    item_if_there(rows, at, number)
}

// What the row of that number holds, where it stands at the place if there is one.
fn item_if_there<T>(rows: &[(u32, T)], at: usize, number: u32) -> Option<&T>
    requires ascends { Ascends first rows.now }
    requires place { at ≡ rows_below first (number, 0) rows.now }
    ensures { option_copied result ≡ item_at number rows.now }
{
    match row_at(rows, at) {
        Some(row) => { if row.0 == number { Some(&row.1) } else { None } }
        None => None,
    }
}

fn row_at<T>(rows: &[T], index: usize) -> Option<&T>
    ensures { option_copied result ≡ slice_get rows.now index }
{
    rows.get(index)
}
