// Rows grouped by a number.
ghost use Rattle.std.specs.{Prelude.{◌≡◌, ◌≤◌, length, slice_get, IfOk, IfSome}, Option.option_copied, List.Sorted.IsNonDecreasingBy};
ghost use Rattle.wsm_schema.specs.Groups.{has_number, rows_with, starts_at, SameGroups, IsStart, IsEnd};

use std::marker::Model;
use wsm_lists::NoMemory;

/// Rows in the order of their first numbers, found by binary search.
#[derive(Drop)]
pub struct Groups<T: Drop> {
    rows: Vec<(u32, T)>,
}

impl<T: Drop> Model for Groups<T> {
    ghost use Rattle.std.specs.Prelude.{ℕ, List};
    ghost use Rattle.std.specs.List.Sorted.{IsNonDecreasingBy};

    ghost Value = { List (ℕ × T) };

    ghost view = { λ a. a.rows.items };

    ghost invariant = { λ a. IsNonDecreasingBy (λ r. r.0) a.rows.items };
}

impl<T: Drop> Groups<T> {
    /// These rows, where those of one number stay in their order.
    pub fn of(mut rows: Vec<(u32, T)>) -> Result<Self, NoMemory>
        ensures { IfOk result (λ new. SameGroups rows.items new) }
    {
        rows.sort_by_key(|row| row.0)?;
        Ok(Groups { rows })
    }

    /// The rows of a number.
    pub fn rows_with(&self, number: u32) -> &[(u32, T)]
        ensures { result.now ≡ rows_with number self.now }
    {
        run_of(&self.rows, number)
    }

    /// The first row of a number.
    pub fn first_with(&self, number: u32) -> Option<&(u32, T)>
        ensures { option_copied result ≡ slice_get (rows_with number self.now) 0 }
    {
        let at = start_of(&self.rows, number);
        row_with(&self.rows, at, number)
    }
}

// The rows of a number.
fn run_of<T>(rows: &[(u32, T)], number: u32) -> &[(u32, T)]
    requires { IsNonDecreasingBy (λ r. r.0) rows.now }
    ensures { result.now ≡ rows_with number rows.now }
{
    let from = start_of(rows, number);
    let to = end_of(rows, number);
    &rows[from..to]
}

// The row at the place where those of smaller numbers end, where it has the number.
fn row_with<T>(rows: &[(u32, T)], at: usize, number: u32) -> Option<&(u32, T)>
    requires order { IsNonDecreasingBy (λ r. r.0) rows.now }
    requires place { IsStart number rows.now at }
    ensures { option_copied result ≡ slice_get (rows_with number rows.now) 0 }
{
    match row_at(rows, at) {
        None => None,
        Some(row) => { if row.0 == number { Some(row) } else { None } }
    }
}

fn row_at<T>(rows: &[(u32, T)], at: usize) -> Option<&(u32, T)>
    ensures { option_copied result ≡ slice_get rows.now at }
{
    rows.get(at)
}

// Where the rows of smaller numbers end: told by the first row or by the last where numbers have no gaps up to there, else by a
// binary search.
fn start_of<T>(rows: &[(u32, T)], number: u32) -> usize
    requires { IsNonDecreasingBy (λ r. r.0) rows.now }
    ensures bound { result ≤ length rows.now }
    ensures place { IsStart number rows.now result }
{
    if let Some(at) = start_behind_first(rows, number) {
        return at;
    }
    match start_before_last(rows, number) {
        Some(at) => at,
        None => searched_start(rows, number),
    }
}

// Where the first row of that number stands if each number before it has one row. None if it does not stand there.
fn start_behind_first<T>(rows: &[(u32, T)], number: u32) -> Option<usize>
    requires { IsNonDecreasingBy (λ r. r.0) rows.now }
    ensures bound { IfSome result (λ at. at ≤ length rows.now) }
    ensures place { IfSome result (IsStart number rows.now) }
{
    let least = rows.first()?.0;
    start_if_there(rows, number, number.checked_sub(least)? as usize)
}

// The same if each number behind it has one row.
fn start_before_last<T>(rows: &[(u32, T)], number: u32) -> Option<usize>
    requires { IsNonDecreasingBy (λ r. r.0) rows.now }
    ensures bound { IfSome result (λ at. at ≤ length rows.now) }
    ensures place { IfSome result (IsStart number rows.now) }
{
    let (last, rest) = rows.split_last()?;
    let behind = last.0.checked_sub(number)? as usize;
    let at = rest.len().checked_sub(behind)?;
    start_if_there(rows, number, at)
}

// The place, if the first row of the number stands there.
fn start_if_there<T>(rows: &[(u32, T)], number: u32, at: usize) -> Option<usize>
    requires { IsNonDecreasingBy (λ r. r.0) rows.now }
    ensures bound { IfSome result (λ at. at ≤ length rows.now) }
    ensures place { IfSome result (IsStart number rows.now) }
{
    if starts_at(rows, number, at) {
        Some(at)
    } else {
        None
    }
}

// Whether the row at a place has the number, and the one before it has not.
fn starts_at<T>(rows: &[(u32, T)], number: u32, at: usize) -> bool
    ensures { result ≡ starts_at number rows.now at }
{
    if at == 0 {
        return has_number(row_at(rows, 0), number);
    }
    has_number(row_at(rows, at), number) && !has_number(row_at(rows, at - 1), number)
}

fn has_number<T>(row: Option<&(u32, T)>, number: u32) -> bool
    ensures { result ≡ has_number number (option_copied row.entry) }
{
    match row {
        None => false,
        Some(row) => row.0 == number,
    }
}

fn searched_start<T>(rows: &[(u32, T)], number: u32) -> usize
    requires { IsNonDecreasingBy (λ r. r.0) rows.now }
    ensures bound { result ≤ length rows.now }
    ensures place { IsStart number rows.now result }
{
    rows.partition_point(|row| row.0 < number)
}

// Where the rows of this number and of smaller ones end, by a binary search.
fn end_of<T>(rows: &[(u32, T)], number: u32) -> usize
    requires { IsNonDecreasingBy (λ r. r.0) rows.now }
    ensures bound { result ≤ length rows.now }
    ensures place { IsEnd number rows.now result }
{
    rows.partition_point(|row| row.0 <= number)
}
