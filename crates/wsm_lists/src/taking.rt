// Changes taken into rows by number, in reserved room.
ghost use Rattle.std.specs.{Prelude.{◌≡◌, ◌+◌, ◌<◌, ◌≤◌, [], ◌∷◌, ◌++◌, length, take, filter, not, is_some, vec_len, vec_capacity}, List.list_any};
ghost use Rattle.wsm_lists.specs.{ByNumber.{changed, item_at}, Keys.first, Rows.Ascends, TakenIn.{absent_of, is_gone, last_number, put_all, put_before, puts_of}};

use crate::reserved::{find, has, set_row};

/// The rows after all changes: a time of n + k, or of k searches where each change finds its row. Takes no memory.
pub(crate) fn take_in<T: Copy + Drop>(rows: &mut Vec<(u32, T)>, changes: &[(u32, Option<T>)])
    requires rows { Ascends first rows.old.items }
    requires changes { Ascends first changes.now }
    requires room { vec_len rows.old + length changes.now ≤ vec_capacity rows.old }
    ensures rows { rows.new.items ≡ changed changes.now rows.old.items }
    ensures capacity { vec_capacity rows.old ≤ vec_capacity rows.new }
    ensures len { vec_len rows.new ≤ vec_len rows.old + length changes.now }
{
    put_changes(rows, changes);
    if drops_some(changes) {
        drop_gone(rows, changes);
    }
}

// The rows with all that changes put.
fn put_changes<T: Copy + Drop>(rows: &mut Vec<(u32, T)>, changes: &[(u32, Option<T>)])
    requires rows { Ascends first rows.old.items }
    requires changes { Ascends first changes.now }
    requires room { vec_len rows.old + length changes.now ≤ vec_capacity rows.old }
    ensures rows { rows.new.items ≡ put_all (puts_of changes.now) rows.old.items }
    ensures capacity { vec_capacity rows.old ≤ vec_capacity rows.new }
    ensures len { vec_len rows.new ≤ vec_len rows.old + length changes.now }
{
    let count = rows.len();
    push_absent(rows, changes);
    if rows.len() == count {
        set_each(rows, changes);
    } else {
        merge(rows, count, changes);
    }
}

// Behind the rows those that changes put where there is no row yet.
fn push_absent<T: Copy + Drop>(rows: &mut Vec<(u32, T)>, changes: &[(u32, Option<T>)])
    requires rows { Ascends first rows.old.items }
    requires room { vec_len rows.old + length changes.now ≤ vec_capacity rows.old }
    ensures rows { rows.new.items ≡ rows.old.items ++ absent_of (puts_of changes.now) rows.old.items }
    ensures capacity { vec_capacity rows.old ≤ vec_capacity rows.new }
    ensures len { vec_len rows.new ≤ vec_len rows.old + length changes.now }
{
    let count = rows.len();
    for change in changes {
        push_if_absent(rows, count, *change);
    }
}

// Behind the rows the one that a change puts, where the first rows have none of its number.
fn push_if_absent<T: Copy + Drop>(rows: &mut Vec<(u32, T)>, count: usize, change: (u32, Option<T>))
    requires count { count ≤ vec_len rows.old }
    requires rows { Ascends first (take count rows.old.items) }
    requires room { vec_len rows.old < vec_capacity rows.old }
    ensures rows { rows.new.items ≡ rows.old.items ++ absent_of (put_before change.0 change.1 []) (take count rows.old.items) }
    ensures capacity { vec_capacity rows.old ≤ vec_capacity rows.new }
    ensures len { vec_len rows.new ≤ vec_len rows.old + 1 }
{
    match change.1 {
        None => {}
        Some(item) => {
            let (first_rows, _) = rows.split_at(count);
            if !has(first_rows, change.0) {
                push_row(rows, (change.0, item));
            }
        }
    }
}

// One more row behind the others. Takes no memory.
fn push_row<T: Drop>(rows: &mut Vec<(u32, T)>, row: (u32, T))
    requires room { vec_len rows.old < vec_capacity rows.old }
    ensures rows { rows.new.items ≡ rows.old.items ++ row ∷ [] }
    ensures capacity { vec_capacity rows.old ≤ vec_capacity rows.new }
    ensures len { vec_len rows.new ≡ vec_len rows.old + 1 }
{
    if rows.push(row).is_err() {
        unreachable!()
    }
}

// Each row that changes put, at its place.
fn set_each<T: Copy + Drop>(rows: &mut Vec<(u32, T)>, changes: &[(u32, Option<T>)])
    requires rows { Ascends first rows.old.items }
    requires room { vec_len rows.old + length changes.now ≤ vec_capacity rows.old }
    ensures rows { rows.new.items ≡ put_all (puts_of changes.now) rows.old.items }
    ensures capacity { vec_capacity rows.old ≤ vec_capacity rows.new }
    ensures len { vec_len rows.new ≤ vec_len rows.old + length changes.now }
{
    for change in changes {
        set_change(rows, *change);
    }
}

// The row that a change puts, at its place.
fn set_change<T: Copy + Drop>(rows: &mut Vec<(u32, T)>, change: (u32, Option<T>))
    requires rows { Ascends first rows.old.items }
    requires room { vec_len rows.old < vec_capacity rows.old }
    ensures rows { rows.new.items ≡ put_all (put_before change.0 change.1 []) rows.old.items }
    ensures capacity { vec_capacity rows.old ≤ vec_capacity rows.new }
    ensures len { vec_len rows.new ≤ vec_len rows.old + 1 }
{
    match change.1 {
        None => {}
        Some(item) => set_row(rows, (change.0, item)),
    }
}

// The first rows and those that changes put, in one order, from the back: the rows are as many already.
fn merge<T: Copy + Drop>(rows: &mut Vec<(u32, T)>, count: usize, changes: &[(u32, Option<T>)])
    requires count { count ≤ vec_len rows.old }
    requires rows { Ascends first (take count rows.old.items) }
    requires changes { Ascends first changes.now }
    requires size { length rows.old.items ≡ length (put_all (puts_of changes.now) (take count rows.old.items)) }
    ensures rows { rows.new.items ≡ put_all (puts_of changes.now) (take count rows.old.items) }
    ensures capacity { vec_capacity rows.new ≡ vec_capacity rows.old }
{
    let mut kept = count;
    let mut left = changes.len();
    let mut from = rows.len();
    while left > 0 {
        let (number, item) = changes[left - 1];
        match item {
            None => left -= 1,
            Some(item) => {
                from -= 1;
                match last_number(rows, kept) {
                    None => {
                        rows[from] = (number, item);
                        left -= 1;
                    }
                    Some(last) => {
                        if last > number {
                            rows[from] = rows[kept - 1];
                            kept -= 1;
                        } else if last == number {
                            rows[from] = (number, item);
                            kept -= 1;
                            left -= 1;
                        } else {
                            rows[from] = (number, item);
                            left -= 1;
                        }
                    }
                }
            }
        }
    }
}

// The number of the last of the first rows.
fn last_number<T>(rows: &[(u32, T)], kept: usize) -> Option<u32>
    requires { kept ≤ length rows.now }
    ensures { result ≡ last_number (take kept rows.now) }
{
    if kept == 0 {
        None
    } else {
        Some(rows[kept - 1].0)
    }
}

// Whether a change drops a row.
fn drops_some<T: Copy>(changes: &[(u32, Option<T>)]) -> bool
    ensures { result ≡ list_any (λ c. not (is_some c.1)) changes.now }
{
    changes.iter().any(|change| change.1.is_none())
}

// Without the rows that changes drop.
fn drop_gone<T: Copy + Drop>(rows: &mut Vec<(u32, T)>, changes: &[(u32, Option<T>)])
    requires { Ascends first changes.now }
    ensures rows { rows.new.items ≡ filter (λ r. not (is_gone (item_at r.0 changes.now))) rows.old.items }
    ensures capacity { vec_capacity rows.old ≤ vec_capacity rows.new }
    ensures len { vec_len rows.new ≤ vec_len rows.old }
{
    rows.retain(|row| !is_gone(changes, row.0));
}

fn is_gone<T: Copy>(changes: &[(u32, Option<T>)], number: u32) -> bool
    requires { Ascends first changes.now }
    ensures { result ≡ is_gone (item_at number changes.now) }
{
    match find(changes, number) {
        None => false,
        Some(item) => item.is_none(),
    }
}
