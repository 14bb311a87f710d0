// Rows that ascend by a number in front of each.
ghost use Rattle.std.specs.{Prelude.{◌≡◌, length, slice_get}, Option.option_copied};
ghost use Rattle.wsm_lists.specs.{Keys.first, Rows.{Ascends, rows_below}, ByNumber.item_at};

/// How many rows have a smaller number, by a binary search.
pub fn place_of<T>(rows: &[(u32, T)], number: u32) -> usize
    requires { Ascends first rows.now }
    ensures { result ≡ rows_below first (number, 0) rows.now }
{
    rows.partition_point(|row| row.0 < number)
}

/// What the row of that number holds, by a binary search.
pub fn find<T>(rows: &[(u32, T)], number: u32) -> Option<&T>
    requires { Ascends first rows.now }
    ensures { option_copied result ≡ item_at number rows.now }
{
    let at = place_of(rows, number);
    match row_at(rows, at) {
        Some(row) => { if row.0 == number { Some(&row.1) } else { None } }
        None => None,
    }
}

fn row_at<T>(rows: &[T], index: usize) -> Option<&T>
    ensures { option_copied result ≡ slice_get rows.now index }
{
    rows.get(index)
}
