// Entries in a row: what they wrote, and copies of them.
ghost use Rattle.std.specs.{Prelude.{◌≡◌, drop, IfOk}, Option.option_copied};
ghost use Rattle.wsm_schema.specs.Trail.{written_by};
ghost use Rattle.wsm_trail.specs.EntryAt.{last_written};

use std::alloc::Global;
use wsm_schema::{Entry, NoMemory, Value};

/// What the entry wrote.
pub fn written_by(entry: &Entry) -> &[(u32, Value)]
    ensures { result.now ≡ written_by entry.now }
{
    match entry {
        Entry::Start { .. } => &[],
        Entry::End { writes, .. } => writes.as_slice(),
        Entry::Again { writes, .. } => writes.as_slice(),
        Entry::Wrote { writes } => writes.as_slice(),
    }
}

/// What the entries from a place on wrote last to the element.
pub fn last_written(entries: &[(u32, Entry)], from: usize, element: u32) -> Option<&Value>
    ensures { option_copied result ≡ last_written element (drop from entries.now) }
{
    let mut last = None;
    for i in from..entries.len() {
        if let Some(value) = entries[i].1.written(element) {
            last = Some(value);
        }
    }
    last
}

/// Equal entries, at the same positions.
pub fn copy_entries(alloc: Global, entries: &[(u32, Entry)]) -> Result<Vec<(u32, Entry)>, NoMemory>
    ensures { IfOk result (λ new. new.items ≡ entries.now) }
{
    let mut copies = Vec::new(alloc);
    for row in entries {
        copies.push((row.0, row.1.copy(alloc)?))?;
    }
    Ok(copies)
}
