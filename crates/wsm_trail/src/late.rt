// Writes that are noted late: when room is reserved, and not when they are pushed.
ghost use Rattle.std.specs.Prelude.{◌≡◌, ◌≤◌, OnOk};
ghost use Rattle.wsm_trail.specs.{LastWrites.{noted_entries, noted_until}, TrailWithRoom.Rises};

use crate::last_writes::LastWrites;
use crate::lookups::place_of;
use wsm_schema::{Entry, NoMemory};

/// The writes of the entries from position `noted` on are noted as well, entry by entry.
pub fn note_late(
    entries: &[(u32, Entry)],
    next: u32,
    writes: &mut LastWrites,
    noted: &mut u32,
) -> Result<(), NoMemory>
    requires rises { Rises 1 next entries.now }
    requires noted { noted.old ≤ next }
    requires rows { writes.old.rows ≡ noted_until noted.old entries.now }
    ensures noted { noted.new ≤ next }
    ensures rows { writes.new.rows ≡ noted_until noted.new entries.now }
    ensures all { OnOk result (writes.new.rows ≡ noted_entries entries.now) }
{
    let place = place_of(entries, *noted);
    for i in place..entries.len() {
        let row = &entries[i];
        writes.note_entry(row.0, &row.1)?;
        *noted = row.0 + 1;
    }
    Ok(())
}
