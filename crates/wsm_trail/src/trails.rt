// Trails.
ghost use Rattle.std.specs.{Prelude.{◌≡◌, ◌+◌, ◌<◌, ◌≤◌, ◌^◌, ℕ, [], ◌++◌, ◌↔◌, IsTrue, length, OnOk, IfOk}, Option.option_copied};
ghost use Rattle.wsm_lists.specs.{Keys.first, Rows.Ascends, Values.value_in};
ghost use Rattle.wsm_schema.specs.Trail.{no_trail, pushed, value_below, cut_by};
ghost use Rattle.wsm_trail.specs.{Cuts.StaysBelow, EntryAt.{entry_at, written_to}, LastWrites.{noted_entries, values_at, write_of}, TrailWithRoom.Rises, Withdrawn.{starts_of, withdrawn}};

use crate::cuts::cut_behind;
use crate::entries::{copy_entries, last_written};
use crate::last_writes::LastWrites;
use crate::late::note_late;
use crate::lookups::{find, place_of};
use crate::withdrawals::start_place;
use std::alloc::Global;
use std::marker::Model;
use wsm_schema::{Entry, NoMemory, Nodes, Value, Writes};

/// Entries at rising positions from 1 on, and the position that comes next. The writes of the entries below position `noted`
/// stand in `last_writes`.
#[derive(Drop)]
pub struct Trail {
    entries: Vec<(u32, Entry)>,
    next: u32,
    last_writes: LastWrites,
    noted: u32,
}

impl Model for Trail {
    ghost use Rattle.std.specs.Prelude.{◌≡◌, ◌≤◌, ◌-◌, vec_len, vec_capacity};
    ghost use Rattle.wsm_trail.specs.LastWrites.{noted_until};
    ghost use Rattle.wsm_trail.specs.TrailWithRoom.{TrailWithRoom, Rises};

    ghost Value = { TrailWithRoom };

    ghost view = { λ a. record { trail = record { entries = a.entries.items; next = a.next }; spare = vec_capacity a.entries - vec_len a.entries } };

    ghost invariant = { λ a. Rises 1 a.next a.entries.items × (a.noted ≤ a.next) × (a.last_writes.rows ≡ noted_until a.noted a.entries.items) };
}

impl Trail {
    /// The trail without entries, whose next position is 1.
    pub fn new(alloc: Global) -> Trail
        ensures { result.trail ≡ no_trail }
    {
        Trail {
            entries: Vec::new(alloc),
            next: 1,
            last_writes: LastWrites::new(alloc),
            noted: 1,
        }
    }

    /// The number of entries.
    pub fn len(&self) -> usize
        ensures { result ≡ length self.now.trail.entries }
    {
        self.entries.len()
    }

    /// Whether there are no entries.
    pub fn is_empty(&self) -> bool
        ensures { IsTrue result ↔ (self.now.trail.entries ≡ []) }
    {
        self.entries.is_empty()
    }

    /// The position of the entry that is pushed next, above those of all entries.
    pub fn next(&self) -> u32
        ensures next { result ≡ self.now.trail.next }
        ensures rises { Rises 1 result self.now.trail.entries }
    {
        self.next
    }

    /// All entries, each with its position.
    pub fn entries(&self) -> &[(u32, Entry)]
        ensures entries { result.now ≡ self.now.trail.entries }
        ensures rises { Rises 1 self.now.trail.next result.now }
    {
        &self.entries
    }

    /// The entry at that position, by a binary search.
    pub fn entry(&self, position: u32) -> Option<&Entry>
        ensures { option_copied result ≡ entry_at position self.now.trail.entries }
    {
        find(&self.entries, position)
    }

    /// The value of the element's last write, by a look at the entries that were pushed last, and by three binary searches.
    pub fn value(&self, element: u32) -> Option<&Value>
        ensures { option_copied result ≡ value_below element self.now.trail.next self.now.trail.entries }
    {
        let place = place_of(&self.entries, self.noted);
        match last_written(&self.entries, place, element) {
            Some(value) => Some(value),
            None => match self.last_writes.position(element) {
                Some(position) => self.written_at(position, element),
                None => None,
            },
        }
    }

    // What the entry at that position wrote to the element.
    fn written_at(&self, position: u32, element: u32) -> Option<&Value>
        ensures { option_copied result ≡ written_to element (entry_at position self.now.trail.entries) }
    {
        match self.entry(position) {
            Some(entry) => entry.written(element),
            None => None,
        }
    }

    /// The value of the last write of each element that was written.
    pub fn values(&self, alloc: Global) -> Result<Writes, NoMemory>
        ensures rows { IfOk result (λ values. values ≡ values_at self.now.trail.entries (noted_entries self.now.trail.entries)) }
        ensures ascends { IfOk result (Ascends first) }
        ensures values { IfOk result (λ values. (element : ℕ) → value_in element values ≡ value_below element self.now.trail.next self.now.trail.entries) }
    {
        let writes = self.last_writes(alloc)?;
        let mut values = Vec::new(alloc);
        for row in writes.as_slice() {
            put_write(alloc, &mut values, row.0, self.written_at(row.1, row.0))?;
        }
        Ok(Writes::from_vec(values))
    }

    // For each element that was written, the position of its last write.
    fn last_writes(&self, alloc: Global) -> Result<LastWrites, NoMemory>
        ensures rows { IfOk result (λ writes. writes.rows ≡ noted_entries self.now.trail.entries) }
        ensures rises { Rises 1 self.now.trail.next self.now.trail.entries }
    {
        let mut writes = self.last_writes.copy(alloc)?;
        let mut noted = self.noted;
        note_late(&self.entries, self.next, &mut writes, &mut noted)?;
        Ok(writes)
    }

    /// An equal trail, without further room.
    pub fn copy(&self, alloc: Global) -> Result<Trail, NoMemory>
        ensures { IfOk result (λ new. new.trail ≡ self.now.trail) }
    {
        Ok(Trail {
            entries: copy_entries(alloc, &self.entries)?,
            next: self.next,
            last_writes: self.last_writes.copy(alloc)?,
            noted: self.noted,
        })
    }

    /// Room for so many more entries. The writes of those that were pushed before are noted.
    pub fn reserve(&mut self, more: usize) -> Result<(), NoMemory>
        ensures same { self.new.trail ≡ self.old.trail }
        ensures room { OnOk result (more ≤ self.new.spare) }
        ensures kept { self.old.spare ≤ self.new.spare }
    {
        note_late(
            &self.entries,
            self.next,
            &mut self.last_writes,
            &mut self.noted,
        )?;
        self.entries.try_reserve(more)
    }

    /// One more entry, at the next position. Takes no memory.
    pub fn push(&mut self, entry: Entry)
        requires room { 0 < self.old.spare }
        requires position { self.old.trail.next + 1 < 2 ^ 32 }
        ensures trail { self.new.trail ≡ pushed entry self.old.trail }
        ensures spare { self.new.spare + 1 ≡ self.old.spare }
    {
        let position = self.next;
        self.entries.push_reserved((position, entry));
        self.next = position + 1;
    }

    /// The trail without what was started and ended in a loop with these nodes: of that only the writes stay, at their positions. Takes no memory.
    pub fn cut(&mut self, body: &Nodes)
        ensures trail { self.new.trail ≡ cut_by body.now self.old.trail }
        ensures spare { self.old.spare ≤ self.new.spare }
    {
        self.cut_from(0, body);
    }

    /// The same cut, by a look at the entries from a position on alone, where none below it is of the loop. Takes no memory.
    pub fn cut_from(&mut self, position: u32, body: &Nodes)
        requires { StaysBelow position body.now self.old.trail.entries }
        ensures trail { self.new.trail ≡ cut_by body.now self.old.trail }
        ensures spare { self.old.spare ≤ self.new.spare }
    {
        let alloc = *self.entries.allocator();
        let place = place_of(&self.entries, position);
        cut_behind(alloc, &mut self.entries, place, body.as_slice());
    }

    /// The trail without the start of that node. Takes no memory.
    pub fn drop_start(&mut self, node: u32)
        requires one { length (starts_of node self.old.trail.entries) ≡ 1 }
        ensures trail { self.new.trail ≡ withdrawn node self.old.trail }
        ensures spare { self.old.spare ≤ self.new.spare }
    {
        if let Some(place) = start_place(&self.entries, node) {
            self.entries.remove(place);
        }
    }
}

// One more write, where there is a value.
fn put_write(
    alloc: Global,
    writes: &mut Vec<(u32, Value)>,
    element: u32,
    value: Option<&Value>,
) -> Result<(), NoMemory>
    ensures { OnOk result (writes.new.items ≡ writes.old.items ++ write_of element (option_copied value.entry)) }
{
    if let Some(value) = value {
        writes.push((element, value.copy(alloc)?))?;
    }
    Ok(())
}
