// The cut of a trail's entries.
ghost use Rattle.std.specs.Prelude.{◌≡◌, ◌+◌, ◌≤◌, ◌<◌, ◌++◌, take, drop, nat_lt, length, vec_len, vec_capacity};
ghost use Rattle.wsm_schema.specs.Trail.{is_one_of};
ghost use Rattle.wsm_schema.specs.declared.entries.Entry.TheVariants.{Wrote};
ghost use Rattle.wsm_trail.specs.Cuts.{Cuts, cut_entries};

use std::alloc::Global;
use std::mem;
use wsm_schema::{Entry, Writes};

/// The entries from a place on are cut by a loop with these nodes; those before it stay. Takes no memory.
pub fn cut_behind(alloc: Global, entries: &mut Vec<(u32, Entry)>, place: usize, body: &[u32])
    requires { place ≤ vec_len entries.old }
    ensures entries { entries.new.items ≡ take place entries.old.items ++ cut_entries body.now (drop place entries.old.items) }
    ensures len { vec_len entries.new ≤ vec_len entries.old }
    ensures capacity { vec_capacity entries.new ≡ vec_capacity entries.old }
{
    let mut kept = place;
    for i in place..entries.len() {
        kept = cut_at(alloc, entries, kept, i, body);
    }
    entries.truncate(kept);
}

// The entry at place `i` is cut, and what is left of it goes to place `kept`. The place of what is left next.
fn cut_at(
    alloc: Global,
    entries: &mut Vec<(u32, Entry)>,
    kept: usize,
    i: usize,
    body: &[u32],
) -> usize
    requires behind { kept ≤ i }
    requires within { i < vec_len entries.old }
    ensures entries { take result entries.new.items ++ cut_entries body.now (drop (i + 1) entries.new.items) ≡ take kept entries.old.items ++ cut_entries body.now (drop i entries.old.items) }
    ensures behind { result ≤ i + 1 }
    ensures len { vec_len entries.new ≡ vec_len entries.old }
    ensures capacity { vec_capacity entries.new ≡ vec_capacity entries.old }
{
    if !cut_entry(alloc, &mut entries[i].1, body) {
        return kept;
    }
    entries.swap(kept, i);
    kept + 1
}

/// Whether the entry stays in a trail that is cut by a loop with these nodes. It then stays as it is, or as what it wrote.
pub fn cut_entry(alloc: Global, entry: &mut Entry, body: &[u32]) -> bool
    ensures { Cuts body.now entry.old result entry.new }
{
    match entry {
        Entry::Start { node, .. } => !is_one_of(*node, body),
        Entry::End { node, writes, .. } => {
            if !is_one_of(*node, body) {
                return true;
            }
            let written = mem::replace(writes, Writes::new(alloc));
            leave_writes(entry, written)
        }
        Entry::Again { node, writes } => {
            if !is_one_of(*node, body) {
                return true;
            }
            let written = mem::replace(writes, Writes::new(alloc));
            leave_writes(entry, written)
        }
        Entry::Wrote { .. } => true,
    }
}

// Of the entry only these writes are left, and none where there are no writes.
fn leave_writes(entry: &mut Entry, writes: Writes) -> bool
    ensures left { entry.new ≡ Wrote writes }
    ensures stays { result ≡ nat_lt 0 (length writes) }
{
    let stays = writes.len() > 0;
    *entry = Entry::Wrote { writes };
    stays
}

fn is_one_of(node: u32, body: &[u32]) -> bool
    ensures { result ≡ is_one_of node body.now }
{
    body.iter().any(|n| *n == node)
}
