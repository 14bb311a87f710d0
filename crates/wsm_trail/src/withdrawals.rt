// Where the start of a node stands.
ghost use Rattle.std.specs.Prelude.{◌≡◌};
ghost use Rattle.wsm_schema.specs.Marks.{is_start_of};
ghost use Rattle.wsm_trail.specs.StartPlaces.{IsStartPlace};

use wsm_schema::Entry;

/// Where a start of the node stands. It is looked for from the end, since what runs was mostly started late.
pub fn start_place(entries: &[(u32, Entry)], node: u32) -> Option<usize>
    ensures { IsStartPlace node entries.now result }
{
    entries.iter().rposition(|row| is_start_of(node, &row.1))
}

fn is_start_of(node: u32, entry: &Entry) -> bool
    ensures { result ≡ is_start_of node entry.now }
{
    match entry {
        Entry::Start { node: started, .. } => *started == node,
        Entry::End { .. } | Entry::Again { .. } | Entry::Wrote { .. } => false,
    }
}
