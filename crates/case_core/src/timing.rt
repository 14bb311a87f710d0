// The marks of a trail, and who made an entry.
ghost use Rattle.std.specs.Prelude.{◌≡◌, Some, IfOk};
ghost use Rattle.case_core.specs.{Machine.user_of, Remarks.IsTimedOn};
ghost use Rattle.wsm_sound.specs.Flattened.{IsChecked};

use std::alloc::Global;
use wsm_schema::{Entry, NoMemory};
use wsm_settle::{TimedMarks, timed};
use wsm_sound::Checked;
use wsm_trail::Trail;

/// The marks of a trail on a sound schema, where it replays.
pub fn timed_on(alloc: Global, checked: &Checked, trail: &Trail) -> Result<TimedMarks, NoMemory>
    ensures marks { IfOk result (IsTimedOn checked.now trail.now.trail.entries) }
    ensures checked { IsChecked checked.now }
{
    timed(alloc, checked.flat(), checked.rank(), trail)
}

/// The user of a Start, else 0.
pub fn user_of(entry: &Entry) -> u32
    ensures { result ≡ user_of (Some (0, entry.now)) }
{
    match entry {
        Entry::Start { user, .. } => *user,
        Entry::End { .. } | Entry::Again { .. } | Entry::Wrote { .. } => 0,
    }
}
