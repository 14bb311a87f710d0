// Spots in a table.
ghost use Rattle.std.specs.Prelude.{◌≡◌};
ghost use Rattle.wsm_schema.specs.Rules.{spot_in};
ghost use Rattle.wsm_replay.specs.SpotOf.{spot_of};

use wsm_schema::{Entry, Marking, Spot, State};

/// The spot of a node, which is NotActivated where there is none.
pub fn spot_in(table: &Marking, node: u32) -> Spot
    ensures { result ≡ spot_in node table.now }
{
    match table.find((node, 0)) {
        Some(spot) => *spot,
        None => Spot {
            node,
            state: State::NotActivated,
            choice: None,
        },
    }
}

/// The spot that an entry gives to its node.
pub fn spot_of(entry: &Entry) -> Option<Spot>
    ensures { result ≡ spot_of entry.now }
{
    match entry {
        Entry::Start { node, .. } => Some(Spot {
            node: *node,
            state: State::Running,
            choice: None,
        }),
        Entry::End { node, choice, .. } => Some(Spot {
            node: *node,
            state: State::Completed,
            choice: *choice,
        }),
        Entry::Again { .. } | Entry::Wrote { .. } => None,
    }
}
