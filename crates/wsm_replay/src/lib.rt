//! The replay of a trail on a schema, which gives a case its marking.
#![tactic(auto)]

mod fits;
mod settling;
mod spots;

ghost use Rattle.std.specs.Prelude.{◌≡◌, IfOk};
ghost use Rattle.wsm_schema.specs.{Rank.IsRank, Replay.replay_of};
ghost use Rattle.wsm_replay.specs.Answer.{answer};

use crate::fits::applicable;
use crate::settling::{after, settled};
pub use fits::fits_choice;
pub use spots::spot_in;
use std::alloc::Global;
use wsm_schema::{Flat, Marking, NoMemory, Rank};
use wsm_trail::{LastWrites, Trail};

/// The marking after all entries, or the position of the first entry that is not applicable.
#[derive(Drop)]
pub enum Replayed {
    Whole(Marking),
    Fails { position: u32 },
}

/// The replay of the trail from the initial marking on, by one pass in rank order after each entry.
pub fn replay(alloc: Global, flat: &Flat, rank: &Rank, trail: &Trail) -> Result<Replayed, NoMemory>
    requires { IsRank flat.now.cards rank.now }
    ensures { IfOk result (λ r. r ≡ answer flat.now.cards (replay_of flat.now trail.now.trail.entries)) }
{
    let mut table = settled(alloc, flat, rank, &Marking::new(alloc))?;
    let mut before = LastWrites::new(alloc);
    for (position, entry) in trail.entries() {
        if !applicable(flat, &table, trail, &before, entry) {
            return Ok(Replayed::Fails {
                position: *position,
            });
        }
        table = after(alloc, flat, rank, &table, entry)?;
        before.note_entry(*position, entry)?;
    }
    Ok(Replayed::Whole(table))
}
