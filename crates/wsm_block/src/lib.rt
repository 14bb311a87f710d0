//! Whether the tree and the sync edges of a schema are sound, and a rank of its nodes.
#![tactic(auto)]

mod block_refusals;
mod branches;
mod faults;
mod fronts;
mod growth;
mod heights;
mod limits;
mod orders;
mod repeats;
mod sorting;
mod syncs;

ghost use Rattle.std.specs.Prelude.{◌≡◌, None, IfOk, IfErr};
ghost use Rattle.wsm_schema.specs.{Flat.{flat_of, cards_of}, Rank.IsRank, Sound.block_fault};
ghost use Rattle.wsm_block.specs.{Clauses.{shape_fault, cycle_fault}, Refusals.IsBlockFault};

use crate::faults::shape_fault;
use crate::growth::grown_rank;
pub use block_refusals::BlockRefusal;
pub use limits::over_limit;
use std::alloc::Global;
pub use wsm_schema::{BlockFault, LimitKind};
use wsm_schema::{Flat, Rank, Schema};

/// A rank of the schema's nodes, where its tree and its sync edges are sound, else the first fault of these.
pub fn check_block(alloc: Global, schema: &Schema, flat: &Flat) -> Result<Rank, BlockRefusal>
    requires { flat.now ≡ flat_of schema.now }
    ensures sound { IfOk result (λ rank. block_fault schema.now ≡ None) }
    ensures rank { IfOk result (λ rank. IsRank (cards_of schema.now) rank) }
    ensures fault { IfErr result (λ refusal. IsBlockFault (block_fault schema.now) refusal) }
{
    match shape_fault(alloc, schema, flat)? {
        Some(fault) => Err(BlockRefusal::Fault(fault)),
        None => rank_of(alloc, schema, flat),
    }
}

// A rank, or the first sync edge that closes a cycle, where all else is sound.
fn rank_of(alloc: Global, schema: &Schema, flat: &Flat) -> Result<Rank, BlockRefusal>
    requires flat { flat.now ≡ flat_of schema.now }
    requires shape { shape_fault schema.now ≡ None }
    ensures sound { IfOk result (λ rank. cycle_fault schema.now ≡ None) }
    ensures rank { IfOk result (λ rank. IsRank (cards_of schema.now) rank) }
    ensures fault { IfErr result (λ refusal. IsBlockFault (cycle_fault schema.now) refusal) }
{
    grown_rank(alloc, flat, schema.syncs.as_slice())
}
