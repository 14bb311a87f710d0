// The whole check.
ghost use Rattle.std.specs.Prelude.{◌≡◌, None, IfOk, IfErr};
ghost use Rattle.wsm_schema.specs.{Flat.{flat_of, cards_of}, Rank.IsRank, Sound.{block_fault, data_fault}};
ghost use Rattle.wsm_data.specs.Refusals.{IsDataFault};

use crate::missing::missing_read;
use crate::parallels::parallel_writes;
use crate::refusals::DataRefusal;
use crate::unknowns::{unknown_read, unknown_write};
use std::alloc::Global;
use wsm_schema::{DataFault, Flat, NoMemory, Rank, Schema};

/// Whether the data of a schema is sound: its reads and writes, in a schema whose blocks and sync edges are sound, with a
/// rank of its nodes.
pub fn check_data(
    alloc: Global,
    schema: &Schema,
    flat: &Flat,
    rank: &Rank,
) -> Result<(), DataRefusal>
    requires flat { flat.now ≡ flat_of schema.now }
    requires blocks { block_fault schema.now ≡ None }
    requires rank { IsRank (cards_of schema.now) rank.now }
    ensures ok { IfOk result (λ done. data_fault schema.now ≡ None) }
    ensures fault { IfErr result (λ refusal. IsDataFault (data_fault schema.now) refusal) }
{
    match first_fault(alloc, schema, flat, rank)? {
        None => Ok(()),
        Some(fault) => Err(DataRefusal::Fault(fault)),
    }
}

// The first fault of the data.
fn first_fault(
    alloc: Global,
    schema: &Schema,
    flat: &Flat,
    rank: &Rank,
) -> Result<Option<DataFault>, NoMemory>
    requires flat { flat.now ≡ flat_of schema.now }
    requires blocks { block_fault schema.now ≡ None }
    requires rank { IsRank (cards_of schema.now) rank.now }
    ensures { IfOk result (λ found. found ≡ data_fault schema.now) }
{
    let found = unknown_read(flat, schema.reads.as_slice());
    if found.is_some() {
        return Ok(found);
    }
    let found = unknown_write(flat, schema.writes.as_slice());
    if found.is_some() {
        return Ok(found);
    }
    let found = missing_read(alloc, schema, flat, rank)?;
    if found.is_some() {
        return Ok(found);
    }
    parallel_writes(alloc, schema, flat)
}
