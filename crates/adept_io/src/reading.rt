// Reading a source to its end.
ghost use Rattle.std.specs.{Prelude.{◌≡◌, ℕ, List, ◌+◌, ◌<◌, ◌≤◌, length, vec_len, IfOk, IfErr, OnOk, OnErr, IsErrOf}, Io.KnownBytes.{Consumes, IsAtEnd}};
ghost use Rattle.adept_io.specs.{Counts.Rose, Read.{ConsumesMany, ConsumesUpTo}};

use crate::{Bytes, Failed, NoMemory, Source};
use std::alloc::Global;
use thiserror::Error;

/// Why a source was not read to its end.
#[derive(Clone, Copy, Debug, PartialEq, Eq, Error)]
pub enum ReadRefusal {
    /// The source failed.
    #[error("a read failed")]
    Failed,
    /// There was not enough memory.
    #[error("not enough memory")]
    NoMemory,
    /// There were more bytes than the limit.
    #[error("more bytes than allowed")]
    TooLong,
}

impl From<Failed> for ReadRefusal {
    ghost use Rattle.std.specs.Prelude.{◌≡◌};
    ghost use Rattle.adept_io.specs.declared.reading.ReadRefusal.TheVariants as refusal;

    ghost from_gives = { λ _ e. e ≡ refusal.Failed };

    fn from(_error: Failed) -> ReadRefusal {
        ReadRefusal::Failed
    }
}

impl From<NoMemory> for ReadRefusal {
    ghost use Rattle.std.specs.Prelude.{◌≡◌};
    ghost use Rattle.adept_io.specs.declared.reading.ReadRefusal.TheVariants as refusal;

    ghost from_gives = { λ _ e. e ≡ refusal.NoMemory };

    fn from(_error: NoMemory) -> ReadRefusal {
        ReadRefusal::NoMemory
    }
}

/// Zeros, as room for what a read gives.
fn zeros(alloc: Global, len: usize) -> Result<Vec<u8>, NoMemory>
    ensures { IfOk result (λ zeros. vec_len zeros ≡ len) }
{
    vec![in alloc; 0; len]
}

/// How many bytes are asked for at once.
const CHUNK: usize = 65536;

/// Reads all bytes of a source that gives at most `limit`. Where it gives more, reading stops at the first byte past
/// the limit.
pub fn read_to_limit<S: Source>(
    alloc: Global,
    source: &mut S,
    limit: usize,
) -> Result<Bytes, ReadRefusal>
    ensures all { IfOk result (λ bytes. Consumes (S.left source.old) (S.left source.new) bytes) }
    ensures end { OnOk result (IsAtEnd (S.left source.new)) }
    ensures within { IfOk result (λ bytes. length bytes ≤ limit) }
    ensures too_long { IsErrOf result ReadRefusal.TooLong → ConsumesMany (S.left source.old) (S.left source.new) (limit + 1) }
    ensures failed { IsErrOf result ReadRefusal.Failed → ConsumesUpTo (S.left source.old) (S.left source.new) limit }
    ensures no_memory { IsErrOf result ReadRefusal.NoMemory → ConsumesUpTo (S.left source.old) (S.left source.new) limit }
    ensures rose { IsErrOf result ReadRefusal.Failed → Rose (S.faults source.old) (S.faults source.new) }
    ensures steady { ¬ IsErrOf result ReadRefusal.Failed → S.faults source.new ≡ S.faults source.old }
    ensures never_falls { S.faults source.old ≤ S.faults source.new }
{
    let mut chunk = zeros(alloc, CHUNK)?;
    let mut bytes = Vec::new(alloc);
    loop {
        let room = limit - bytes.len();
        let (buf, _) = chunk.split_at_mut(room.min(CHUNK - 1) + 1);
        let count = source.read(buf)?;
        if count == 0 {
            return Ok(Bytes::from_vec(bytes));
        }
        if count > room {
            return Err(ReadRefusal::TooLong);
        }
        bytes.extend_from_slice(&buf[..count])?;
    }
}
