// Writing all of some bytes, in whatever pieces the sink takes them.
ghost use Rattle.std.specs.{Prelude.{◌≡◌, ℕ, ℤ, List, [], ◌∷◌, ◌++◌, ◌≤◌, OnOk, OnErr, decimal, length, take}, Fmt.signed_decimal, List.flat_map, Io.KnownBytes.Appends};
ghost use Rattle.adept_io.specs.{Counts.Rose, Written.{AppendsPrefix, Gives}};

use crate::{Failed, Sink};
use itoa::Buffer;

// Writes bytes until all are written or a write fails, and answers how many were written.
pub(crate) fn write_most<K: Sink>(sink: &mut K, bytes: &[u8]) -> (usize, Result<(), Failed>)
    ensures bound { result.0 ≤ length bytes.now }
    ensures all { OnOk result.1 (result.0 ≡ length bytes.now) }
    ensures bytes { Appends (K.written sink.old) (K.written sink.new) (take result.0 bytes.now) }
    ensures rose { OnErr result.1 (Rose (K.faults sink.old) (K.faults sink.new)) }
    ensures never_falls { K.faults sink.old ≤ K.faults sink.new }
{
    let mut sent = 0;
    while sent < bytes.len() {
        let (_, rest) = bytes.split_at(sent);
        match sink.write(rest) {
            Ok(count) => sent += count,
            Err(failed) => return (sent, Err(failed)),
        }
    }
    (sent, Ok(()))
}

/// Writes all of the bytes. Where a write fails, the first of them may have been written.
pub fn write_all<K: Sink>(sink: &mut K, bytes: &[u8]) -> Result<(), Failed>
    ensures all { OnOk result (Appends (K.written sink.old) (K.written sink.new) bytes.now) }
    ensures part { OnErr result (AppendsPrefix (K.written sink.old) (K.written sink.new) bytes.now) }
    ensures rose { OnErr result (Rose (K.faults sink.old) (K.faults sink.new)) }
    ensures never_falls { K.faults sink.old ≤ K.faults sink.new }
{
    let (_, answer) = write_most(sink, bytes);
    answer
}

/// Writes all of the bytes where all went well before, and answers whether all went well. After a failure nothing more
/// is written, so a text is written by calls in a row, each of which is handed the answer of the one before.
pub fn put<K: Sink>(sink: &mut K, ok: bool, bytes: &[u8]) -> bool
    ensures { Gives K.written K.faults ok result sink.old sink.new bytes.now }
{
    ok && write_all(sink, bytes).is_ok()
}

/// Writes pieces one behind the other, as `put` writes bytes.
pub fn put_pieces<K: Sink>(sink: &mut K, ok: bool, pieces: &[&[u8]]) -> bool
    ensures { Gives K.written K.faults ok result sink.old sink.new (flat_map (λ piece. piece.now) pieces.now) }
{
    let mut well = ok;
    for piece in pieces {
        well = put(sink, well, piece);
    }
    well
}

/// Writes the bytes and a line feed, as `put` writes bytes.
#[tactic(auto, using(crate::proofs::Sent::gives_then))]
pub fn put_line<K: Sink>(sink: &mut K, ok: bool, line: &[u8]) -> bool
    ensures { Gives K.written K.faults ok result sink.old sink.new (line.now ++ 10 ∷ []) }
{
    let ok = put(sink, ok, line);
    put(sink, ok, b"\n")
}

/// Writes a number in decimal digits, as `put` writes bytes.
pub fn put_number<K: Sink>(sink: &mut K, ok: bool, n: u64) -> bool
    ensures { Gives K.written K.faults ok result sink.old sink.new (decimal n) }
{
    let mut buffer = Buffer::new();
    put(sink, ok, buffer.format(n).as_bytes())
}

/// Writes a number in decimal digits, behind a minus sign where it is negative, as `put` writes bytes.
pub fn put_integer<K: Sink>(sink: &mut K, ok: bool, n: i64) -> bool
    ensures { Gives K.written K.faults ok result sink.old sink.new (signed_decimal n) }
{
    let mut buffer = Buffer::new();
    put(sink, ok, buffer.format(n).as_bytes())
}
