// With which status `play` ends where its source or its sink fails, or where there is too much to read.
use adept_io::{Bytes, Calls, MemorySink, MemorySource, NoMemory};
use adept_top::play;
use std::alloc::Global;
use std::test::Fail;

const FILE: &[u8] = b"\
adept 1
type t
act A
act B
end
actor ann
case c t
phase
ann create c
ann start c A
ann end c A
ann start c B
ann end c B
";

const REPORT: &[u8] = b"\
adept report 1
type t
1 - define -> defined
2 ann newest -> is 1
case c t
1 ann create 1 -> created
2 ann start A -> started
3 ann end A -> ended
4 ann start B -> started
5 ann end B -> ended
state 1 finished own=0
marking start=C A=C B=C finish=C
values
items
summary cases=1 finished=1 entries=5 migrated=0 blocked=0 overlap=0
";

// The proof of a test need not compute what the bytes stand for.
fn played(alloc: Global, source: &mut MemorySource, sink: &mut MemorySink) -> u8 {
    play(alloc, source, sink).status
}

fn one_call(alloc: Global, number: u64) -> Result<Calls, NoMemory> {
    let mut calls = Calls::new(alloc);
    calls.push(number)?;
    Ok(calls)
}

fn file(alloc: Global) -> Result<Bytes, NoMemory> {
    Ok(Bytes::from_vec(Vec::from_slice(alloc, FILE)?))
}

fn line_feeds(alloc: Global, count: usize) -> Result<Bytes, NoMemory> {
    let mut bytes = Vec::new(alloc);
    bytes.resize(count, b'\n')?;
    Ok(Bytes::from_vec(bytes))
}

#[test]
fn source_that_fails(rt: HostRuntime) -> Result<(), Fail> {
    let alloc = rt.alloc();
    let mut source = MemorySource::new(file(alloc)?, 10, one_call(alloc, 2)?);
    let mut sink = MemorySink::new(alloc, 4096, 10, Calls::new(alloc))?;
    assert_eq!(rt; played(alloc, &mut source, &mut sink), 3);
    assert!(rt; sink.bytes().is_empty());
    Ok(())
}

#[test]
fn sink_that_fails(rt: HostRuntime) -> Result<(), Fail> {
    let alloc = rt.alloc();
    let mut source = MemorySource::new(file(alloc)?, 10, Calls::new(alloc));
    let mut sink = MemorySink::new(alloc, 4096, 10, one_call(alloc, 3)?)?;
    assert_eq!(rt; played(alloc, &mut source, &mut sink), 4);
    assert!(rt; sink.bytes().len() <= 20);
    assert!(rt; b"adept report 1\ntype t".starts_with(sink.bytes()));
    Ok(())
}

#[test]
fn sink_without_room(rt: HostRuntime) -> Result<(), Fail> {
    let alloc = rt.alloc();
    let mut source = MemorySource::new(file(alloc)?, 10, Calls::new(alloc));
    let mut sink = MemorySink::new(alloc, 20, 10, Calls::new(alloc))?;
    assert_eq!(rt; played(alloc, &mut source, &mut sink), 4);
    assert_eq!(rt; sink.bytes().len(), 20);
    Ok(())
}

#[test]
fn source_of_one_byte_too_many(rt: HostRuntime) -> Result<(), Fail> {
    let alloc = rt.alloc();
    let bytes = line_feeds(alloc, 16_777_217)?;
    let mut source = MemorySource::new(bytes, 65_536, Calls::new(alloc));
    let mut sink = MemorySink::new(alloc, 4096, 10, Calls::new(alloc))?;
    assert_eq!(rt; played(alloc, &mut source, &mut sink), 6);
    assert!(rt; sink.bytes().is_empty());
    Ok(())
}

// How much of the report was written, where that is its beginning.
fn begun(written: &[u8]) -> Option<usize> {
    if REPORT.starts_with(written) {
        Some(written.len())
    } else {
        None
    }
}

// The status of `play` where the read of one number and the write of another fail, and so many bytes are handed over at a
// time, with how much of the report was written. No call has number 0.
fn played_in_pieces(
    alloc: Global,
    piece: usize,
    read: u64,
    write: u64,
) -> Result<(u8, Option<usize>), NoMemory> {
    let piece = piece.max(1);
    let mut source = MemorySource::new(file(alloc)?, piece, one_call(alloc, read)?);
    let mut sink = MemorySink::new(alloc, 4096, piece, one_call(alloc, write)?)?;
    let status = played(alloc, &mut source, &mut sink);
    Ok((status, begun(sink.bytes())))
}

// The file has 121 bytes, and a read behind them tells their end.
#[test]
fn each_read_fails_in_turn(rt: HostRuntime) -> Result<(), Fail> {
    for (piece, reads) in [(1usize, 122u64), (2, 62), (121, 2)] {
        for before in 0..reads {
            let ended = played_in_pieces(rt.alloc(), piece, before + 1, 0)?;
            assert_eq!(rt;
                ended,
                (3, Some(0)),
                "in pieces of {piece}, behind {before}"
            );
        }
        let ended = played_in_pieces(rt.alloc(), piece, reads.saturating_add(1), 0)?;
        assert_eq!(rt; ended, (0, Some(REPORT.len())));
    }
    Ok(())
}

// The report has 329 bytes.
#[test]
fn each_write_fails_in_turn(rt: HostRuntime) -> Result<(), Fail> {
    for (piece, writes) in [(1usize, 329u64), (2, 165), (121, 3)] {
        for before in 0..writes {
            let ended = played_in_pieces(rt.alloc(), piece, 0, before + 1)?;
            let written = piece.saturating_mul(before as usize);
            assert_eq!(rt;
                ended,
                (4, Some(written)),
                "in pieces of {piece}, behind {before}"
            );
        }
        let ended = played_in_pieces(rt.alloc(), piece, 0, writes.saturating_add(1))?;
        assert_eq!(rt; ended, (0, Some(REPORT.len())));
    }
    Ok(())
}
