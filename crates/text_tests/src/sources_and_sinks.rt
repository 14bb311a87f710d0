// Sources and sinks in memory, and the forms over std at concrete types.
use adept_io::{
    Bytes, Calls, MemorySink, MemorySource, ReadRefusal, Sink, StdSink, StdSource, Text, put,
    put_integer, put_line, put_number, put_pieces, read_to_limit, write_all, write_gathered,
};
use std::test::Fail;
use text_follower::GrowingSink;

#[test]
fn lists_grow(rt: HostRuntime) -> Result<(), Fail> {
    let mut bytes = Bytes::new(rt.alloc());
    bytes.push(7)?;
    let mut calls = Calls::new(rt.alloc());
    calls.push(2)?;
    assert_eq!(rt; bytes.get(0), Some(7));
    assert_eq!(rt; calls.get(0), Some(2));
    Ok(())
}

#[test]
fn source_is_read_to_its_end(rt: HostRuntime) -> Result<(), Fail> {
    let text = Bytes::from_vec(b"twenty-six bytes in pieces".to_vec(rt.alloc())?);
    let mut source = MemorySource::new(text, 10, Calls::new(rt.alloc()));
    let bytes = read_to_limit(rt.alloc(), &mut source, 26)?;
    assert_eq!(rt; bytes.as_slice(), b"twenty-six bytes in pieces".as_slice());
    Ok(())
}

#[test]
fn source_fails_at_its_second_call(rt: HostRuntime) -> Result<(), Fail> {
    let text = Bytes::from_vec(b"twenty-six bytes in pieces".to_vec(rt.alloc())?);
    let fails = Calls::from_vec([2u64].to_vec(rt.alloc())?);
    let mut source = MemorySource::new(text, 10, fails);
    let answer = read_to_limit(rt.alloc(), &mut source, 26);
    assert!(rt; matches!(answer, Err(ReadRefusal::Failed)));
    Ok(())
}

#[test]
fn source_gives_one_byte_too_many(rt: HostRuntime) -> Result<(), Fail> {
    let text = Bytes::from_vec(b"twenty-six bytes in pieces".to_vec(rt.alloc())?);
    let mut source = MemorySource::new(text, 10, Calls::new(rt.alloc()));
    let answer = read_to_limit(rt.alloc(), &mut source, 25);
    assert!(rt; matches!(answer, Err(ReadRefusal::TooLong)));
    Ok(())
}

#[test]
fn sink_fails_at_its_third_call(rt: HostRuntime) -> Result<(), Fail> {
    let fails = Calls::from_vec([3u64].to_vec(rt.alloc())?);
    let mut sink = MemorySink::new(rt.alloc(), 4096, 10, fails)?;
    assert!(rt; write_all(&mut sink, b"twenty-six bytes in pieces").is_err());
    assert_eq!(rt; sink.bytes(), b"twenty-six bytes in ".as_slice());
    Ok(())
}

#[test]
fn reader_and_writer_of_std(rt: HostRuntime) -> Result<(), Fail> {
    let mut source = StdSource::new(b"case ".as_slice());
    let bytes = read_to_limit(rt.alloc(), &mut source, 100)?;
    let mut sink = StdSink::new(Vec::new(rt.alloc()));
    let ok = put(&mut sink, true, bytes.as_slice());
    let ok = put_number(&mut sink, ok, 12);
    let ok = put_line(&mut sink, ok, b" is done");
    let ok = put_pieces(&mut sink, ok, &[b"left".as_slice(), b" "]);
    assert!(rt; put_integer(&mut sink, ok, -3));
    assert_eq!(rt;
        sink.into_inner().as_slice(),
        b"case 12 is done\nleft -3".as_slice()
    );
    Ok(())
}

// Bytes as a text.
#[derive(Drop)]
struct Plain<'a> {
    bytes: &'a [u8],
}

impl Text for Plain<'_> {
    ghost bytes = { λ plain. plain.bytes.now };

    fn put<K: Sink>(&self, sink: &mut K, ok: bool) -> bool {
        put(sink, ok, self.bytes)
    }
}

#[test]
fn more_is_gathered_than_is_held_at_once(rt: HostRuntime) -> Result<(), Fail> {
    let bytes = vec![in rt.alloc(); 7u8; 10_000]?;
    let mut sink = MemorySink::new(rt.alloc(), 10_000, 10, Calls::new(rt.alloc()))?;
    let text = Plain {
        bytes: bytes.as_slice(),
    };
    assert!(rt; write_gathered(&mut sink, &text).is_ok());
    assert_eq!(rt; sink.bytes(), bytes.as_slice());
    Ok(())
}

// The marking of some 1,000 nodes with long names is a line of so many bytes.
#[test]
fn growing_sink_takes_a_long_line(rt: HostRuntime) -> Result<(), Fail> {
    let piece = vec![in rt.alloc(); b'x'; 1_000]?;
    let mut sink = GrowingSink::new(rt.alloc());
    for _ in 0..70 {
        assert!(rt; write_all(&mut sink, piece.as_slice()).is_ok());
    }
    assert_eq!(rt; sink.as_slice().len(), 70_000);
    Ok(())
}
