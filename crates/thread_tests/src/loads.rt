// A large file is worked without its source.
use adept_io::{Bytes, Calls, MemorySink, MemorySource, NoMemory};
use adept_top::adept;
use std::alloc::Global;
use std::sync::Wait;
use std::test::Fail;
use std::thread::Threads;
use turn_cell::OpenGate;

// What `load` writes for so many cases, from a source that fails.
fn loaded<R: Threads + Wait + Sync>(
    rt: &R,
    alloc: Global,
    cases: &str,
) -> Result<MemorySink, NoMemory> {
    let mut words = vec![in alloc; String::from_str(alloc, "load")?]?;
    words.push(String::from_str(alloc, cases)?)?;
    let mut failing = Calls::new(alloc);
    failing.push(1)?;
    let mut source = MemorySource::new(Bytes::new(alloc), 10, failing);
    let mut sink = MemorySink::new(alloc, 4096, 100, Calls::new(alloc))?;
    let _ = adept(rt, alloc, &words, &mut source, &mut sink, &OpenGate);
    Ok(sink)
}

#[test]
fn ten_cases(rt: HostRuntime) -> Result<(), Fail> {
    let sink = loaded(&rt, rt.alloc(), "0010")?;
    assert_eq!(rt;
        sink.bytes(),
        b"summary cases=10 finished=1 entries=65 migrated=7 blocked=3 overlap=2\n".as_slice()
    );
    Ok(())
}

#[test]
fn five_digits_are_no_number_of_cases(rt: HostRuntime) -> Result<(), Fail> {
    let sink = loaded(&rt, rt.alloc(), "00010")?;
    assert!(rt; sink.bytes().is_empty());
    Ok(())
}
