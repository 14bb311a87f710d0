// Payloads.
use adept_io::{Bytes, NoMemory};
use case_core::Event;
use std::alloc::Global;
use std::test::Fail;
use store_form::{Recorded, Stored, has_short_lists, is_shallow, payload, read_payload};
use wsm_lists::{Value, Writes};
use wsm_sound::CaseId;

#[test]
fn call_is_read_again(rt: HostRuntime) -> Result<(), Fail> {
    let bytes = asked(rt.alloc())?.ok_or("the call has a payload")?;
    assert_eq!(rt; bytes.as_slice(), [3, 0, 0, 0, 0, 0, 0, 0, 0].as_slice());
    let read = read_payload(rt.alloc(), bytes.as_slice())?;
    assert_eq!(rt; asker(read), Some(0));
    Ok(())
}

// The payload of the caller 0 asking the type 0 for its newest version.
fn asked(alloc: Global) -> Result<Option<Bytes>, NoMemory> {
    let event = Stored::Newest(0);
    if has_short_lists(&event) && is_shallow(&event) {
        payload(alloc, 0, &event).map(Some)
    } else {
        Ok(None)
    }
}

// Who asks the type 0 for its newest version.
fn asker(read: Option<Recorded>) -> Option<u32> {
    match &read {
        Some(recorded) => asker_in(recorded),
        None => None,
    }
}

fn asker_in(recorded: &Recorded) -> Option<u32> {
    match &recorded.event {
        Stored::Newest(0) => Some(recorded.caller),
        _ => None,
    }
}

// Before the writes stand a tag, the caller, the type, the place, the node, the user and their count; each has thirteen
// bytes, and behind them stands that there is no choice.
#[test]
fn end_with_65536_writes_has_its_payload(rt: HostRuntime) -> Result<(), Fail> {
    let bytes = end_with(rt.alloc(), 65_536)?;
    assert_eq!(rt; bytes.as_slice().len(), 25 + 65_536 * 13 + 1);
    let first = [
        6, 0, 0, 0, 1, 0, 0, 0, 0, 0, 0, 0, 0, 0, 0, 0, 0, 0, 0, 0, 1, 0, 1, 0, 0, 0, 0, 0, 2, 0,
        0, 0, 0, 0, 0, 0, 0, 7,
    ];
    assert!(rt; bytes.as_slice().starts_with(&first));
    Ok(())
}

#[test]
fn list_longer_than_its_bytes_is_none(rt: HostRuntime) -> Result<(), Fail> {
    let bytes = [2, 0, 0, 0, 0, 0, 0, 0, 0, 255, 255, 255, 255];
    assert!(rt; read_payload(rt.alloc(), &bytes)?.is_none());
    Ok(())
}

// The payload of the end of a node that writes 7 into the element 2 so many times.
fn end_with(alloc: Global, count: u32) -> Result<Bytes, NoMemory> {
    let mut writes = Vec::new(alloc);
    for _ in 0..count {
        writes.push((2, Value::Int(7)))?;
    }
    let event = Event::End {
        node: 0,
        user: 1,
        writes: Writes::from_vec(writes),
        choice: None,
    };
    let case = CaseId {
        type_no: 0,
        place: 0,
    };
    payload(alloc, 1, &Stored::Case(case, event))
}
