// Trails: what was written in a loop is there after the loop was cut.
use std::alloc::Global;
use std::test::Fail;
use wsm_schema::{NoMemory, Nodes, ReadValues, Value, Writes};
use wsm_trail::{Entry, Trail};

fn end(alloc: Global) -> Result<Entry, NoMemory> {
    Ok(Entry::End {
        node: 4,
        writes: Writes::of_one(alloc, (9, Value::Int(5)))?,
        choice: None,
    })
}

// Node 4 was started and wrote 5 to element 9.
fn written(alloc: Global) -> Result<Trail, NoMemory> {
    let mut trail = Trail::new(alloc);
    trail.reserve(1)?;
    trail.push(Entry::Start {
        node: 4,
        user: 7,
        reads: ReadValues::new(alloc),
    });
    let end = end(alloc)?;
    trail.reserve(1)?;
    trail.push(end);
    Ok(trail)
}

fn cut(alloc: Global, trail: &mut Trail) -> Result<(), NoMemory> {
    trail.cut(&Nodes::of_one(alloc, 4)?);
    Ok(())
}

fn cut_copy(alloc: Global, trail: &Trail) -> Result<Trail, NoMemory> {
    let mut copy = trail.copy(alloc)?;
    cut(alloc, &mut copy)?;
    Ok(copy)
}

fn is_five(value: Option<&Value>) -> bool {
    matches!(value, Some(Value::Int(5)))
}

fn keeps_five(trail: &Trail) -> bool {
    is_five(trail.value(9)) && matches!(trail.entry(2), Some(Entry::Wrote { .. }))
}

fn has_five(alloc: Global, trail: &Trail) -> bool {
    match trail.values(alloc) {
        Ok(values) => matches!(values.get(0), Some((9, Value::Int(5)))),
        Err(_) => false,
    }
}

fn copied_and_cut(alloc: Global, trail: &Trail) -> Result<bool, NoMemory> {
    let copy = cut_copy(alloc, trail)?;
    Ok(copy.len() == 1 && copy.next() == 3 && keeps_five(&copy) && has_five(alloc, &copy))
}

#[test]
fn a_cut_keeps_what_was_written(rt: HostRuntime) -> Result<(), Fail> {
    let alloc = rt.alloc();
    let trail = written(alloc)?;
    assert_eq!(rt; trail.len(), 2);
    assert!(rt; copied_and_cut(alloc, &trail)?);
    Ok(())
}
