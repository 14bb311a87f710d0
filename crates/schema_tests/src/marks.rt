// Marks: changes are taken in at their places, without further memory.
use std::alloc::Global;
use std::test::Fail;
use wsm_lists::{GrowingTable, NoMemory};
use wsm_rules::{Changes, Mark, Marks};

// Ready since that position.
fn ready(position: u32) -> Mark {
    Mark {
        ready_at: Some(position),
        skipped_at: None,
        started: None,
        ended: None,
        choice: None,
        again: None,
    }
}

// Node 2 has no mark any more, and nodes 1, 4 and 9 have one.
fn some_changes(alloc: Global) -> Result<Changes, NoMemory> {
    let mut changes = GrowingTable::new(alloc);
    changes.set((9, Some(ready(5))))?;
    changes.set((2, None))?;
    changes.set((4, Some(ready(6))))?;
    changes.set((1, Some(ready(7))))?;
    changes.into_table(alloc)
}

// Which nodes have a mark, each with the position since when it is ready.
fn is_since(marks: &Marks, expected: &[(u32, Option<u32>)]) -> bool {
    let rows = marks.as_slice();
    rows.len() == expected.len()
        && rows.iter().zip(expected.iter()).all(|(row, (node, position))| row.0 == *node
            && row.1.ready_at == *position)
}

#[test]
fn changes_are_taken_in(rt: HostRuntime) -> Result<(), Fail> {
    let alloc = rt.alloc();
    let mut marks = Marks::new(alloc);
    marks.reserve(2)?;
    marks.set(4, ready(3));
    marks.set(2, ready(0));
    assert!(rt; is_since(&marks, &[(2, Some(0)), (4, Some(3))]));
    let changes = some_changes(alloc)?;
    marks.reserve(changes.len())?;
    marks.take_in(changes);
    assert!(rt; is_since(&marks, &[(1, Some(7)), (4, Some(6)), (9, Some(5))]));
    assert!(rt; marks.get(2).is_none());
    Ok(())
}
