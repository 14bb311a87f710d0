// A row of three cells, opened, called and closed.
ghost use Rattle.std.specs.Prelude.{◌≡◌, ◌<◌, All, OnOk, length};
ghost use Rattle.turn_batch.specs.Batch.{AreOf};
ghost use Rattle.turn_rows.specs.Rows.{CanClose, views};

use crate::counters::Counter;
use std::alloc::Global;
use std::sync::atomic::{AtomicU32, Ordering};
use std::test::Fail;
use turn_cell::{Cell, Gate, Pass, Side, TryFault};
use turn_rows::{close_into, join_row, meet_rows, open_row, split_into};

/// A gate that notes which cell was called last.
#[derive(Drop)]
struct LabelGate {
    label: AtomicU32,
}

impl Gate for LabelGate {
    fn reach(&self, actor: u32, line: u32, side: Side) {
        let _ = (actor, line);
        if let Side::Inside(label) = side {
            self.label.store(label, Ordering::SeqCst);
        }
    }
}

fn call_at(
    alloc: Global,
    cells: &[Cell<Counter>],
    passes: &mut [Pass<Counter>],
    place: usize,
    gate: &LabelGate,
) -> Result<u64, TryFault>
    requires cells { AreOf cells.now passes.old }
    requires place { place < length cells.now }
    ensures { AreOf cells.now passes.new }
{
    cells[place].try_call(alloc, &mut passes[place], &5, gate, 4)
}

// Another row of passes makes one call and is joined.
fn use_row(
    alloc: Global,
    cells: &[Cell<Counter>],
    firsts: &mut [Pass<Counter>],
    place: usize,
    gate: &LabelGate,
) -> Result<u64, TryFault>
    requires cells { AreOf cells.now firsts.old }
    requires new { All (λ v. (v.number ≡ 0) × (v.made ≡ 1) × (v.taken ≡ 0)) (views firsts.old) }
    requires place { place < length cells.now }
    ensures { OnOk result (AreOf cells.now firsts.new × All CanClose (views firsts.new)) }
{
    let mut desk = Vec::with_capacity(alloc, firsts.len()).map_err(|_| TryFault::NoMemory)?;
    split_into(cells, firsts, &mut desk);
    let reply = call_at(alloc, cells, &mut desk, place, gate)?;
    meet_rows(cells, firsts, &mut desk);
    join_row(cells, firsts, desk);
    Ok(reply)
}

#[test]
fn row_of_three(rt: HostRuntime) -> Result<(), Fail> {
    let alloc = rt.alloc();
    let machines = vec![in alloc;
        Counter { count: 10 },
        Counter { count: 20 },
        Counter { count: 30 },
    ]?;
    let (cells, mut firsts) = open_row(alloc, 7, machines, &[1])?;
    let gate = LabelGate {
        label: AtomicU32::new(0),
    };
    let reply = use_row(alloc, &cells, &mut firsts, 1, &gate)?;
    assert!(rt; reply == 20 && gate.label.load(Ordering::SeqCst) == 8);
    let mut closed = Vec::with_capacity(alloc, cells.len())?;
    close_into(cells, firsts, &mut closed);
    assert!(rt; closed.iter().map(|c| c.machine.count).eq([10, 25, 30]));
    assert!(rt; closed.iter().map(|c| c.journal.items.len()).eq([0, 1, 0]));
    Ok(())
}
