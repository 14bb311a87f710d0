// One call with one of many passes.
ghost use Rattle.std.specs.Prelude.{◌≡◌, ◌<◌, ◌≤◌, length, map, IfErr, slice_get};
ghost use Rattle.adept_server.specs.Calling.{CallsOne, HasRoom};
ghost use Rattle.turn_batch.specs.Batch.{AreOf};
ghost use Rattle.turn_cell.specs.Passes.{view_of};

use std::alloc::Global;
use std::sync::Wait;
use turn_cell::{CallFault, Cell, Gate, MAX_WEIGHT, Machine, Pass};

// Makes one call on the cell at an index, with the pass at that index.
pub(crate) fn call_at<M: Machine, R: Wait, G: Gate>(
    rt: &R,
    alloc: Global,
    cells: &[Cell<M>],
    passes: &mut [Pass<M>],
    index: usize,
    event: &M::Event,
    gate: &G,
    line: u32,
) -> Result<M::Reply, CallFault>
    requires cells { AreOf cells.now passes.old }
    requires there { index < length passes.old }
    requires light { M.weight event.now ≤ MAX_WEIGHT }
    ensures cells { AreOf cells.now passes.new }
    ensures called { CallsOne M.after M.reply event.now index result (map view_of passes.old) (map view_of passes.new) }
    ensures memory { IfErr result (λ f. f ≡ CallFault.NoMemory → HasRoom (slice_get (map view_of passes.new) index)) }
{
    cells[index].call(rt, alloc, &mut passes[index], event, gate, line)
}
