//! How the cells of a row begin.
ghost use Rattle.std.specs.Prelude.{◌≤◌, ◌+◌, ◌^◌, All, IfOk, vec_len};
ghost use Rattle.turn_batch.specs.Batch.{AreOf};
ghost use Rattle.turn_rows.specs.Rows.{AreOpened};

use std::alloc::Global;
use turn_cell::{Cell, MAX_OPENING_AGE, Machine, NoMemory, Pass};

/// A cell over each machine, labelled by the numbers from `label` on, and the first pass of each. Its journal has the room that
/// stands at its place at first, or none.
pub fn open_row<M: Machine>(
    alloc: Global,
    label: u32,
    machines: Vec<M>,
    rooms: &[usize],
) -> Result<(Vec<Cell<M>>, Vec<Pass<M>>), NoMemory>
    requires labels { label + vec_len machines ≤ 2 ^ 32 }
    requires young { All (λ m. M.age (M.state m) ≤ MAX_OPENING_AGE) machines.items }
    ensures cells { IfOk result (λ r. AreOf r.0.items r.1.items) }
    ensures opened { IfOk result (λ r. AreOpened M.state machines.items r.0.items r.1.items) }
{
    let mut cells = Vec::with_capacity(alloc, machines.len())?;
    let mut firsts = Vec::with_capacity(alloc, machines.len())?;
    for (place, machine) in machines.into_iter().enumerate() {
        let (cell, first) = Cell::with_room(
            alloc,
            label + place as u32,
            machine,
            room_at(rooms, place),
        )?;
        cells.push_reserved(cell);
        firsts.push_reserved(first);
    }
    Ok((cells, firsts))
}

// The room at a place. It is none behind the last.
fn room_at(rooms: &[usize], place: usize) -> usize {
    rooms.get(place).copied().unwrap_or(0)
}
