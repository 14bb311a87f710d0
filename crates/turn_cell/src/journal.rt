//! The journal of a cell.
ghost use Rattle.std.specs.Prelude.{◌≡◌, ◌<◌, vec_len, vec_capacity, OnOk};

use crate::machine::{Machine, NoMemory};

/// One call: the number of the pass that made it, its event, and the reply.
#[derive(Drop)]
pub struct Entry<M: Machine> {
    pub caller: u32,
    pub event: M::Event,
    pub reply: M::Reply,
}

/// The calls on a cell, in order.
#[derive(Drop)]
pub struct Journal<M: Machine> {
    pub items: Vec<Entry<M>>,
}

impl<M: Machine> Journal<M> {
    // There is room for an entry then.
    pub(crate) fn make_room(&mut self) -> Result<(), NoMemory>
        ensures items { self.new.items.items ≡ self.old.items.items }
        ensures room { OnOk result (vec_len self.new.items < vec_capacity self.new.items) }
    {
        let count = self.items.len();
        if count < self.items.capacity() {
            return Ok(());
        }
        self.items.reserve_exact(more_room(count))
    }
}

// For how many entries more a journal with so many gets room. A server keeps many journals, and most are short.
fn more_room(count: usize) -> usize
    ensures { 0 < result }
{
    match count {
        0..=5 => 6 - count,
        6..=7 => 8 - count,
        8..=15 => 16 - count,
        _ => count / 2,
    }
}

/// What a cell was when it was closed.
#[derive(Drop)]
pub struct Closed<M: Machine> {
    pub machine: M,
    pub journal: Journal<M>,
}
