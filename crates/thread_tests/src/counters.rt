// A machine for the tests of cells.
ghost use Rattle.std.specs.Prelude.{◌+◌};

use std::alloc::Global;
use turn_cell::{Machine, NoMemory};

/// A machine that adds each event to a count, and replies with the count before.
#[derive(Drop)]
pub struct Counter {
    pub count: u64,
}

impl Machine for Counter {
    type Event = u32;

    type Reply = u64;

    type View = u64;

    type State = u64;

    ghost state = { λ c. c.count };

    ghost after = { λ s e. s + e };

    ghost reply = { λ s e. s };

    ghost shown = { λ s. s };

    ghost age = { λ s. s };

    ghost weight = { λ e. e };

    ghost reads = { λ c. 0 };

    ghost allowance = { λ s e. 0 };

    fn step(&mut self, alloc: Global, event: &u32) -> Result<(u64, u64), NoMemory> {
        let _ = alloc;
        let before = self.count;
        self.count += u64::from(*event);
        Ok((before, before))
    }

    fn view(&self, alloc: Global) -> Result<u64, NoMemory> {
        let _ = alloc;
        Ok(self.count)
    }

    fn copy_event(alloc: Global, event: &u32) -> Result<u32, NoMemory> {
        let _ = alloc;
        Ok(*event)
    }
}
