//! A gate for tests, which holds one actor at one place.
use crate::gate::{Gate, Side};
use std::sync::atomic::{AtomicBool, Ordering};
use std::{hint, thread};

// How often a held actor looks whether the gate is open, and after how many looks it lets other threads run.
const TURNS: u32 = 50_000_000;

const TURNS_IN_A_ROW: u32 = 10_000;

/// An actor at one side of a line.
#[derive(Clone, Copy, PartialEq, Eq)]
pub struct Place {
    pub actor: u32,
    pub line: u32,
    pub side: Side,
}

/// Holds who reaches one place, until another place is reached or `open` is called, or for 50,000,000 turns.
#[derive(Drop)]
pub struct HoldGate {
    held: Place,
    opener: Place,
    is_open: AtomicBool,
    ran_out: AtomicBool,
}

impl HoldGate {
    /// Holds that actor at that place, until the opener's place is reached.
    pub fn new(actor: u32, line: u32, side: Side, opener: Place) -> HoldGate {
        HoldGate {
            held: Place { actor, line, side },
            opener,
            is_open: AtomicBool::new(false),
            ran_out: AtomicBool::new(false),
        }
    }

    /// Holds nobody from now on.
    pub fn open(&self) {
        self.is_open.store(true, Ordering::SeqCst);
    }

    /// Whether an actor was held for all turns, and went on with the gate still shut.
    pub fn ran_out(&self) -> bool {
        self.ran_out.load(Ordering::SeqCst)
    }

    fn hold(&self) {
        for turn in 0..TURNS {
            if self.is_open.load(Ordering::SeqCst) {
                return;
            }
            if turn % TURNS_IN_A_ROW == 0 {
                thread::yield_now();
            } else {
                hint::spin_loop();
            }
        }
        self.ran_out.store(true, Ordering::SeqCst);
    }
}

impl Gate for HoldGate {
    fn reach(&self, actor: u32, line: u32, side: Side) {
        let place = Place { actor, line, side };
        if place == self.opener {
            self.open();
        }
        if place == self.held {
            self.hold();
        }
    }
}
