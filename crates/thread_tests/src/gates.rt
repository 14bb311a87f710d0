// Gates for the tests that hold actors.
use turn_cell::{Gate, HoldGate, Side};

/// A gate before another.
#[derive(Drop)]
pub struct TwoGates {
    pub first: HoldGate,
    pub second: HoldGate,
}

impl TwoGates {
    /// Whether none of them waited in vain.
    pub fn held(&self) -> bool {
        !self.first.ran_out() && !self.second.ran_out()
    }
}

impl Gate for TwoGates {
    fn reach(&self, actor: u32, line: u32, side: Side) {
        self.first.reach(actor, line, side);
        self.second.reach(actor, line, side);
    }
}

/// Any number of gates, of which each is told of every place in turn.
#[derive(Drop)]
pub struct Gates {
    pub items: Vec<HoldGate>,
}

impl Gates {
    /// Whether none of them waited in vain.
    pub fn held(&self) -> bool {
        self.items.iter().all(|gate| !gate.ran_out())
    }
}

impl Gate for Gates {
    fn reach(&self, actor: u32, line: u32, side: Side) {
        for gate in &self.items {
            gate.reach(actor, line, side);
        }
    }
}
