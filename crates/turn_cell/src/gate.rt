//! Places in a run, of which callers tell, so that a test can hold one of them there.

/// Where a caller is with its line.
#[derive(Clone, Copy, PartialEq, Eq)]
pub enum Side {
    Before,
    /// It has the turn of the cell with that label.
    Inside(u32),
    After,
}

/// What is told of each place that an actor reaches.
pub trait Gate {
    /// The actor may be held here. It takes no memory.
    fn reach(&self, actor: u32, line: u32, side: Side);
}

/// A gate that holds nobody.
#[derive(Drop)]
pub struct OpenGate;

impl Gate for OpenGate {
    fn reach(&self, actor: u32, line: u32, side: Side) {
        let _ = (actor, line, side);
    }
}
