//! What a seat at the table of a cell knows. No value of these types is made: the rule of the cell speaks of them.
use crate::journal::Entry;
use crate::machine::Machine;
use std::collections::LinkedList;

/// What a seat is doing.
pub enum Phase {
    /// It was taken in by another.
    Spent,
    /// It carries a list that was seen, and is no pass.
    Note,
    /// A pass without the turn.
    Idle,
    /// A pass with the turn, while the slot is at home.
    Entered,
    /// A pass with the turn and with the slot, which has seen the whole journal.
    Inside,
}

/// What a seat knows.
pub struct SeatView<M: Machine> {
    pub phase: Phase,
    pub opening: Option<M::State>,
    pub number: u32,
    pub seen: LinkedList<Entry<M>>,
    /// A beginning of `seen`, of which another seat told.
    pub told: LinkedList<Entry<M>>,
    pub own_calls: LinkedList<Entry<M>>,
    pub made: u32,
    pub taken: u32,
    pub past: LinkedList<(u32, LinkedList<Entry<M>>)>,
    pub met: u64,
}
