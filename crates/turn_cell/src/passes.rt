//! How passes are made, told of one another and taken in, and how a cell begins and ends.
ghost use Rattle.std.specs.Prelude.{◌≡◌, ◌+◌, ◌^◌, ◌-◌, ◌≤◌, ◌<◌, IfOk};
ghost use mathlib.Core.List.{IsPrefix};
ghost use Rattle.turn_cell.specs.{Passes.{view_of, cell_id, IsPassOf, IsLegalView, IsClosed, first_of, split_off, joined}, Rule.longer};

use crate::cell::{Cell, GUARDED};
use crate::guarded::Guarded;
use crate::journal::{Closed, Journal};
use crate::limits::MAX_OPENING_AGE;
use crate::machine::{Machine, NoMemory};
use crate::pass::Pass;
use crate::rule::{JoinNote, JoinPass, SplitNote, SplitPass};
use atomic_table::Table;
use std::alloc::Global;
use std::snapshot::Snapshot;

impl<M: Machine> Cell<M> {
    /// A cell over a machine, and its first pass, whose number is 0. Gates are told the label.
    pub fn new(alloc: Global, label: u32, machine: M) -> Result<(Cell<M>, Pass<M>), NoMemory>
        requires { M.age (M.state machine) ≤ MAX_OPENING_AGE }
        ensures { IfOk result (λ r. view_of r.1 ≡ first_of (cell_id r.0) (M.state machine)) }
    {
        Cell::with_room(alloc, label, machine, 0)
    }

    /// The same, where the journal has room for so many entries at first.
    pub fn with_room(
        alloc: Global,
        label: u32,
        machine: M,
        entries: usize,
    ) -> Result<(Cell<M>, Pass<M>), NoMemory>
        requires { M.age (M.state machine) ≤ MAX_OPENING_AGE }
        ensures { IfOk result (λ r. view_of r.1 ≡ first_of (cell_id r.0) (M.state machine)) }
    {
        let opening = Snapshot::of(&machine);
        let machine = Box::new(alloc, machine)?;
        let items = Vec::with_capacity(alloc, entries)?;
        let mut slots = Vec::with_capacity(alloc, 1)?;
        slots.push_reserved(Some(Guarded {
            machine,
            journal: Journal { items },
        }));
        let Ok((table, seat)) = Table::new(alloc, &[0, 0], slots, &opening) else {
            return Err(NoMemory);
        };
        Ok((
            Cell { label, table },
            Pass {
                number: 0,
                made: 1,
                taken: 0,
                seat,
                kept: None,
            },
        ))
    }

    /// A new pass with a number of its own, which has seen what the first pass has. It takes no memory.
    pub fn split(&self, first: &mut Pass<M>) -> Pass<M>
        requires cell { IsPassOf self.now first.old }
        requires first { (view_of first.old).number ≡ 0 }
        requires room { (view_of first.old).made < 2 ^ 32 - 1 }
        ensures cell { IsPassOf self.now first.new × IsPassOf self.now result }
        ensures first { view_of first.new ≡ record (view_of first.old) { made = (view_of first.old).made + 1 } }
        ensures new { view_of result ≡ split_off (view_of first.old) }
        ensures legal { IsLegalView M.after M.reply (view_of result) }
    {
        let mut seat = self.table.shared.split_seat::<SplitPass>(&mut first.seat);
        let number = first.made;
        first.made += 1;
        self.observe(&mut seat);
        Pass {
            number,
            made: 0,
            taken: 0,
            seat,
            kept: None,
        }
    }

    /// Takes a pass into the first one: it has then seen the longer list, and its past has the calls of the other.
    /// It takes no memory.
    pub fn join(&self, into: &mut Pass<M>, done: Pass<M>)
        requires cell { IsPassOf self.now into.old × IsPassOf self.now done }
        requires into { (view_of into.old).number ≡ 0 }
        requires room { (view_of into.old).taken < 2 ^ 32 - 1 }
        ensures cell { IsPassOf self.now into.new }
        ensures joined { view_of into.new ≡ joined (view_of into.old) (view_of done) }
        ensures more { IsPrefix (view_of into.old).seen (view_of into.new).seen × IsPrefix (view_of done).seen (view_of into.new).seen }
        ensures legal { IsLegalView M.after M.reply (view_of into.new) }
    {
        let Pass { seat, .. } = done;
        let table = &self.table.shared;
        table.join_seat::<JoinPass>(&mut into.seat, seat);
        into.taken += 1;
        self.observe(&mut into.seat);
    }

    /// Both have then seen the longer list. It takes no memory.
    pub fn meet(&self, one: &mut Pass<M>, two: &mut Pass<M>)
        requires cell { IsPassOf self.now one.old × IsPassOf self.now two.old }
        ensures cell { IsPassOf self.now one.new × IsPassOf self.now two.new }
        ensures one { view_of one.new ≡ record (view_of one.old) { seen = (view_of two.new).seen } }
        ensures two { view_of two.new ≡ record (view_of two.old) { seen = longer (view_of two.old).seen (view_of one.old).seen } }
        ensures more { IsPrefix (view_of one.old).seen (view_of two.new).seen × IsPrefix (view_of two.old).seen (view_of two.new).seen }
        ensures legal { IsLegalView M.after M.reply (view_of one.new) × IsLegalView M.after M.reply (view_of two.new) }
    {
        let table = &self.table.shared;
        let note = table.split_seat::<SplitNote>(&mut one.seat);
        table.join_seat::<JoinNote>(&mut two.seat, note);
        self.observe(&mut two.seat);
        let note = table.split_seat::<SplitNote>(&mut two.seat);
        table.join_seat::<JoinNote>(&mut one.seat, note);
        self.observe(&mut one.seat);
    }

    /// The machine and the journal, once all other passes were taken into the first. It takes no memory.
    pub fn close(self, last: Pass<M>) -> Closed<M>
        requires cell { IsPassOf self last }
        requires first { (view_of last).number ≡ 0 }
        requires all { (view_of last).made ≡ (view_of last).taken + 1 }
        ensures { IsClosed M.after M.reply M.state (view_of last) result.machine result.journal.items.items }
    {
        let Cell { table, .. } = self;
        let Pass { seat, .. } = last;
        let mut closed = table.close_with(seat);
        let slot = closed.take(GUARDED);
        closed.free();
        let Guarded { machine, journal } = slot.unwrap();
        Closed {
            machine: Box::into_inner(machine),
            journal,
        }
    }
}
