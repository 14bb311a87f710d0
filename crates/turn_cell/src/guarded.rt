//! What the turn of a cell guards.
ghost use Rattle.std.specs.Prelude.{◌≡◌, ◌+◌, ◌*◌, ◌≤◌, ◌<◌, ◌++◌, ◌∷◌, [], length, IfOk, IfErr, OnErr, OnOk};
ghost use Rattle.turn_cell.specs.History.{entry};

use crate::faults::CallFault;
use crate::journal::{Entry, Journal};
use crate::limits::{MAX_ENTRIES, MAX_OPENING_AGE, MAX_WEIGHT};
use crate::machine::Machine;
use std::alloc::Global;

/// The machine and its journal, which lie in the slot of a cell. Who has the turn may take them out.
#[derive(Drop)]
pub struct Guarded<M: Machine> {
    pub machine: Box<M>,
    pub journal: Journal<M>,
}

impl<M: Machine> Guarded<M> {
    // One step of the machine, which is written down. A step that is not made leaves journal and state.
    pub(crate) fn make_call(
        &mut self,
        alloc: Global,
        caller: u32,
        event: &M::Event,
    ) -> Result<M::Reply, CallFault>
        requires young { M.age (M.state self.old.machine.value) ≤ MAX_OPENING_AGE + MAX_WEIGHT * length self.old.journal.items.items }
        requires light { M.weight event.now ≤ MAX_WEIGHT }
        ensures journal { IfOk result (λ r. self.new.journal.items.items ≡ self.old.journal.items.items ++ entry caller event.now r ∷ []) }
        ensures reply { IfOk result (λ r. r ≡ M.reply (M.state self.old.machine.value) event.now) }
        ensures state { OnOk result (M.state self.new.machine.value ≡ M.after (M.state self.old.machine.value) event.now) }
        ensures young { OnOk result (M.age (M.state self.new.machine.value) ≤ MAX_OPENING_AGE + MAX_WEIGHT * (length self.old.journal.items.items + 1)) }
        ensures room { OnOk result (length self.old.journal.items.items < MAX_ENTRIES) }
        ensures kept { OnErr result ((self.new.journal.items.items ≡ self.old.journal.items.items) × (M.state self.new.machine.value ≡ M.state self.old.machine.value)) }
        ensures full { IfErr result (λ f. f ≡ CallFault.Full → MAX_ENTRIES ≤ length self.old.journal.items.items) }
        ensures memory { IfErr result (λ f. f ≡ CallFault.NoMemory → length self.old.journal.items.items < MAX_ENTRIES) }
    {
        if self.journal.items.len() >= MAX_ENTRIES {
            return Err(CallFault::Full);
        }
        self.journal.make_room()?;
        let event_to_keep = M::copy_event(alloc, event)?;
        let (reply_to_keep, reply) = self.machine.step(alloc, event)?;
        self.journal.items.push_reserved(Entry {
            caller,
            event: event_to_keep,
            reply: reply_to_keep,
        });
        Ok(reply)
    }
}
