// Whose turn it is: the calls that the actors have yet to make in one phase.
ghost use Rattle.std.specs.{Prelude.{◌≡◌, ◌≤◌, length, IfOk, IfSome, OnOk}, Option.option_map};
ghost use Rattle.case_audit.specs.Common.{all_turns, AllRows, asked_in, asked_of, caller_in, front_of, IsModest, next_of, no_queues, one_taken, queue_of, queues_of, shown_of, with_turn};

use crate::asked::AskedLine;
use crate::callers::caller_in;
use file_model::File;
use std::alloc::Global;
use std::collections::VecDeque;
use wsm_lists::NoMemory;

/// Lines that call one type or one case in one phase, each actor's in their order.
#[derive(Drop)]
pub struct Turns<'a> {
    // by the actor's number
    by_actor: Vec<VecDeque<AskedLine<'a>>>,
}

impl<'a> Turns<'a> {
    /// The lines of a phase, of so many actors.
    pub fn of(alloc: Global, actors: usize, calls: &[AskedLine<'a>]) -> Result<Turns<'a>, NoMemory>
        ensures { IfOk result (λ turns. queues_of turns ≡ all_turns actors (asked_in calls.now)) }
    {
        let mut turns = Turns::none(alloc, actors)?;
        for call in calls {
            turns.add(*call)?;
        }
        Ok(turns)
    }

    // Room for so many actors, numbered from 1.
    fn none(alloc: Global, actors: usize) -> Result<Turns<'a>, NoMemory>
        ensures { IfOk result (λ turns. queues_of turns ≡ no_queues actors) }
    {
        let mut by_actor = Vec::new(alloc);
        by_actor.push(VecDeque::new(alloc))?;
        for _made in 0..actors {
            by_actor.push(VecDeque::new(alloc))?;
        }
        Ok(Turns { by_actor })
    }

    fn add(&mut self, call: AskedLine<'a>) -> Result<(), NoMemory>
        ensures { OnOk result (queues_of self.new ≡ with_turn (queues_of self.old) (asked_of call.entry)) }
    {
        match self.by_actor.get_mut(call.line.actor as usize) {
            None => Ok(()),
            Some(calls) => {
                calls.push_back(call)?;
                Ok(())
            }
        }
    }

    /// Whose next line a text shows as the call with this number, and the line, which is taken away.
    pub fn shown(&mut self, file: &File, place: u64, text: &[u8]) -> Option<(u32, AskedLine<'a>)>
        requires { length file.now.actors ≤ 32 }
        ensures next { option_map shown_of result ≡ next_of (queues_of self.old) (caller_in file.now place text.now) }
        ensures others { IfSome result (λ p. queues_of self.new ≡ one_taken p.0 (queues_of self.old)) }
        ensures modest { AllRows (AllRows IsModest) (queues_of self.old) → AllRows (AllRows IsModest) (queues_of self.new) }
    {
        let caller = caller_in(file, place, text)?;
        let call = self.next(caller)?;
        Some((caller, call))
    }

    // The next line of an actor, which is taken away.
    fn next(&mut self, actor: u32) -> Option<AskedLine<'a>>
        ensures next { option_map asked_of result ≡ front_of (queue_of (queues_of self.old) actor) }
        ensures others { queues_of self.new ≡ one_taken actor (queues_of self.old) }
    {
        self.by_actor.get_mut(actor as usize)?.pop_front()
    }
}
