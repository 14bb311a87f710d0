// What is held, as a talk is over it.
use crate::states::TalkState;
use crate::telling::{tell_refused, tell_well};
use adept_io::NoMemory;
use file_units::UnitRefusal;
use std::alloc::{AllocError, Global};
use talk_rules::Holder;

impl Holder for TalkState {
    ghost use Rattle.talk_state.specs.Answers.{held_rules};
    ghost use Rattle.talk_state.specs.States.{Holds};

    ghost rules = { held_rules };

    ghost holds = { λ state units. Holds units state };

    /// No units.
    fn new(alloc: Global) -> Result<TalkState, NoMemory> {
        TalkState::nothing(alloc)
    }

    /// Takes a unit behind the others, and makes its calls. Where it is refused all is as before.
    fn take_unit(&mut self, alloc: Global, unit: &[u8]) -> Result<bool, NoMemory> {
        match self.take(alloc, unit) {
            Ok(()) => Ok(true),
            Err(UnitRefusal::Refused(_)) | Err(UnitRefusal::Full) => Ok(false),
            Err(UnitRefusal::NoMemory) => Err(AllocError),
        }
    }

    /// Takes a unit in the same way, and puts its answer behind a text.
    fn answer_unit(
        &mut self,
        alloc: Global,
        unit: &[u8],
        text: &mut Vec<u8>,
    ) -> Result<bool, NoMemory> {
        match self.take(alloc, unit) {
            Ok(()) => {
                self.tell_taken(alloc, text)?;
                Ok(true)
            }
            Err(UnitRefusal::Refused(refused)) => {
                let line = u64::from(refused.line);
                tell_refused(alloc, text, line, refused.text.as_slice())?;
                Ok(false)
            }
            Err(UnitRefusal::Full) => {
                text.extend_from_slice(b"no full\n")?;
                Ok(false)
            }
            Err(UnitRefusal::NoMemory) => Err(AllocError),
        }
    }

    /// Puts the answer to a question behind a text. What is held is as before.
    fn answer_question(
        &mut self,
        alloc: Global,
        question: &[u8],
        text: &mut Vec<u8>,
    ) -> Result<(), NoMemory> {
        self.answer(alloc, question, text)
    }

    /// Puts behind a text that all is well, and how many units are held.
    fn answer_well(&self, alloc: Global, text: &mut Vec<u8>) -> Result<(), NoMemory> {
        tell_well(alloc, text, self.count)
    }

    /// Puts behind a text that a line is refused, and why.
    fn refuse(
        &self,
        alloc: Global,
        line: u64,
        why: &[u8],
        text: &mut Vec<u8>,
    ) -> Result<(), NoMemory> {
        tell_refused(alloc, text, line, why)
    }
}
