// What a question tries: what is held is as before.
ghost use Rattle.std.specs.Prelude.{◌≡◌, ◌+◌, ◌≤◌, ◌^◌, ◌++◌, List, ℕ, length, OnOk};
ghost use Rattle.talk_questions.specs.{Shown.shown_trial, Trials.{IsShort, install_unit, migrate_unit}};
ghost use Rattle.talk_state.specs.{Answers.{answer_tried, move_answer, what_if}, States.Holds};

use crate::answers::{Answer, add_answer};
use crate::states::TalkState;
use crate::taking::has_room;
use crate::telling::tell_refused;
use crate::trying::{put_move, put_unit};
use adept_io::NoMemory;
use std::alloc::{AllocError, Global};
use talk_questions::{Trial, install_unit, migrate_unit};

impl TalkState {
    // Puts the answer to what is tried behind a text.
    pub(crate) fn answer_trial(
        &mut self,
        alloc: Global,
        trial: Trial<'_>,
        text: &mut Vec<u8>,
    ) -> Result<(), NoMemory>
        requires short { IsShort (2 ^ 23) (shown_trial trial) }
        ensures holds { (units : List (List ℕ)) → Holds units self.old → OnOk result (Holds units self.new) }
        ensures answer { (units : List (List ℕ)) → Holds units self.old → OnOk result (text.new.items ≡ text.old.items ++ answer_tried units (shown_trial trial.entry)) }
    {
        match trial {
            Trial::Unit(unit) => self.try_unit(alloc, unit, text),
            Trial::Move(actor, kind, lines) => {
                let install = install_unit(alloc, actor, kind, lines)?;
                let migrate = migrate_unit(alloc, actor, kind)?;
                self.try_move(alloc, &install, &migrate, text)
            }
            Trial::NoForm => tell_refused(alloc, text, 1, b"form"),
            Trial::NoText => tell_refused(alloc, text, 1, b"not-text"),
        }
    }

    // Puts behind a text what the answer to a unit would be, with how many units are held now.
    fn try_unit(&mut self, alloc: Global, unit: &[u8], text: &mut Vec<u8>) -> Result<(), NoMemory>
        requires short { length unit.now ≤ 2 ^ 23 }
        ensures holds { (units : List (List ℕ)) → Holds units self.old → OnOk result (Holds units self.new) }
        ensures answer { (units : List (List ℕ)) → Holds units self.old → OnOk result (text.new.items ≡ text.old.items ++ what_if units unit.now) }
    {
        if !self.is_whole {
            return Err(AllocError);
        }
        let has_room = has_room(self.long, unit.len());
        let mut answer = Answer::new(alloc);
        self.is_whole = false;
        let (file, run) = (&mut self.file, &mut self.run);
        let ok = put_unit(&mut answer, alloc, file, run, unit, has_room, self.count)?;
        self.is_whole = true;
        add_answer(alloc, answer, ok, text)
    }

    // Puts behind a text what the answer to an install would be, and the entries that a migrate would get behind it.
    fn try_move(
        &mut self,
        alloc: Global,
        install: &[u8],
        migrate: &[u8],
        text: &mut Vec<u8>,
    ) -> Result<(), NoMemory>
        requires short { length install.now + length migrate.now ≤ 2 ^ 26 }
        ensures holds { (units : List (List ℕ)) → Holds units self.old → OnOk result (Holds units self.new) }
        ensures answer { (units : List (List ℕ)) → Holds units self.old → OnOk result (text.new.items ≡ text.old.items ++ move_answer units install.now migrate.now) }
    {
        if !self.is_whole {
            return Err(AllocError);
        }
        let mut answer = Answer::new(alloc);
        self.is_whole = false;
        let (file, run) = (&mut self.file, &mut self.run);
        let ok = put_move(&mut answer, alloc, file, run, install, migrate, self.count)?;
        self.is_whole = true;
        add_answer(alloc, answer, ok, text)
    }
}
