// Questions of what is held.
ghost use Rattle.std.specs.Prelude.{◌≡◌, ◌≤◌, ◌^◌, ◌++◌, List, ℕ, length, OnOk, true};
ghost use Rattle.adept_io.specs.Written.{Gives};
ghost use Rattle.file_model.specs.Reading.{file_of};
ghost use Rattle.talk_answers.specs.Lines.{ok_line};
ghost use Rattle.talk_questions.specs.Shown.{shown_question};
ghost use Rattle.talk_state.specs.{Answers.{case_part, entries_of, line_answer, question_answer, type_part, within}, States.Holds, Telling.{known_in, told}};

use crate::answers::{Answer, add_answer};
use crate::states::TalkState;
use crate::telling::tell_refused;
use adept_io::{NoMemory, Sink};
use report_text::{put_case, put_kind};
use std::alloc::{AllocError, Global};
use talk_answers::{
    put_actors, put_all_items, put_all_standings, put_entries, put_items_for, put_ok, put_quoted,
    put_report, put_standings_of, put_types,
};
use talk_questions::{Question, asking_in, question_in, trial_in};

// What is asked for, behind the names that are known.
#[derive(Clone, Copy)]
pub(crate) enum Asked {
    Report,
    Type(u32),
    Case(u32),
    Cases,
    CasesOf(u32),
    Items,
    ItemsOf(u32),
    Types,
    Actors,
    Count,
    Last,
    Lines,
}

impl TalkState {
    // Puts the answer to a question behind a text. What is held is as before.
    pub(crate) fn answer(
        &mut self,
        alloc: Global,
        item: &[u8],
        text: &mut Vec<u8>,
    ) -> Result<(), NoMemory>
        requires short { length item.now ≤ 2 ^ 23 }
        ensures holds { (units : List (List ℕ)) → Holds units self.old → OnOk result (Holds units self.new) }
        ensures answer { (units : List (List ℕ)) → Holds units self.old → OnOk result (text.new.items ≡ text.old.items ++ question_answer units item.now) }
    {
        let Some(question) = asking_in(alloc, item)? else {
            return tell_refused(alloc, text, 1, b"form");
        };
        match trial_in(alloc, question)? {
            None => self.answer_line(alloc, question.line, text),
            Some(trial) => self.answer_trial(alloc, trial, text),
        }
    }

    // Puts behind a text the answer to a question that asks for what is held, by its line.
    fn answer_line(&self, alloc: Global, line: &[u8], text: &mut Vec<u8>) -> Result<(), NoMemory>
        ensures { (units : List (List ℕ)) → Holds units self.now → OnOk result (text.new.items ≡ text.old.items ++ line_answer units line.now) }
    {
        if !self.is_whole {
            return Err(AllocError);
        }
        let Some(question) = question_in(alloc, line)? else {
            return tell_refused(alloc, text, 1, b"form");
        };
        match self.known(question) {
            None => tell_refused(alloc, text, 1, b"unknown"),
            Some(asked) => self.tell(alloc, asked, text),
        }
    }

    // What is asked for, unless a name is not one of those declared.
    fn known(&self, question: Question<'_>) -> Option<Asked>
        ensures { result ≡ known_in self.now.contents (shown_question question.entry) }
    {
        match question {
            Question::Report => Some(Asked::Report),
            Question::Type(name) => Some(Asked::Type(self.file.type_of(name)?)),
            Question::Case(name) => Some(Asked::Case(self.file.case_of(name)?)),
            Question::Cases => Some(Asked::Cases),
            Question::CasesOf(name) => Some(Asked::CasesOf(self.file.type_of(name)?)),
            Question::Items => Some(Asked::Items),
            Question::ItemsOf(name) => Some(Asked::ItemsOf(self.file.actor_of(name)?)),
            Question::Types => Some(Asked::Types),
            Question::Actors => Some(Asked::Actors),
            Question::Count => Some(Asked::Count),
            Question::Last => Some(Asked::Last),
            Question::Lines => Some(Asked::Lines),
        }
    }

    // Puts what is asked for behind a text, with how many units are held.
    fn tell(&self, alloc: Global, asked: Asked, text: &mut Vec<u8>) -> Result<(), NoMemory>
        requires { self.now.whole ≡ true }
        ensures { OnOk result (text.new.items ≡ text.old.items ++ within (told self.now asked ++ ok_line self.now.count)) }
    {
        let mut answer = Answer::new(alloc);
        let ok = self.put(&mut answer, true, asked);
        let ok = put_ok(&mut answer, ok, self.count);
        add_answer(alloc, answer, ok, text)
    }

    // The lines of an answer but for its last.
    fn put<K: Sink>(&self, sink: &mut K, ok: bool, asked: Asked) -> bool
        requires { self.now.whole ≡ true }
        ensures { Gives K.written K.faults ok result sink.old sink.new (told self.now asked) }
    {
        let file = self.file.file();
        let run = &self.run;
        match asked {
            Asked::Report => put_report(sink, ok, file, run),
            Asked::Type(type_no) => self.put_type_part(sink, ok, type_no),
            Asked::Case(place) => self.put_case_part(sink, ok, place),
            Asked::Cases => put_all_standings(sink, ok, file, run),
            Asked::CasesOf(type_no) => put_standings_of(sink, ok, file, run, type_no),
            Asked::Items => put_all_items(sink, ok, file, run),
            Asked::ItemsOf(actor) => put_items_for(sink, ok, file, run, actor),
            Asked::Types => put_types(sink, ok, file, run),
            Asked::Actors => put_actors(sink, ok, file),
            Asked::Count => ok,
            Asked::Last => self.put_last(sink, ok),
            Asked::Lines => put_quoted(sink, ok, &self.units),
        }
    }

    // A type's part of the report.
    fn put_type_part<K: Sink>(&self, sink: &mut K, ok: bool, type_no: u32) -> bool
        ensures { Gives K.written K.faults ok result sink.old sink.new (type_part (file_of self.now.contents) self.now.placing.run type_no) }
    {
        let file = self.file.file();
        let index = type_no as usize;
        match (
            file.types.as_slice().get(index),
            self.run.kinds().get(index),
        ) {
            (Some(decl), Some(kind)) => put_kind(sink, ok, file, decl, kind),
            _ => ok,
        }
    }

    // A case's part of the report.
    fn put_case_part<K: Sink>(&self, sink: &mut K, ok: bool, place: u32) -> bool
        ensures { Gives K.written K.faults ok result sink.old sink.new (case_part (file_of self.now.contents) self.now.placing.run place) }
    {
        let file = self.file.file();
        let index = place as usize;
        match (
            file.cases.as_slice().get(index),
            self.run.cases().get(index),
        ) {
            (Some(decl), Some(case)) => put_case(sink, ok, file, decl, case),
            _ => ok,
        }
    }

    // The last unit, with the entries of its answer.
    fn put_last<K: Sink>(&self, sink: &mut K, ok: bool) -> bool
        ensures { Gives K.written K.faults ok result sink.old sink.new (told self.now Asked.Last) }
    {
        let units = self.units.as_slice();
        let ok = put_quoted(sink, ok, &units[self.last.min(units.len())..]);
        self.put_called(sink, ok)
    }

    // The entries of the last unit's calls.
    pub(crate) fn put_called<K: Sink>(&self, sink: &mut K, ok: bool) -> bool
        ensures { Gives K.written K.faults ok result sink.old sink.new (entries_of (file_of self.now.contents) self.now.placing self.now.called) }
    {
        match self.called {
            None => ok,
            Some(cells) => put_entries(sink, ok, self.file.file(), &self.run, cells),
        }
    }
}
