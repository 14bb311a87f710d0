// The answer to a question while it is written.
ghost use Rattle.std.specs.Prelude.{◌≡◌, ◌++◌, [], true, map, option_map, OnOk};
ghost use Rattle.talk_state.specs.{Answering.if_fits, Answers.within};

use crate::limits::MAX_ANSWER;
use crate::telling::tell_refused;
use adept_io::{Failed, NoMemory, Sink};
use http_server::Log;
use std::alloc::{AllocError, Global};
use std::marker::Model;

// An answer, as a sink. It takes all that is put, and keeps nothing of it once there are more bytes than an answer may have.
#[derive(Drop)]
pub(crate) struct Answer {
    text: Vec<u8>,
    is_over: bool,
    faults: u64,
    // What was put, which is there for proofs alone and takes no memory.
    put: Log<u8, ()>,
}

impl Model for Answer {
    ghost use Rattle.std.specs.Prelude.{map};
    ghost use Rattle.talk_state.specs.Answering.{Answering, IsKept};

    ghost Value = { Answering };

    ghost view = { λ a. record { put = map (λ e. e.0) a.put.items; faults = a.faults } };

    ghost invariant = { λ a. IsKept a.text.items (map (λ e. e.0) a.put.items) a.is_over };
}

impl Answer {
    // An answer without bytes. Takes no memory.
    pub(crate) fn new(alloc: Global) -> Answer
        ensures { result ≡ record { put = []; faults = 0 } }
    {
        Answer {
            text: Vec::new(alloc),
            is_over: false,
            faults: 0,
            put: Log::new(),
        }
    }

    // What was put, unless it has more bytes than an answer may have.
    pub(crate) fn into_text(self) -> Option<Vec<u8>>
        ensures { option_map (λ v. v.items) result ≡ if_fits self.put }
    {
        if self.is_over { None } else { Some(self.text) }
    }
}

// Puts an answer behind a text, where all of it was put; one that is too long is refused.
pub(crate) fn add_answer(
    alloc: Global,
    answer: Answer,
    ok: bool,
    text: &mut Vec<u8>,
) -> Result<(), NoMemory>
    ensures { OnOk result ((ok ≡ true) × (text.new.items ≡ text.old.items ++ within answer.put)) }
{
    if !ok {
        return Err(AllocError);
    }
    match answer.into_text() {
        None => tell_refused(alloc, text, 1, b"limit bytes"),
        Some(answer) => {
            text.extend_from_slice(&answer)?;
            Ok(())
        }
    }
}

// Notes what was put. It does nothing.
fn note(put: &mut Log<u8, ()>, bytes: &[u8])
    ensures { map (λ e. e.0) put.new.items ≡ map (λ e. e.0) put.old.items ++ bytes.now }
{
    for byte in bytes {
        *put = put.and(byte, &());
    }
}

impl Sink for Answer {
    ghost use Rattle.std.specs.Prelude.{Some};

    ghost written = { λ a. Some a.put };

    ghost faults = { λ a. a.faults };

    // All of the bytes, unless there is not enough memory for them.
    fn write(&mut self, bytes: &[u8]) -> Result<usize, Failed> {
        if self.is_over || bytes.len() > MAX_ANSWER - self.text.len() {
            self.is_over = true;
            self.text.clear();
        } else if self.text.extend_from_slice(bytes).is_err() {
            self.faults = self.faults.saturating_add(1);
            return Err(Failed);
        }
        note(&mut self.put, bytes);
        Ok(bytes.len())
    }
}
