// What is put behind a text.
ghost use Rattle.std.specs.Prelude.{◌≡◌, ◌++◌, OnOk, true};
ghost use Rattle.file_model.specs.Reading.{file_of};
ghost use Rattle.talk_answers.specs.Lines.{no_line, ok_line};
ghost use Rattle.talk_state.specs.Answers.{entries_of};

use crate::states::TalkState;
use crate::texts::TextSink;
use adept_io::NoMemory;
use std::alloc::{AllocError, Global};
use std::mem::replace;
use talk_answers::{put_no, put_ok};

// The text is what the sink has taken, where all went well.
fn take_back(text: &mut Vec<u8>, told: TextSink, ok: bool) -> Result<(), NoMemory>
    ensures { OnOk result ((ok ≡ true) × (text.new.items ≡ told.bytes)) }
{
    *text = told.into_text();
    if ok { Ok(()) } else { Err(AllocError) }
}

// Puts a refusal of a line behind a text.
pub(crate) fn tell_refused(
    alloc: Global,
    text: &mut Vec<u8>,
    line: u64,
    why: &[u8],
) -> Result<(), NoMemory>
    ensures { OnOk result (text.new.items ≡ text.old.items ++ no_line line why.now) }
{
    let mut told = TextSink::behind(replace(text, Vec::new(alloc)));
    let ok = put_no(&mut told, true, line, why);
    take_back(text, told, ok)
}

// Puts behind a text that all is well.
pub(crate) fn tell_well(alloc: Global, text: &mut Vec<u8>, count: u64) -> Result<(), NoMemory>
    ensures { OnOk result (text.new.items ≡ text.old.items ++ ok_line count) }
{
    let mut told = TextSink::behind(replace(text, Vec::new(alloc)));
    let ok = put_ok(&mut told, true, count);
    take_back(text, told, ok)
}

impl TalkState {
    // Puts behind a text the entries of the last unit's calls, and how many units are held.
    pub(crate) fn tell_taken(&self, alloc: Global, text: &mut Vec<u8>) -> Result<(), NoMemory>
        ensures { OnOk result (text.new.items ≡ text.old.items ++ (entries_of (file_of self.now.contents) self.now.placing self.now.called ++ ok_line self.now.count)) }
    {
        let mut told = TextSink::behind(replace(text, Vec::new(alloc)));
        let ok = self.put_called(&mut told, true);
        let ok = put_ok(&mut told, ok, self.count);
        take_back(text, told, ok)
    }
}
