// A line that is read byte by byte.
ghost use Rattle.std.specs.Prelude.{◌≡◌, ◌==◌, ◌∷◌, ◌++◌, [], length};
ghost use Rattle.talk_items.specs.{Fronts.TellAll, Items.words};

use crate::front::front_words;
use crate::keywords::Keyword;
use crate::limits::WORDS;
use crate::words::Words;
use arrayvec::ArrayVec;
use file_words::without_return;
use std::marker::Model;
use std::mem::replace;

// The bytes of a line so far. A carriage return at its end is no part of its words, unless more bytes come.
#[derive(Drop)]
pub(crate) struct Line {
    words: Words,
    returned: bool,
    some: bool,
}

impl Model for Line {
    ghost use Rattle.std.specs.Prelude.{◌≡◌, ◌∷◌, ◌++◌, [], ℕ, List, false, not, length, ◌==◌, ◌||◌, if◌then◌else◌};
    ghost use Rattle.file_words.specs.Lines.{without_return};

    ghost Value = { List ℕ };

    ghost view = { λ a. if a.returned then a.words ++ 13 ∷ [] else a.words };

    ghost invariant = { λ a. (a.returned ≡ false → without_return a.words ≡ a.words) × (a.some ≡ (a.returned || not (length a.words == 0))) };
}

impl Line {
    // A line without bytes.
    pub(crate) fn new() -> Line
        ensures { result ≡ [] }
    {
        Line {
            words: Words::new(),
            returned: false,
            some: false,
        }
    }

    // More bytes.
    pub(crate) fn extend(&mut self, bytes: &[u8])
        ensures { self.new ≡ self.old ++ bytes.now }
    {
        for byte in bytes {
            self.push(*byte);
        }
    }

    // The rest of the line, behind which another begins. Answers what as many of its words are as tell what the line is.
    pub(crate) fn end(&mut self, rest: &[u8]) -> ArrayVec<Keyword, WORDS>
        ensures words { TellAll result.items (words (self.old ++ rest.now)) }
        ensures next { self.new ≡ [] }
    {
        if self.is_empty() {
            return front_words(without_return(rest));
        }
        let mut line = replace(self, Line::new());
        line.extend(rest);
        line.into_first()
    }

    // One byte more.
    fn push(&mut self, byte: u8)
        ensures { self.new ≡ self.old ++ byte ∷ [] }
    {
        if self.returned {
            self.words.push(b'\r');
        }
        self.some = true;
        self.returned = byte == b'\r';
        if !self.returned {
            self.words.push(byte);
        }
    }

    // Whether there is no byte.
    pub(crate) fn is_empty(&self) -> bool
        ensures { result ≡ (length self.now == 0) }
    {
        !self.some
    }

    // What the first words of the line are.
    fn into_first(self) -> ArrayVec<Keyword, WORDS>
        ensures { TellAll result.items (words self) }
    {
        let Line {
            words,
            returned: _,
            some: _,
        } = self;
        words.into_first()
    }
}
