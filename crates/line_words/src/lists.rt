// The words of a line.
ghost use Rattle.std.specs.Prelude.{◌≡◌, OnOk};
ghost use Rattle.file_words.specs.{Shown.shown, Words.words_of};
ghost use Rattle.line_words.specs.Listed.{listed};

use crate::words::first_word;
use arrayvec::ArrayVec;
use file_words::read_words;
use std::alloc::Global;
use wsm_lists::NoMemory;

/// So many words of a line take no memory.
pub const FEW_WORDS: usize = 8;

/// The words of a line, one line after another. Where a line has more than a few they all stand in a list.
#[derive(Drop)]
pub struct LineWords<'a> {
    few: ArrayVec<&'a [u8], FEW_WORDS>,
    many: Vec<&'a [u8]>,
}

impl<'a> LineWords<'a> {
    /// No line's.
    #[inline]
    pub fn new(alloc: Global) -> LineWords<'a> {
        LineWords {
            few: ArrayVec::new(),
            many: Vec::new(alloc),
        }
    }

    /// Those of a line, which stay where they lie.
    #[inline]
    pub fn read(&mut self, line: &'a [u8]) -> Result<(), NoMemory>
        ensures { OnOk result (shown (listed self.new) ≡ words_of line.now) }
    {
        self.few.clear();
        self.many.clear();
        let mut rest = line;
        while let Some((word, more)) = first_word(rest) {
            if self.few.try_push(word).is_err() {
                return read_words(&mut self.many, line);
            }
            rest = more;
        }
        Ok(())
    }

    /// The words one after another.
    #[inline]
    pub fn as_slice(&self) -> &[&'a [u8]]
        ensures { result.now ≡ listed self.now }
    {
        if self.many.is_empty() {
            self.few.as_slice()
        } else {
            self.many.as_slice()
        }
    }
}
