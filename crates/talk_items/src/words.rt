// The first words of a line that is read byte by byte.
ghost use Rattle.std.specs.Prelude.{◌≡◌, ◌∷◌, ◌++◌, [], ℕ, List, filter};
ghost use Rattle.file_words.specs.Words.{is_word, words_of};
ghost use Rattle.line_words.specs.Standing.{quoted};
ghost use Rattle.talk_items.specs.Cuts.{Cut, IsKept, cut_more, first_letters, first_words};

use crate::keywords::{Keyword, keyword_of};
use crate::limits::{LETTERS, WORDS};
use arrayvec::ArrayVec;
use http_server::Log;
use line_words::{Stand, behind, cuts};
use std::marker::Model;

// One word more, where there is room.
fn add(words: &mut ArrayVec<Keyword, WORDS>, word: &[u8])
    ensures { (ws : List (List ℕ)) (w : List ℕ) → words.old.items ≡ first_words ws → word.now ≡ first_letters w → words.new.items ≡ first_words (ws ++ filter is_word (w ∷ [])) }
{
    if word.is_empty() {
        return;
    }
    let _ = words.try_push(keyword_of(word));
}

// One byte more of a line, of which the words so far and the one that goes on are kept.
fn put(
    words: &mut ArrayVec<Keyword, WORDS>,
    word: &mut ArrayVec<u8, LETTERS>,
    stand: Stand,
    byte: u8,
)
    ensures { (c : Cut) → words.old.items ≡ first_words c.words → word.old.items ≡ first_letters c.word → quoted stand ≡ c.quote → IsKept (cut_more c byte) words.new.items word.new.items }
{
    if cuts(stand, byte) {
        add(words, word.as_slice());
        word.clear();
        return;
    }
    let _ = word.try_push(byte);
}

// The words of a line so far: what the first of them are.
#[derive(Drop)]
pub(crate) struct Words {
    words: ArrayVec<Keyword, WORDS>,
    word: ArrayVec<u8, LETTERS>,
    stand: Stand,
    bytes: Log<u8, u8>,
}

impl Model for Words {
    ghost use Rattle.std.specs.Prelude.{◌≡◌, ℕ, List, map};
    ghost use Rattle.line_words.specs.Standing.{quoted};
    ghost use Rattle.talk_items.specs.Cuts.{cut, first_letters, first_words};

    ghost Value = { List ℕ };

    ghost view = { λ a. map (λ p. p.0) a.bytes.items };

    ghost invariant = { λ a. let c = cut (map (λ p. p.0) a.bytes.items) in (a.words.items ≡ first_words c.words) × (a.word.items ≡ first_letters c.word) × (quoted a.stand ≡ c.quote) };
}

impl Words {
    // A line without bytes.
    pub(crate) fn new() -> Words
        ensures { result ≡ [] }
    {
        Words {
            words: ArrayVec::new(),
            word: ArrayVec::new(),
            stand: Stand::Outside,
            bytes: Log::new(),
        }
    }

    // One byte more.
    pub(crate) fn push(&mut self, byte: u8)
        ensures { self.new ≡ self.old ++ byte ∷ [] }
    {
        put(&mut self.words, &mut self.word, self.stand, byte);
        self.stand = behind(self.stand, byte);
        self.bytes = self.bytes.and(&byte, &byte);
    }

    // What the first words of the line are.
    pub(crate) fn into_first(self) -> ArrayVec<Keyword, WORDS>
        ensures { result.items ≡ first_words (words_of self) }
    {
        let Words {
            mut words,
            word,
            stand: _,
            bytes: _,
        } = self;
        add(&mut words, word.as_slice());
        words
    }
}
