// The words at the front of a whole line.
ghost use Rattle.std.specs.Prelude.{◌≡◌, map};
ghost use Rattle.file_words.specs.Words.{words_of};
ghost use Rattle.talk_items.specs.{Fronts.{TellAll, tell_enough}, Keywords.keyword};

use crate::keywords::{Keyword, keyword_of};
use crate::limits::WORDS;
use arrayvec::ArrayVec;
use line_words::first_word;

// Whether so many words of a line tell what it is: the first of a comment, a type or a declaration, four behind `?` or
// `adept`, and two of any other line.
fn tell_enough(words: &[Keyword]) -> bool
    ensures { result ≡ tell_enough words.now }
{
    match words {
        [Keyword::Comment | Keyword::Type | Keyword::Declaration, ..] => true,
        [Keyword::Question | Keyword::Adept, rest @ ..] => rest.len() == WORDS - 1,
        [_, _, ..] => true,
        _ => false,
    }
}

// What as many words of a line are as tell what it is.
pub(crate) fn front_words(line: &[u8]) -> ArrayVec<Keyword, WORDS>
    ensures { TellAll result.items (map keyword (words_of line.now)) }
{
    let mut words = ArrayVec::new();
    let mut rest = line;
    while let Some((word, more)) = first_word(rest) {
        words.push(keyword_of(word));
        if tell_enough(words.as_slice()) {
            return words;
        }
        rest = more;
    }
    words
}
