// Names and texts that are too long.
ghost use Rattle.std.specs.Prelude.{◌≡◌};
ghost use Rattle.file_words.specs.{Texts.text, Lengths.{has_long_text, long, first_long}, Shown.shown};

use crate::pairs::parts_at_equals;
use crate::texts::text_len;
use file_limits::{MAX_NAME, MAX_TEXT};

/// What is too long: a name of more than 64 bytes, or a text of more than 256.
#[derive(Clone, Copy, PartialEq, Eq, Debug)]
pub enum TooLong {
    Name,
    Text,
}

fn has_long_text(word: &[u8]) -> bool
    ensures { result ≡ has_long_text (text word.now) }
{
    match text_len(word) {
        None => false,
        Some(len) => len > MAX_TEXT,
    }
}

/// What a word has that is too long: nothing, where it is no longer than a name may be, since its parts are shorter.
fn long(word: &[u8]) -> Option<TooLong>
    ensures { result ≡ long word.now }
{
    if word.len() <= MAX_NAME {
        return None;
    }
    let (name, value) = parts_at_equals(word).unwrap_or((word, b""));
    if name.len() > MAX_NAME {
        Some(TooLong::Name)
    } else if has_long_text(value) {
        Some(TooLong::Text)
    } else {
        None
    }
}

/// What the first word has that has something too long, in a line whose form is right.
pub fn first_long(words: &[&[u8]]) -> Option<TooLong>
    ensures { result ≡ first_long (shown words.now) }
{
    for word in words {
        let found = long(*word);
        if found.is_some() {
            return found;
        }
    }
    None
}
