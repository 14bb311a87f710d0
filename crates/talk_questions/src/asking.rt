// The bytes of a question.
ghost use Rattle.std.specs.Prelude.{◌≡◌, ◌≤◌, length, drop, option_map, IfOk, IfSome};
ghost use Rattle.talk_questions.specs.{Shown.shown_asking, Trials.{IsWithin, asking, from_word}};

use file_words::{NoMemory, first_line, is_skipped, read_words, without_return};
use std::alloc::Global;

/// The bytes of a question: all of them from the line on that asks, that line, and what stands behind its line feed.
#[derive(Clone, Copy)]
pub struct Asking<'a> {
    pub bytes: &'a [u8],
    pub line: &'a [u8],
    pub more: &'a [u8],
}

/// The first line of an item that says something, with what stands behind it. None where no line does.
pub fn asking_in<'a>(alloc: Global, item: &'a [u8]) -> Result<Option<Asking<'a>>, NoMemory>
    ensures asking { IfOk result (λ found. option_map shown_asking found ≡ asking item.now) }
    ensures short { IfOk result (λ found. IfSome found (λ q. IsWithin (length item.now) (shown_asking q))) }
{
    let mut words = Vec::new(alloc);
    let mut rest = item;
    while let Some((line, more)) = first_line(rest) {
        read_words(&mut words, without_return(line))?;
        if !is_skipped(&words) {
            return Ok(Some(Asking {
                bytes: rest,
                line,
                more,
            }));
        }
        rest = more;
    }
    Ok(None)
}

// The bytes without the blanks at their front.
fn from_word(bytes: &[u8]) -> &[u8]
    ensures word { result.now ≡ from_word bytes.now }
    ensures short { length result.now ≤ length bytes.now }
{
    let mut rest = bytes;
    while let [b' ' | b'\t', more @ ..] = rest {
        rest = more;
    }
    rest
}

/// The bytes behind the first word, which has so many bytes.
pub(crate) fn behind_word(bytes: &[u8], len: usize) -> &[u8]
    ensures behind { result.now ≡ drop len (from_word bytes.now) }
    ensures short { length result.now ≤ length bytes.now }
{
    let word = from_word(bytes);
    &word[len.min(word.len())..]
}
