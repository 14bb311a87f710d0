// Pairs of an element's name and a value in a line.
ghost use Rattle.std.specs.Prelude.{◌≡◌, option_map, IfOk};
ghost use Rattle.file_words.specs.{Pairs.{word_value, parts_at_equals, pair}, Shown.{shown_parts, shown_literal, shown_pair}};

use crate::names::NameWord;
use crate::numbers::integer;
use crate::texts::text;
use std::alloc::Global;
use wsm_lists::NoMemory;

/// A value as a file gives it: its text may have any length.
#[derive(Drop)]
pub enum Literal {
    Int(i64),
    Text(Vec<u8>),
}

/// The value of a word that is an integer or a text.
fn word_value(alloc: Global, word: &[u8]) -> Result<Option<Literal>, NoMemory>
    ensures { IfOk result (λ r. option_map shown_literal r ≡ word_value word.now) }
{
    match integer(word) {
        Some(n) => Ok(Some(Literal::Int(n))),
        None => match text(alloc, word)? {
            Some(bytes) => Ok(Some(Literal::Text(bytes))),
            None => Ok(None),
        },
    }
}

/// What stands before and behind the first `=`.
pub(crate) fn parts_at_equals(word: &[u8]) -> Option<(&[u8], &[u8])>
    ensures { option_map shown_parts result ≡ parts_at_equals word.now }
{
    let mut i = 0;
    while i < word.len() {
        let (front, rest) = word.split_at(i);
        match rest {
            [] => return None,
            [byte, more @ ..] => {
                if *byte == b'=' {
                    return Some((front, more));
                }
            }
        }
        i += 1;
    }
    None
}

/// The name and the value of a word that is a pair.
pub fn pair<'a>(alloc: Global, word: &'a [u8]) -> Result<Option<(NameWord<'a>, Literal)>, NoMemory>
    ensures { IfOk result (λ r. option_map shown_pair r ≡ pair word.now) }
{
    match parts_at_equals(word) {
        None => Ok(None),
        Some((front, behind)) => match NameWord::of(front) {
            None => Ok(None),
            Some(name) => match word_value(alloc, behind)? {
                None => Ok(None),
                Some(value) => Ok(Some((name, value))),
            },
        },
    }
}
