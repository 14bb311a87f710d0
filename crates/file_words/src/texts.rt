// Quoted texts in a line.
ghost use Rattle.std.specs.Prelude.{◌≡◌, length, option_map, false, IfOk};
ghost use Rattle.file_words.specs.Texts.{text_step, unquoted, text};

use std::alloc::Global;
use wsm_lists::NoMemory;

/// What a byte of a text is.
#[derive(Clone, Copy, PartialEq, Eq, Debug)]
pub enum TextStep {
    Stands,
    Escapes,
    Ends,
    Wrong,
}

fn text_step(is_escaped: bool, byte: u8, is_last: bool) -> TextStep
    ensures { result ≡ text_step is_escaped byte is_last }
{
    if is_escaped {
        if byte == b'"' || byte == b'\\' {
            TextStep::Stands
        } else {
            TextStep::Wrong
        }
    } else if is_last {
        if byte == b'"' {
            TextStep::Ends
        } else {
            TextStep::Wrong
        }
    } else if byte == b'\\' {
        TextStep::Escapes
    } else if b' ' <= byte && byte != 127 && byte != b'"' {
        TextStep::Stands
    } else {
        TextStep::Wrong
    }
}

fn unquoted(alloc: Global, bytes: &[u8]) -> Result<Option<Vec<u8>>, NoMemory>
    ensures { IfOk result (λ r. option_map (λ v. v.items) r ≡ unquoted false bytes.now) }
{
    let mut all = Vec::new(alloc);
    let mut is_escaped = false;
    let n = bytes.len();
    for i in 0..n {
        match text_step(is_escaped, bytes[i], i + 1 == n) {
            TextStep::Stands => {
                all.push(bytes[i])?;
                is_escaped = false;
            }
            TextStep::Escapes => is_escaped = true,
            TextStep::Ends => return Ok(Some(all)),
            TextStep::Wrong => return Ok(None),
        }
    }
    Ok(None)
}

/// The value of a word that is a text, of any length, without its quotation marks and escapes.
pub fn text(alloc: Global, word: &[u8]) -> Result<Option<Vec<u8>>, NoMemory>
    ensures { IfOk result (λ r. option_map (λ v. v.items) r ≡ text word.now) }
{
    match word {
        [b'"', rest @ ..] => unquoted(alloc, rest),
        _ => Ok(None),
    }
}

fn unquoted_len(bytes: &[u8]) -> Option<usize>
    ensures { result ≡ option_map length (unquoted false bytes.now) }
{
    let mut len = 0;
    let mut is_escaped = false;
    let n = bytes.len();
    for i in 0..n {
        match text_step(is_escaped, bytes[i], i + 1 == n) {
            TextStep::Stands => {
                len += 1;
                is_escaped = false;
            }
            TextStep::Escapes => is_escaped = true,
            TextStep::Ends => return Some(len),
            TextStep::Wrong => return None,
        }
    }
    None
}

/// The length of the value of a word that is a text.
pub(crate) fn text_len(word: &[u8]) -> Option<usize>
    ensures { result ≡ option_map length (text word.now) }
{
    match word {
        [b'"', rest @ ..] => unquoted_len(rest),
        _ => None,
    }
}
