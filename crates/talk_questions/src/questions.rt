// What a line asks for.
ghost use Rattle.std.specs.Prelude.{◌≡◌, option_map, IfOk};
ghost use Rattle.file_words.specs.Shown.{shown, shown_name};
ghost use Rattle.talk_questions.specs.{Questions.{asked, asked_of, plain, question, question_in, short_name}, Shown.shown_question};

use file_limits::MAX_NAME;
use file_words::{NameWord, NoMemory, is_text, without_return, words_of};
use std::alloc::Global;

/// What is asked for. A name is one of at most 64 bytes; whether something of that name was declared is not known here.
#[derive(Drop)]
pub enum Question<'a> {
    /// The report of all that is held.
    Report,
    /// A type's part of the report.
    Type(NameWord<'a>),
    /// A case's part of the report.
    Case(NameWord<'a>),
    /// How each case stands.
    Cases,
    /// How each case of a type stands.
    CasesOf(NameWord<'a>),
    /// What is offered and held in each case.
    Items,
    /// What of it is offered to an actor or held by it.
    ItemsOf(NameWord<'a>),
    /// The types, with how many versions and cases each has.
    Types,
    /// The actors, with their roles.
    Actors,
    /// How many units are held.
    Count,
    /// The last unit, with the entries of its answer.
    Last,
    /// All units.
    Lines,
}

// The one word of a list, where it is a name that is not too long.
fn short_name<'a>(words: &[&'a [u8]]) -> Option<NameWord<'a>>
    ensures { option_map shown_name result ≡ short_name (shown words.now) }
{
    match words {
        [] => None,
        [word, rest @ ..] => {
            if rest.is_empty() && word.len() <= MAX_NAME {
                NameWord::of(*word)
            } else {
                None
            }
        }
    }
}

// A question of one word.
fn plain<'a>(keyword: &[u8]) -> Option<Question<'a>>
    ensures { option_map shown_question result ≡ plain keyword.now }
{
    if keyword == b"report".as_slice() {
        Some(Question::Report)
    } else if keyword == b"cases".as_slice() {
        Some(Question::Cases)
    } else if keyword == b"items".as_slice() {
        Some(Question::Items)
    } else if keyword == b"types".as_slice() {
        Some(Question::Types)
    } else if keyword == b"actors".as_slice() {
        Some(Question::Actors)
    } else if keyword == b"count".as_slice() {
        Some(Question::Count)
    } else if keyword == b"last".as_slice() {
        Some(Question::Last)
    } else if keyword == b"lines".as_slice() {
        Some(Question::Lines)
    } else {
        None
    }
}

// A question with a name behind its word.
fn asked_of<'a>(keyword: &[u8], words: &[&'a [u8]]) -> Option<Question<'a>>
    ensures { option_map shown_question result ≡ asked_of keyword.now (shown words.now) }
{
    if keyword == b"type".as_slice() {
        Some(Question::Type(short_name(words)?))
    } else if keyword == b"case".as_slice() {
        Some(Question::Case(short_name(words)?))
    } else if keyword == b"cases".as_slice() {
        Some(Question::CasesOf(short_name(words)?))
    } else if keyword == b"items".as_slice() {
        Some(Question::ItemsOf(short_name(words)?))
    } else {
        None
    }
}

// What the words behind a question mark ask for.
fn asked<'a>(words: &[&'a [u8]]) -> Option<Question<'a>>
    ensures { option_map shown_question result ≡ asked (shown words.now) }
{
    match words {
        [] => None,
        [keyword, rest @ ..] => {
            if rest.is_empty() {
                plain(*keyword)
            } else {
                asked_of(*keyword, rest)
            }
        }
    }
}

// What the words of a line ask for.
fn asked_in<'a>(words: &[&'a [u8]]) -> Option<Question<'a>>
    ensures { option_map shown_question result ≡ question (shown words.now) }
{
    match words {
        [] => None,
        [mark, rest @ ..] => {
            if *mark == b"?".as_slice() {
                asked(rest)
            } else {
                None
            }
        }
    }
}

/// What a line asks for. None where that has no form: other words, a name that is too long, bytes that are no text.
pub fn question_in<'a>(alloc: Global, line: &'a [u8]) -> Result<Option<Question<'a>>, NoMemory>
    ensures { IfOk result (λ found. option_map shown_question found ≡ question_in line.now) }
{
    if !is_text(line) {
        return Ok(None);
    }
    let words = words_of(alloc, without_return(line))?;
    Ok(asked_in(&words))
}
