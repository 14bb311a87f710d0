// What a question tries.
ghost use Rattle.std.specs.Prelude.{◌≡◌, ◌≤◌, ℕ, length, option_map, IfOk, IfSome};
ghost use Rattle.file_words.specs.Shown.{shown};
ghost use Rattle.talk_questions.specs.{Shown.{shown_asking, shown_trial}, Trials.{AreShort, IsShort, IsWithin, begins_other, begins_unit, behind_if, install_unit, migrate_unit, move_tried, moved, trial, trial_by, trial_of, unit_tried}};

use crate::asking::{Asking, behind_word};
use file_words::{NoMemory, is_skipped, is_text, without_return, words_of};
use std::alloc::Global;

/// What a question tries.
#[derive(Clone, Copy)]
pub enum Trial<'a> {
    /// A unit, of these bytes.
    Unit(&'a [u8]),
    /// An install by an actor, of a type, by the lines behind, and a migrate behind it.
    Move(&'a [u8], &'a [u8], &'a [u8]),
    /// Nothing: there are other words.
    NoForm,
    /// Nothing: the words of a move are no text.
    NoText,
}

// A unit begins with words, and neither as a question nor as a comment.
fn begins_unit(words: &[&[u8]]) -> bool
    ensures { result ≡ begins_unit (shown words.now) }
{
    match words {
        [] => false,
        [first, ..] => *first != b"?".as_slice() && !is_skipped(words),
    }
}

// The bytes behind the words `? if`.
fn behind_if(bytes: &[u8]) -> &[u8]
    ensures unit { result.now ≡ behind_if bytes.now }
    ensures short { length result.now ≤ length bytes.now }
{
    behind_word(behind_word(bytes, 1), 2)
}

fn unit_tried<'a>(words: &[&[u8]], bytes: &'a [u8]) -> Trial<'a>
    ensures trial { shown_trial result ≡ unit_tried (shown words.now) bytes.now }
    ensures short { IsShort (length bytes.now) (shown_trial result) }
{
    if begins_unit(words) {
        Trial::Unit(behind_if(bytes))
    } else {
        Trial::NoForm
    }
}

// A line that begins with this word is none of an actor.
fn begins_other(word: &[u8]) -> bool
    ensures { result ≡ begins_other word.now }
{
    is_skipped(&[word])
        || word == b"type".as_slice()
        || word == b"actor".as_slice()
        || word == b"case".as_slice()
        || word == b"phase".as_slice()
}

// The words behind `? move`, and the lines behind them.
fn moved<'a>(words: &[&'a [u8]], lines: &'a [u8]) -> Trial<'a>
    ensures trial { shown_trial result ≡ moved (shown words.now) lines.now }
    ensures short { (n : ℕ) → AreShort n (shown words.now) → length lines.now ≤ n → IsShort n (shown_trial result) }
{
    match words {
        [actor, kind] if !begins_other(*actor) => Trial::Move(*actor, *kind, lines),
        _ => Trial::NoForm,
    }
}

fn move_tried<'a>(words: &[&'a [u8]], question: Asking<'a>) -> Trial<'a>
    ensures trial { shown_trial result ≡ move_tried (shown words.now) (shown_asking question.entry) }
    ensures short { (n : ℕ) → AreShort n (shown words.now) → IsWithin n (shown_asking question.entry) → IsShort n (shown_trial result) }
{
    if is_text(question.line) {
        moved(words, question.more)
    } else {
        Trial::NoText
    }
}

// By the word behind the question mark, and those behind it.
fn trial_of<'a>(keyword: &[u8], words: &[&'a [u8]], question: Asking<'a>) -> Option<Trial<'a>>
    ensures trial { option_map shown_trial result ≡ trial_of keyword.now (shown words.now) (shown_asking question.entry) }
    ensures short { (n : ℕ) → AreShort n (shown words.now) → IsWithin n (shown_asking question.entry) → IfSome result (λ t. IsShort n (shown_trial t)) }
{
    if keyword == b"if".as_slice() {
        Some(unit_tried(words, question.bytes))
    } else if keyword == b"move".as_slice() {
        Some(move_tried(words, question))
    } else {
        None
    }
}

fn trial_by<'a>(words: &[&'a [u8]], question: Asking<'a>) -> Option<Trial<'a>>
    ensures trial { option_map shown_trial result ≡ trial_by (shown words.now) (shown_asking question.entry) }
    ensures short { (n : ℕ) → AreShort n (shown words.now) → IsWithin n (shown_asking question.entry) → IfSome result (λ t. IsShort n (shown_trial t)) }
{
    match words {
        [mark, keyword, rest @ ..] if *mark == b"?".as_slice() => {
            trial_of(*keyword, rest, question)
        }
        _ => None,
    }
}

/// What a question tries, where it is none that is asked for what is held.
pub fn trial_in<'a>(alloc: Global, question: Asking<'a>) -> Result<Option<Trial<'a>>, NoMemory>
    ensures trial { IfOk result (λ found. option_map shown_trial found ≡ trial (shown_asking question.entry)) }
    ensures short { (n : ℕ) → IsWithin n (shown_asking question.entry) → IfOk result (λ found. IfSome found (λ t. IsShort n (shown_trial t))) }
{
    let words = words_of(alloc, without_return(question.line))?;
    Ok(trial_by(&words, question))
}

/// The unit with which an actor installs a type by lines.
pub fn install_unit(
    alloc: Global,
    actor: &[u8],
    kind: &[u8],
    lines: &[u8],
) -> Result<Vec<u8>, NoMemory>
    ensures { IfOk result (λ unit. unit.items ≡ install_unit actor.now kind.now lines.now) }
{
    let mut unit = Vec::new(alloc);
    unit.extend_from_slice(actor)?;
    unit.extend_from_slice(b" install ")?;
    unit.extend_from_slice(kind)?;
    unit.extend_from_slice(b"\n")?;
    unit.extend_from_slice(lines)?;
    Ok(unit)
}

/// The unit with which an actor moves the cases of a type.
pub fn migrate_unit(alloc: Global, actor: &[u8], kind: &[u8]) -> Result<Vec<u8>, NoMemory>
    ensures { IfOk result (λ unit. unit.items ≡ migrate_unit actor.now kind.now) }
{
    let mut unit = Vec::new(alloc);
    unit.extend_from_slice(actor)?;
    unit.extend_from_slice(b" migrate ")?;
    unit.extend_from_slice(kind)?;
    unit.extend_from_slice(b"\n")?;
    Ok(unit)
}
