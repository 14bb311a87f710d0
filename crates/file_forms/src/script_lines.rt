// Lines of a phase.
ghost use Rattle.std.specs.Prelude.{◌≡◌, option_map, map, IfOk};
ghost use Rattle.file_words.specs.Shown.{shown, shown_pair};
ghost use Rattle.file_forms.specs.{ScriptForms.{pairs, code_ahead, choice_ahead, end_behind, end_deed, named_deed, plain_deed, deed, deed_line, script_line}, Shown.{shown_behind, shown_deed, shown_script_line}};

use crate::pieces::{one_name, two_names, two_names_ahead};
use file_words::{Literal, NameWord, NoMemory, code, pair};
use std::alloc::Global;

/// What an end writes, in the order given.
pub type WriteWords<'a> = Vec<(NameWord<'a>, Literal)>;

/// What an actor does.
#[derive(Drop)]
pub enum Deed<'a> {
    Create(NameWord<'a>),
    Start {
        case: NameWord<'a>,
        node: NameWord<'a>,
    },
    Withdraw {
        case: NameWord<'a>,
        node: NameWord<'a>,
    },
    End {
        case: NameWord<'a>,
        node: NameWord<'a>,
        choice: Option<u16>,
        writes: WriteWords<'a>,
    },
    /// The head of a group of operations on a case.
    Change(NameWord<'a>),
    /// The head of a group of operations on a type.
    Install(NameWord<'a>),
    Migrate(NameWord<'a>),
}

/// A script line, or the line that begins the next phase.
#[derive(Drop)]
pub enum ScriptLine<'a> {
    /// The next phase begins.
    Phase,
    Deed { actor: NameWord<'a>, deed: Deed<'a> },
}

/// The pairs that end a line.
fn pairs<'a>(alloc: Global, words: &[&'a [u8]]) -> Result<Option<WriteWords<'a>>, NoMemory>
    ensures { IfOk result (λ found. option_map (λ all. map shown_pair all.items) found ≡ pairs (shown words.now)) }
{
    let mut all: WriteWords<'a> = Vec::new(alloc);
    for word in words {
        match pair(alloc, *word)? {
            None => return Ok(None),
            Some(write) => all.push(write)?,
        }
    }
    Ok(Some(all))
}

fn code_ahead<'a, 'b>(words: &'b [&'a [u8]]) -> Option<(Option<u16>, &'b [&'a [u8]])>
    ensures { option_map shown_behind result ≡ code_ahead (shown words.now) }
{
    match words {
        [] => None,
        [word, rest @ ..] => {
            let code = code(*word)?;
            Some((Some(code), rest))
        }
    }
}

/// A choice where one is written, and the words behind it.
fn choice_ahead<'a, 'b>(words: &'b [&'a [u8]]) -> Option<(Option<u16>, &'b [&'a [u8]])>
    ensures { option_map shown_behind result ≡ choice_ahead (shown words.now) }
{
    match words {
        [] => Some((None, words)),
        [keyword, rest @ ..] => {
            if *keyword == b"choice".as_slice() {
                code_ahead(rest)
            } else {
                Some((None, words))
            }
        }
    }
}

fn end_behind<'a>(
    alloc: Global,
    case: NameWord<'a>,
    node: NameWord<'a>,
    words: &[&'a [u8]],
) -> Result<Option<Deed<'a>>, NoMemory>
    ensures { IfOk result (λ found. option_map shown_deed found ≡ end_behind case.entry.bytes.now node.entry.bytes.now (shown words.now)) }
{
    match choice_ahead(words) {
        None => Ok(None),
        Some((choice, rest)) => match pairs(alloc, rest)? {
            None => Ok(None),
            Some(writes) => Ok(Some(Deed::End {
                case,
                node,
                choice,
                writes,
            })),
        },
    }
}

fn end_deed<'a>(alloc: Global, words: &[&'a [u8]]) -> Result<Option<Deed<'a>>, NoMemory>
    ensures { IfOk result (λ found. option_map shown_deed found ≡ end_deed (shown words.now)) }
{
    match two_names_ahead(words) {
        None => Ok(None),
        Some((case, node, rest)) => end_behind(alloc, case, node, rest),
    }
}

/// What an actor does where one name says on what.
fn named_deed<'a>(keyword: &[u8], name: NameWord<'a>) -> Option<Deed<'a>>
    ensures { option_map shown_deed result ≡ named_deed keyword.now name.entry.bytes.now }
{
    if keyword == b"create".as_slice() {
        Some(Deed::Create(name))
    } else if keyword == b"change".as_slice() {
        Some(Deed::Change(name))
    } else if keyword == b"install".as_slice() {
        Some(Deed::Install(name))
    } else if keyword == b"migrate".as_slice() {
        Some(Deed::Migrate(name))
    } else {
        None
    }
}

/// What an actor does, but for an end. A node is given back from format 2 on.
fn plain_deed<'a>(format: u32, keyword: &[u8], words: &[&'a [u8]]) -> Option<Deed<'a>>
    ensures { option_map shown_deed result ≡ plain_deed format keyword.now (shown words.now) }
{
    if keyword == b"start".as_slice() {
        let (case, node) = two_names(words)?;
        Some(Deed::Start { case, node })
    } else if keyword == b"withdraw".as_slice() && format >= 2 {
        let (case, node) = two_names(words)?;
        Some(Deed::Withdraw { case, node })
    } else {
        named_deed(keyword, one_name(words)?)
    }
}

fn deed_of<'a>(alloc: Global, format: u32, words: &[&'a [u8]]) -> Result<Option<Deed<'a>>, NoMemory>
    ensures { IfOk result (λ found. option_map shown_deed found ≡ deed format (shown words.now)) }
{
    match words {
        [] => Ok(None),
        [keyword, rest @ ..] => {
            if *keyword == b"end".as_slice() {
                end_deed(alloc, rest)
            } else {
                Ok(plain_deed(format, *keyword, rest))
            }
        }
    }
}

fn deed_line<'a>(
    alloc: Global,
    format: u32,
    actor: &'a [u8],
    words: &[&'a [u8]],
) -> Result<Option<ScriptLine<'a>>, NoMemory>
    ensures { IfOk result (λ line. option_map shown_script_line line ≡ deed_line format actor.now (shown words.now)) }
{
    match NameWord::of(actor) {
        None => Ok(None),
        Some(actor) => match deed_of(alloc, format, words)? {
            None => Ok(None),
            Some(deed) => Ok(Some(ScriptLine::Deed { actor, deed })),
        },
    }
}

/// The form of a line of a phase, in a file of that format. In formats 1 and 2 an actor may be called `phase`.
pub fn script_line<'a>(
    alloc: Global,
    format: u32,
    words: &[&'a [u8]],
) -> Result<Option<ScriptLine<'a>>, NoMemory>
    ensures { IfOk result (λ line. option_map shown_script_line line ≡ script_line format (shown words.now)) }
{
    match words {
        [] => Ok(None),
        [word, rest @ ..] => {
            if *word == b"phase".as_slice() && rest.is_empty() {
                Ok(Some(ScriptLine::Phase))
            } else {
                deed_line(alloc, format, *word, rest)
            }
        }
    }
}
