// The first line, and declarations.
ghost use Rattle.std.specs.Prelude.{◌≡◌, option_map, map, IfOk};
ghost use Rattle.file_words.specs.Shown.{shown};
ghost use Rattle.file_forms.specs.DeclarationForms.{is_only, format_of, header, is_reserved, begins_reserved, actor_ahead, roles, some_roles, roles_at_end, actor_line, plain_line, declaration_line};
ghost use Rattle.file_forms.specs.Shown.{shown_ahead, shown_declaration, shown_role};

use crate::pieces::{RoleWord, name_ahead, one_name, role_word, two_names};
use file_words::{NameWord, NoMemory};
use std::alloc::Global;

/// Roles in the order given.
pub type RoleWords<'a> = Vec<RoleWord<'a>>;

/// A declaration, or the line that begins a phase.
#[derive(Drop)]
pub enum Declaration<'a> {
    Type(NameWord<'a>),
    Actor {
        name: NameWord<'a>,
        roles: RoleWords<'a>,
    },
    Case {
        name: NameWord<'a>,
        kind: NameWord<'a>,
    },
    Phase,
}

fn is_only(keyword: &[u8], words: &[&[u8]]) -> bool
    ensures { result ≡ is_only keyword.now (shown words.now) }
{
    match words {
        [] => false,
        [word, rest @ ..] => rest.is_empty() && **word == *keyword,
    }
}

fn format_of(words: &[&[u8]]) -> Option<u32>
    ensures { result ≡ format_of (shown words.now) }
{
    if is_only(b"1", words) {
        Some(1)
    } else if is_only(b"2", words) {
        Some(2)
    } else if is_only(b"3", words) {
        Some(3)
    } else {
        None
    }
}

/// The format, 1 to 3, that a file's first line names. None where the words are no first line.
pub fn header(words: &[&[u8]]) -> Option<u32>
    ensures { result ≡ header (shown words.now) }
{
    match words {
        [] => None,
        [word, rest @ ..] => {
            if *word == b"adept".as_slice() {
                format_of(rest)
            } else {
                None
            }
        }
    }
}

// Whether, in format 3, a line that begins so declares something or begins a phase.
fn is_reserved(word: &[u8]) -> bool
    ensures { result ≡ is_reserved word.now }
{
    word == b"type".as_slice()
        || word == b"actor".as_slice()
        || word == b"case".as_slice()
        || word == b"phase".as_slice()
}

/// Whether the first word is one with which, in format 3, a line declares something or begins a phase.
pub fn begins_reserved(words: &[&[u8]]) -> bool
    ensures { result ≡ begins_reserved (shown words.now) }
{
    match words {
        [] => false,
        [word, ..] => is_reserved(*word),
    }
}

// The name of an actor: in format 3 none of those four, since such an actor could have no lines.
fn actor_ahead<'a, 'b>(format: u32, words: &'b [&'a [u8]]) -> Option<(NameWord<'a>, &'b [&'a [u8]])>
    ensures { option_map shown_ahead result ≡ actor_ahead format (shown words.now) }
{
    if format == 3 && begins_reserved(words) {
        return None;
    }
    name_ahead(words)
}

fn roles<'a>(
    alloc: Global,
    format: u32,
    words: &[&'a [u8]],
) -> Result<Option<RoleWords<'a>>, NoMemory>
    ensures { IfOk result (λ found. option_map (λ all. map shown_role all.items) found ≡ roles format (shown words.now)) }
{
    let mut all: RoleWords<'a> = Vec::new(alloc);
    for word in words {
        match role_word(format, *word) {
            None => return Ok(None),
            Some(role) => all.push(role)?,
        }
    }
    Ok(Some(all))
}

fn roles_at_end<'a>(
    alloc: Global,
    format: u32,
    words: &[&'a [u8]],
) -> Result<Option<RoleWords<'a>>, NoMemory>
    ensures { IfOk result (λ found. option_map (λ all. map shown_role all.items) found ≡ roles_at_end format (shown words.now)) }
{
    match words {
        [] => Ok(Some(Vec::new(alloc))),
        [keyword, rest @ ..] => {
            if *keyword == b"roles".as_slice() && !rest.is_empty() {
                roles(alloc, format, rest)
            } else {
                Ok(None)
            }
        }
    }
}

fn actor_line<'a>(
    alloc: Global,
    format: u32,
    words: &[&'a [u8]],
) -> Result<Option<Declaration<'a>>, NoMemory>
    ensures { IfOk result (λ line. option_map shown_declaration line ≡ actor_line format (shown words.now)) }
{
    match actor_ahead(format, words) {
        None => Ok(None),
        Some((name, rest)) => match roles_at_end(alloc, format, rest)? {
            None => Ok(None),
            Some(roles) => Ok(Some(Declaration::Actor { name, roles })),
        },
    }
}

fn plain_line<'a>(keyword: &[u8], words: &[&'a [u8]]) -> Option<Declaration<'a>>
    ensures { option_map shown_declaration result ≡ plain_line keyword.now (shown words.now) }
{
    if keyword == b"type".as_slice() {
        Some(Declaration::Type(one_name(words)?))
    } else if keyword == b"case".as_slice() {
        let (name, kind) = two_names(words)?;
        Some(Declaration::Case { name, kind })
    } else if keyword == b"phase".as_slice() && words.is_empty() {
        Some(Declaration::Phase)
    } else {
        None
    }
}

/// The form of a declaration, or of the line that begins a phase, in a file of that format. An actor's roles may be any
/// number from 1 on.
pub fn declaration_line<'a>(
    alloc: Global,
    format: u32,
    words: &[&'a [u8]],
) -> Result<Option<Declaration<'a>>, NoMemory>
    ensures { IfOk result (λ line. option_map shown_declaration line ≡ declaration_line format (shown words.now)) }
{
    match words {
        [] => Ok(None),
        [keyword, rest @ ..] => {
            if *keyword == b"actor".as_slice() {
                actor_line(alloc, format, rest)
            } else {
                Ok(plain_line(*keyword, rest))
            }
        }
    }
}
