// Pieces of lines that several forms share.
ghost use Rattle.std.specs.Prelude.{◌≡◌, option_map};
ghost use Rattle.file_words.specs.Shown.{shown, shown_name};
ghost use Rattle.file_forms.specs.PieceForms.{only, one_name, two_names, name_ahead, two_names_ahead, low_or_name, role_word, role_at_end, name_and_role, two_names_and_role, element_kind, element_and_kind, is_mandatory, element_read, read_edge};
ghost use Rattle.file_forms.specs.Shown.{shown_word, shown_names, shown_with, shown_two_with, shown_ahead, shown_two_ahead, shown_role, shown_name_role, shown_names_role};

use file_limits::FIRST_NAMED_ROLE;
use file_words::{NameWord, role};
use wsm_lists::ElementKind;

/// A role as it is written.
#[derive(Clone, Copy)]
pub enum RoleWord<'a> {
    Number(u32),
    /// In format 3 alone.
    Name(NameWord<'a>),
}

/// The one word of a list.
pub fn only<'a>(words: &[&'a [u8]]) -> Option<&'a [u8]>
    ensures { option_map shown_word result ≡ only (shown words.now) }
{
    match words {
        [] => None,
        [word, rest @ ..] => if rest.is_empty() { Some(*word) } else { None },
    }
}

/// One name and nothing more.
pub fn one_name<'a>(words: &[&'a [u8]]) -> Option<NameWord<'a>>
    ensures { option_map shown_name result ≡ one_name (shown words.now) }
{
    let word = only(words)?;
    NameWord::of(word)
}

/// A name, and the words behind it.
pub fn name_ahead<'a, 'b>(words: &'b [&'a [u8]]) -> Option<(NameWord<'a>, &'b [&'a [u8]])>
    ensures { option_map shown_ahead result ≡ name_ahead (shown words.now) }
{
    match words {
        [] => None,
        [word, rest @ ..] => {
            let name = NameWord::of(*word)?;
            Some((name, rest))
        }
    }
}

/// Two names and nothing more.
pub fn two_names<'a>(words: &[&'a [u8]]) -> Option<(NameWord<'a>, NameWord<'a>)>
    ensures { option_map shown_names result ≡ two_names (shown words.now) }
{
    let (first, rest) = name_ahead(words)?;
    let second = one_name(rest)?;
    Some((first, second))
}

/// Two names, and the words behind them.
pub fn two_names_ahead<'a, 'b>(
    words: &'b [&'a [u8]],
) -> Option<(NameWord<'a>, NameWord<'a>, &'b [&'a [u8]])>
    ensures { option_map shown_two_ahead result ≡ two_names_ahead (shown words.now) }
{
    let (first, behind) = name_ahead(words)?;
    let (second, rest) = name_ahead(behind)?;
    Some((first, second, rest))
}

// A number below the first one that a name has, or a name.
fn low_or_name<'a>(number: Option<u32>, word: &'a [u8]) -> Option<RoleWord<'a>>
    ensures { option_map shown_role result ≡ low_or_name number word.now }
{
    match number {
        None => Some(RoleWord::Name(NameWord::of(word)?)),
        Some(number) => {
            if number < FIRST_NAMED_ROLE {
                Some(RoleWord::Number(number))
            } else {
                None
            }
        }
    }
}

/// The role of a word that is one, in a file of that format.
pub fn role_word<'a>(format: u32, word: &'a [u8]) -> Option<RoleWord<'a>>
    ensures { option_map shown_role result ≡ role_word format word.now }
{
    if format == 3 {
        low_or_name(role(word), word)
    } else {
        Some(RoleWord::Number(role(word)?))
    }
}

fn role_at_end<'a>(format: u32, words: &[&'a [u8]]) -> Option<RoleWord<'a>>
    ensures { option_map shown_role result ≡ role_at_end format (shown words.now) }
{
    match words {
        [] => Some(RoleWord::Number(0)),
        [keyword, rest @ ..] => {
            if *keyword != b"role".as_slice() {
                return None;
            }
            let word = only(rest)?;
            role_word(format, word)
        }
    }
}

/// A name, and a role where one is written.
pub fn name_and_role<'a>(format: u32, words: &[&'a [u8]]) -> Option<(NameWord<'a>, RoleWord<'a>)>
    ensures { option_map shown_name_role result ≡ name_and_role format (shown words.now) }
{
    let (name, rest) = name_ahead(words)?;
    let role = role_at_end(format, rest)?;
    Some((name, role))
}

/// Two names, and a role where one is written.
pub fn two_names_and_role<'a>(
    format: u32,
    words: &[&'a [u8]],
) -> Option<(NameWord<'a>, NameWord<'a>, RoleWord<'a>)>
    ensures { option_map shown_names_role result ≡ two_names_and_role format (shown words.now) }
{
    let (first, rest) = name_ahead(words)?;
    let (second, role) = name_and_role(format, rest)?;
    Some((first, second, role))
}

fn element_kind(word: &[u8]) -> Option<ElementKind>
    ensures { result ≡ element_kind word.now }
{
    if word == b"int".as_slice() {
        Some(ElementKind::Int)
    } else if word == b"text".as_slice() {
        Some(ElementKind::Text)
    } else {
        None
    }
}

/// An element and its kind.
pub fn element_and_kind<'a>(words: &[&'a [u8]]) -> Option<(NameWord<'a>, ElementKind)>
    ensures { option_map shown_with result ≡ element_and_kind (shown words.now) }
{
    let (element, rest) = name_ahead(words)?;
    let kind = element_kind(only(rest)?)?;
    Some((element, kind))
}

fn is_mandatory(words: &[&[u8]]) -> Option<bool>
    ensures { result ≡ is_mandatory (shown words.now) }
{
    match words {
        [] => Some(true),
        [word, rest @ ..] => {
            if *word == b"optional".as_slice() && rest.is_empty() {
                Some(false)
            } else {
                None
            }
        }
    }
}

fn element_read<'a>(words: &[&'a [u8]]) -> Option<(NameWord<'a>, bool)>
    ensures { option_map shown_with result ≡ element_read (shown words.now) }
{
    let (element, rest) = name_ahead(words)?;
    let mandatory = is_mandatory(rest)?;
    Some((element, mandatory))
}

/// A node and an element that it reads, and whether it must.
pub fn read_edge<'a>(words: &[&'a [u8]]) -> Option<(NameWord<'a>, NameWord<'a>, bool)>
    ensures { option_map shown_two_with result ≡ read_edge (shown words.now) }
{
    let (node, rest) = name_ahead(words)?;
    let (element, mandatory) = element_read(rest)?;
    Some((node, element, mandatory))
}
