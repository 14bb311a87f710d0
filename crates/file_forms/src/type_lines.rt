// Lines of a type.
ghost use Rattle.std.specs.Prelude.{◌≡◌, option_map};
ghost use Rattle.file_words.specs.Shown.{shown};
ghost use Rattle.file_forms.specs.{TypeForms.{tree_line, outer_line, type_line}, Shown.shown_type_line};

use crate::pieces::{
    RoleWord, element_and_kind, name_and_role, only, read_edge, two_names, two_names_and_role,
};
use file_words::{NameWord, code};
use wsm_lists::ElementKind;

/// A line of a type. A role that is not written is 0.
#[derive(Clone, Copy)]
pub enum TypeLine<'a> {
    Activity {
        node: NameWord<'a>,
        role: RoleWord<'a>,
    },
    And {
        split: NameWord<'a>,
        join: NameWord<'a>,
    },
    Xor {
        split: NameWord<'a>,
        join: NameWord<'a>,
        role: RoleWord<'a>,
    },
    /// The next branch of the innermost open block.
    Branch(u16),
    Loop {
        start: NameWord<'a>,
        end: NameWord<'a>,
        role: RoleWord<'a>,
    },
    /// The end of the innermost open block.
    Done,
    Sync {
        source: NameWord<'a>,
        target: NameWord<'a>,
    },
    Element {
        element: NameWord<'a>,
        kind: ElementKind,
    },
    Read {
        node: NameWord<'a>,
        element: NameWord<'a>,
        mandatory: bool,
    },
    Write {
        node: NameWord<'a>,
        element: NameWord<'a>,
    },
    TypeEnd,
}

/// A line that makes the tree of blocks.
fn tree_line<'a>(format: u32, keyword: &[u8], words: &[&'a [u8]]) -> Option<TypeLine<'a>>
    ensures { option_map shown_type_line result ≡ tree_line format keyword.now (shown words.now) }
{
    if keyword == b"act".as_slice() {
        let (node, role) = name_and_role(format, words)?;
        Some(TypeLine::Activity { node, role })
    } else if keyword == b"and".as_slice() {
        let (split, join) = two_names(words)?;
        Some(TypeLine::And { split, join })
    } else if keyword == b"xor".as_slice() {
        let (split, join, role) = two_names_and_role(format, words)?;
        Some(TypeLine::Xor { split, join, role })
    } else if keyword == b"loop".as_slice() {
        let (start, end, role) = two_names_and_role(format, words)?;
        Some(TypeLine::Loop { start, end, role })
    } else if keyword == b"branch".as_slice() {
        Some(TypeLine::Branch(code(only(words)?)?))
    } else if keyword == b"done".as_slice() && words.is_empty() {
        Some(TypeLine::Done)
    } else {
        None
    }
}

/// A line that stands outside of all blocks.
fn outer_line<'a>(keyword: &[u8], words: &[&'a [u8]]) -> Option<TypeLine<'a>>
    ensures { option_map shown_type_line result ≡ outer_line keyword.now (shown words.now) }
{
    if keyword == b"sync".as_slice() {
        let (source, target) = two_names(words)?;
        Some(TypeLine::Sync { source, target })
    } else if keyword == b"element".as_slice() {
        let (element, kind) = element_and_kind(words)?;
        Some(TypeLine::Element { element, kind })
    } else if keyword == b"read".as_slice() {
        let (node, element, mandatory) = read_edge(words)?;
        Some(TypeLine::Read {
            node,
            element,
            mandatory,
        })
    } else if keyword == b"write".as_slice() {
        let (node, element) = two_names(words)?;
        Some(TypeLine::Write { node, element })
    } else if keyword == b"end".as_slice() && words.is_empty() {
        Some(TypeLine::TypeEnd)
    } else {
        None
    }
}

/// The form of a line of a type, in a file of that format, whether or not such a line may stand where it does.
pub fn type_line<'a>(format: u32, words: &[&'a [u8]]) -> Option<TypeLine<'a>>
    ensures { option_map shown_type_line result ≡ type_line format (shown words.now) }
{
    match words {
        [] => None,
        [keyword, rest @ ..] => match tree_line(format, *keyword, rest) {
            Some(line) => Some(line),
            None => outer_line(*keyword, rest),
        },
    }
}
