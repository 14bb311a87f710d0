// Lines of a group of operations.
ghost use Rattle.std.specs.Prelude.{◌≡◌, option_map};
ghost use Rattle.file_words.specs.Shown.{shown, shown_name};
ghost use Rattle.file_forms.specs.OperationForms.{name_and_code, place, role_word_ahead, role_ahead, new_node, with_block, last_item, first_and_last, around_items, insert_line, parallel_line, conditional_line, move_line, role_line, tree_operation, edge_operation, edge_line, row_line, operation_line};
ghost use Rattle.file_forms.specs.Shown.{shown_names, shown_with, shown_role_ahead, shown_two_ahead, shown_new_node, shown_place, shown_operation};

use crate::pieces::{
    RoleWord, element_and_kind, name_ahead, one_name, only, read_edge, role_word, two_names,
    two_names_ahead,
};
use file_words::{NameWord, code};
use wsm_lists::ElementKind;

/// Where an operation puts a node.
#[derive(Clone, Copy)]
pub enum NamedGap<'a> {
    /// Directly behind this node.
    After(NameWord<'a>),
    /// At the head of the split's branch with this code.
    Head { split: NameWord<'a>, code: u16 },
}

/// A line of a group of operations. A role that is not written is 0.
#[derive(Clone, Copy)]
pub enum OperationLine<'a> {
    Insert {
        node: NameWord<'a>,
        role: RoleWord<'a>,
        place: NamedGap<'a>,
    },
    /// The last item is the first where it is not written.
    Parallel {
        node: NameWord<'a>,
        role: RoleWord<'a>,
        split: NameWord<'a>,
        join: NameWord<'a>,
        first: NameWord<'a>,
        last: NameWord<'a>,
    },
    Conditional {
        node: NameWord<'a>,
        role: RoleWord<'a>,
        split: NameWord<'a>,
        join: NameWord<'a>,
        place: NamedGap<'a>,
    },
    Delete(NameWord<'a>),
    Move {
        node: NameWord<'a>,
        place: NamedGap<'a>,
    },
    Sync {
        source: NameWord<'a>,
        target: NameWord<'a>,
    },
    Unsync {
        source: NameWord<'a>,
        target: NameWord<'a>,
    },
    Element {
        element: NameWord<'a>,
        kind: ElementKind,
    },
    Read {
        node: NameWord<'a>,
        element: NameWord<'a>,
        mandatory: bool,
    },
    Unread {
        node: NameWord<'a>,
        element: NameWord<'a>,
    },
    Write {
        node: NameWord<'a>,
        element: NameWord<'a>,
    },
    Unwrite {
        node: NameWord<'a>,
        element: NameWord<'a>,
    },
    Role {
        node: NameWord<'a>,
        role: RoleWord<'a>,
    },
    GroupEnd,
}

fn name_and_code<'a>(words: &[&'a [u8]]) -> Option<(NameWord<'a>, u16)>
    ensures { option_map shown_with result ≡ name_and_code (shown words.now) }
{
    let (name, rest) = name_ahead(words)?;
    let code = code(only(rest)?)?;
    Some((name, code))
}

fn place_of<'a>(words: &[&'a [u8]]) -> Option<NamedGap<'a>>
    ensures { option_map shown_place result ≡ place (shown words.now) }
{
    match words {
        [] => None,
        [keyword, rest @ ..] => {
            if *keyword == b"after".as_slice() {
                Some(NamedGap::After(one_name(rest)?))
            } else if *keyword == b"head".as_slice() {
                let (split, code) = name_and_code(rest)?;
                Some(NamedGap::Head { split, code })
            } else {
                None
            }
        }
    }
}

fn role_word_ahead<'a, 'b>(
    format: u32,
    words: &'b [&'a [u8]],
) -> Option<(RoleWord<'a>, &'b [&'a [u8]])>
    ensures { option_map shown_role_ahead result ≡ role_word_ahead format (shown words.now) }
{
    match words {
        [] => None,
        [word, rest @ ..] => {
            let role = role_word(format, *word)?;
            Some((role, rest))
        }
    }
}

/// A role where one is written, and the words behind it.
fn role_ahead<'a, 'b>(format: u32, words: &'b [&'a [u8]]) -> Option<(RoleWord<'a>, &'b [&'a [u8]])>
    ensures { option_map shown_role_ahead result ≡ role_ahead format (shown words.now) }
{
    match words {
        [] => Some((RoleWord::Number(0), words)),
        [keyword, rest @ ..] => {
            if *keyword == b"role".as_slice() {
                role_word_ahead(format, rest)
            } else {
                Some((RoleWord::Number(0), words))
            }
        }
    }
}

/// A new node, its role, and the words behind them.
fn new_node<'a, 'b>(
    format: u32,
    words: &'b [&'a [u8]],
) -> Option<(NameWord<'a>, RoleWord<'a>, &'b [&'a [u8]])>
    ensures { option_map shown_new_node result ≡ new_node format (shown words.now) }
{
    let (node, rest) = name_ahead(words)?;
    let (role, behind) = role_ahead(format, rest)?;
    Some((node, role, behind))
}

/// The split and the join of a new block, and the words behind them.
fn with_block<'a, 'b>(words: &'b [&'a [u8]]) -> Option<(NameWord<'a>, NameWord<'a>, &'b [&'a [u8]])>
    ensures { option_map shown_two_ahead result ≡ with_block (shown words.now) }
{
    match words {
        [] => None,
        [keyword, rest @ ..] => {
            if *keyword == b"with".as_slice() {
                two_names_ahead(rest)
            } else {
                None
            }
        }
    }
}

fn last_item<'a>(first: NameWord<'a>, words: &[&'a [u8]]) -> Option<NameWord<'a>>
    ensures { option_map shown_name result ≡ last_item first.entry.bytes.now (shown words.now) }
{
    if words.is_empty() {
        Some(first)
    } else {
        one_name(words)
    }
}

fn first_and_last<'a>(words: &[&'a [u8]]) -> Option<(NameWord<'a>, NameWord<'a>)>
    ensures { option_map shown_names result ≡ first_and_last (shown words.now) }
{
    let (first, rest) = name_ahead(words)?;
    let last = last_item(first, rest)?;
    Some((first, last))
}

/// The items that a new block goes round.
fn around_items<'a>(words: &[&'a [u8]]) -> Option<(NameWord<'a>, NameWord<'a>)>
    ensures { option_map shown_names result ≡ around_items (shown words.now) }
{
    match words {
        [] => None,
        [keyword, rest @ ..] => {
            if *keyword == b"around".as_slice() {
                first_and_last(rest)
            } else {
                None
            }
        }
    }
}

fn insert_line<'a>(format: u32, words: &[&'a [u8]]) -> Option<OperationLine<'a>>
    ensures { option_map shown_operation result ≡ insert_line format (shown words.now) }
{
    let (node, role, rest) = new_node(format, words)?;
    let place = place_of(rest)?;
    Some(OperationLine::Insert { node, role, place })
}

fn parallel_line<'a>(format: u32, words: &[&'a [u8]]) -> Option<OperationLine<'a>>
    ensures { option_map shown_operation result ≡ parallel_line format (shown words.now) }
{
    let (node, role, behind) = new_node(format, words)?;
    let (split, join, rest) = with_block(behind)?;
    let (first, last) = around_items(rest)?;
    Some(OperationLine::Parallel {
        node,
        role,
        split,
        join,
        first,
        last,
    })
}

fn conditional_line<'a>(format: u32, words: &[&'a [u8]]) -> Option<OperationLine<'a>>
    ensures { option_map shown_operation result ≡ conditional_line format (shown words.now) }
{
    let (node, role, behind) = new_node(format, words)?;
    let (split, join, rest) = with_block(behind)?;
    let place = place_of(rest)?;
    Some(OperationLine::Conditional {
        node,
        role,
        split,
        join,
        place,
    })
}

fn move_line<'a>(words: &[&'a [u8]]) -> Option<OperationLine<'a>>
    ensures { option_map shown_operation result ≡ move_line (shown words.now) }
{
    let (node, rest) = name_ahead(words)?;
    let place = place_of(rest)?;
    Some(OperationLine::Move { node, place })
}

fn role_line<'a>(format: u32, words: &[&'a [u8]]) -> Option<OperationLine<'a>>
    ensures { option_map shown_operation result ≡ role_line format (shown words.now) }
{
    let (node, rest) = name_ahead(words)?;
    let role = role_word(format, only(rest)?)?;
    Some(OperationLine::Role { node, role })
}

/// An operation that changes the tree of blocks, or the end of the group.
fn tree_operation<'a>(format: u32, keyword: &[u8], words: &[&'a [u8]]) -> Option<OperationLine<'a>>
    ensures { option_map shown_operation result ≡ tree_operation format keyword.now (shown words.now) }
{
    if keyword == b"insert".as_slice() {
        insert_line(format, words)
    } else if keyword == b"parallel".as_slice() {
        parallel_line(format, words)
    } else if keyword == b"conditional".as_slice() {
        conditional_line(format, words)
    } else if keyword == b"delete".as_slice() {
        Some(OperationLine::Delete(one_name(words)?))
    } else if keyword == b"move".as_slice() {
        move_line(words)
    } else if keyword == b"end".as_slice() && words.is_empty() {
        Some(OperationLine::GroupEnd)
    } else {
        None
    }
}

/// An operation on the edge between two names.
fn edge_operation<'a>(
    keyword: &[u8],
    first: NameWord<'a>,
    second: NameWord<'a>,
) -> Option<OperationLine<'a>>
    ensures { option_map shown_operation result ≡ edge_operation keyword.now (first.entry.bytes.now, second.entry.bytes.now) }
{
    if keyword == b"sync".as_slice() {
        Some(OperationLine::Sync {
            source: first,
            target: second,
        })
    } else if keyword == b"unsync".as_slice() {
        Some(OperationLine::Unsync {
            source: first,
            target: second,
        })
    } else if keyword == b"unread".as_slice() {
        Some(OperationLine::Unread {
            node: first,
            element: second,
        })
    } else if keyword == b"write".as_slice() {
        Some(OperationLine::Write {
            node: first,
            element: second,
        })
    } else if keyword == b"unwrite".as_slice() {
        Some(OperationLine::Unwrite {
            node: first,
            element: second,
        })
    } else {
        None
    }
}

fn edge_line<'a>(keyword: &[u8], words: &[&'a [u8]]) -> Option<OperationLine<'a>>
    ensures { option_map shown_operation result ≡ edge_line keyword.now (shown words.now) }
{
    let (first, second) = two_names(words)?;
    edge_operation(keyword, first, second)
}

/// An operation on an element, a read or a role.
fn row_line<'a>(format: u32, keyword: &[u8], words: &[&'a [u8]]) -> Option<OperationLine<'a>>
    ensures { option_map shown_operation result ≡ row_line format keyword.now (shown words.now) }
{
    if keyword == b"element".as_slice() {
        let (element, kind) = element_and_kind(words)?;
        Some(OperationLine::Element { element, kind })
    } else if keyword == b"read".as_slice() {
        let (node, element, mandatory) = read_edge(words)?;
        Some(OperationLine::Read {
            node,
            element,
            mandatory,
        })
    } else if keyword == b"role".as_slice() {
        role_line(format, words)
    } else {
        None
    }
}

/// The form of a line of a group of operations, in a file of that format.
pub fn operation_line<'a>(format: u32, words: &[&'a [u8]]) -> Option<OperationLine<'a>>
    ensures { option_map shown_operation result ≡ operation_line format (shown words.now) }
{
    match words {
        [] => None,
        [keyword, rest @ ..] => match tree_operation(format, *keyword, rest) {
            Some(line) => Some(line),
            None => match edge_line(*keyword, rest) {
                Some(line) => Some(line),
                None => row_line(format, *keyword, rest),
            },
        },
    }
}
