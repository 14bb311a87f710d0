// What the first words of a line tell of its item.
ghost use Rattle.std.specs.Prelude.{◌≡◌};
ghost use Rattle.talk_items.specs.Items.{begins_with_change, ends_line, is_end, is_skipped, kind_of, opens, place_behind, question_opens, unit_opens, what_if_opens};

use crate::keywords::Keyword;

/// What an item is, by the words of its first line that says something.
#[derive(Clone, Copy, Debug, PartialEq, Eq)]
pub enum ItemKind {
    /// A line or a group that is to be kept.
    Unit,
    /// Its first word is `?`.
    Question,
    /// `adept` and the number of a format: the first item of a conversation may be such a line, any other is no unit.
    Header,
}

// Where a line stands.
#[derive(Clone, Copy, Debug, PartialEq, Eq)]
pub(crate) enum Place {
    // In front of an item's first line that says something, or that line itself.
    Front,
    // Inside a group.
    Group,
}

// Whether a line says nothing: it has no words, or it is a comment.
pub(crate) fn is_skipped(words: &[Keyword]) -> bool
    ensures { result ≡ is_skipped words.now }
{
    matches!(words, [] | [Keyword::Comment, ..])
}

// Whether the only word of a line is `end`.
fn is_end(words: &[Keyword]) -> bool
    ensures { result ≡ is_end words.now }
{
    matches!(words, [Keyword::End])
}

fn begins_with_change(words: &[Keyword]) -> bool
    ensures { result ≡ begins_with_change words.now }
{
    matches!(words, [Keyword::Change, ..])
}

// Whether the first line of a unit opens a group.
fn unit_opens(words: &[Keyword]) -> bool
    ensures { result ≡ unit_opens words.now }
{
    match words {
        [] | [Keyword::Declaration, ..] => false,
        [Keyword::Type, ..] => true,
        [_, rest @ ..] => begins_with_change(rest),
    }
}

// Whether the words behind `? if` do: they are a line of their own.
fn what_if_opens(words: &[Keyword]) -> bool
    ensures { result ≡ what_if_opens words.now }
{
    match words {
        [Keyword::Question, ..] => false,
        _ => unit_opens(words),
    }
}

// Whether the words behind `?` do.
fn question_opens(words: &[Keyword]) -> bool
    ensures { result ≡ question_opens words.now }
{
    match words {
        [Keyword::Move, ..] => true,
        [Keyword::If, rest @ ..] => what_if_opens(rest),
        _ => false,
    }
}

// Whether a line that is the first of an item opens a group.
fn opens(words: &[Keyword]) -> bool
    ensures { result ≡ opens words.now }
{
    match words {
        [Keyword::Comment, ..] => false,
        [Keyword::Question, rest @ ..] => question_opens(rest),
        _ => unit_opens(words),
    }
}

// Whether an item ends with a line at a place.
pub(crate) fn ends_line(place: Place, words: &[Keyword]) -> bool
    ensures { result ≡ ends_line place words.now }
{
    match place {
        Place::Front => !is_skipped(words) && !opens(words),
        Place::Group => is_end(words),
    }
}

// Where the line behind one at a place stands.
pub(crate) fn place_behind(place: Place, words: &[Keyword]) -> Place
    ensures { result ≡ place_behind place words.now }
{
    match place {
        Place::Front => if opens(words) {
            Place::Group
        } else {
            Place::Front
        },
        Place::Group => if is_end(words) {
            Place::Front
        } else {
            Place::Group
        },
    }
}

// What an item is, by its first line.
pub(crate) fn kind_of(words: &[Keyword]) -> ItemKind
    ensures { result ≡ kind_of words.now }
{
    match words {
        [Keyword::Question, ..] => ItemKind::Question,
        [Keyword::Adept, Keyword::Format] => ItemKind::Header,
        _ => ItemKind::Unit,
    }
}
