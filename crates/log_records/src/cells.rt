// What the fields of a record say.
ghost use Rattle.std.specs.{Prelude.{◌≡◌, ◌==◌, ◌<◌, ◌+◌, ◌^◌, Some, IfOk, length, sum_by, map}, Option.option_map};
ghost use Rattle.csv.specs.Records.{fields_of};
ghost use Rattle.file_words.specs.{Shown.{shown, shown_literal}, Words.words_of};
ghost use Rattle.log_records.specs.{Forms.{cells_of, choice, end_of, event_of, is_short, is_spaced, none_unless, pairs, record_of, said, start_of, write_word, writes}, Shown.shown_cells, Told.{are_titles, is_head}};

use crate::places::NamePlaces;
use crate::records::{LogEvent, LogRecord};
use csv::ByteRecord;
use file_names::{Name64, is_short_name};
use file_words::{Literal, code, is_text, pair, role, words_of};
use std::alloc::Global;
use wsm_lists::{NoMemory, ShortText, Value, Writes};

// The fields of a record that has six.
#[derive(Clone, Copy)]
struct Cells<'a> {
    case: &'a [u8],
    kind: &'a [u8],
    node: &'a [u8],
    user: &'a [u8],
    choice: &'a [u8],
    writes: &'a [u8],
}

// Nothing, or a code.
fn choice_of(word: &[u8]) -> Option<Option<u16>>
    ensures { result ≡ choice word.now }
{
    match word {
        [] => Some(None),
        _ => Some(Some(code(word)?)),
    }
}

// The value of a literal. None where its text is too long.
fn value_of(alloc: Global, literal: &Literal) -> Result<Option<Value>, NoMemory>
    ensures { IfOk result (λ value. value ≡ none_unless (is_short (shown_literal literal.now)) (Some (shown_literal literal.now))) }
{
    match literal {
        Literal::Int(n) => Ok(Some(Value::Int(*n))),
        Literal::Text(bytes) => match ShortText::of(alloc, bytes)? {
            Some(text) => Ok(Some(Value::Text(text))),
            None => Ok(None),
        },
    }
}

// An element and its value, where the word is such a pair.
fn write_of(
    alloc: Global,
    elements: &NamePlaces<'_>,
    word: &[u8],
) -> Result<Option<(u32, Value)>, NoMemory>
    ensures { IfOk result (λ write. write ≡ write_word elements.now word.now) }
{
    let Some((name, literal)) = pair(alloc, word)? else {
        return Ok(None);
    };
    let Some(value) = value_of(alloc, &literal)? else {
        return Ok(None);
    };
    match elements.find(name.bytes) {
        None => Ok(None),
        Some(element) => Ok(Some((element, value))),
    }
}

fn pairs_of(
    alloc: Global,
    elements: &NamePlaces<'_>,
    words: &[&[u8]],
) -> Result<Option<Writes>, NoMemory>
    ensures { IfOk result (λ found. found ≡ pairs elements.now (shown words.now)) }
{
    let mut writes = Writes::new(alloc);
    for word in words {
        match write_of(alloc, elements, *word)? {
            None => return Ok(None),
            Some(write) => writes.push(write)?,
        }
    }
    Ok(Some(writes))
}

// How long a line is that has these words with a single space behind each.
fn spread(words: &[&[u8]]) -> usize
    requires { sum_by (λ w. length w.now + 1) words.now < 2 ^ 64 }
    ensures { result ≡ sum_by (λ w. length w.now + 1) words.now }
{
    words.iter().map(|word| word.len() + 1).sum()
}

// Whether single spaces stand between the words, and nothing else.
fn is_spaced(line: &[u8], words: &[&[u8]]) -> bool
    requires { shown words.now ≡ words_of line.now }
    ensures { result ≡ is_spaced line.now }
{
    if !is_text(line) || line.contains(&b'\t') {
        return false;
    }
    spread(words) == line.len() + 1
}

// Nothing, or pairs.
fn writes_of(
    alloc: Global,
    elements: &NamePlaces<'_>,
    line: &[u8],
) -> Result<Option<Writes>, NoMemory>
    ensures { IfOk result (λ found. found ≡ writes elements.now line.now) }
{
    if line.is_empty() {
        return Ok(Some(Writes::new(alloc)));
    }
    let words = words_of(alloc, line)?;
    if !is_spaced(line, &words) {
        return Ok(None);
    }
    pairs_of(alloc, elements, &words)
}

impl<'a> Cells<'a> {
    fn of(row: &'a ByteRecord) -> Option<Cells<'a>>
        ensures { option_map shown_cells result ≡ cells_of (fields_of row.now) }
    {
        if row.len() != 6 {
            return None;
        }
        Some(Cells {
            case: row.get(0)?,
            kind: row.get(1)?,
            node: row.get(2)?,
            user: row.get(3)?,
            choice: row.get(4)?,
            writes: row.get(5)?,
        })
    }

    fn are_titles(&self) -> bool
        ensures { result ≡ are_titles (Some (shown_cells self.now)) }
    {
        self.case == b"case".as_slice()
            && self.kind == b"event".as_slice()
            && self.node == b"node".as_slice()
            && self.user == b"user".as_slice()
            && self.choice == b"choice".as_slice()
            && self.writes == b"writes".as_slice()
    }

    // A start has neither a choice nor writes.
    fn start(&self, node: Option<u32>, user: u32) -> Option<LogEvent>
        ensures { result ≡ start_of node user (shown_cells self.now) }
    {
        if self.choice.is_empty() && self.writes.is_empty() {
            Some(LogEvent::Start { node, user })
        } else {
            None
        }
    }

    fn end(
        &self,
        alloc: Global,
        elements: &NamePlaces<'_>,
        node: Option<u32>,
        user: u32,
    ) -> Result<Option<LogEvent>, NoMemory>
        ensures { IfOk result (λ event. event ≡ end_of elements.now node user (shown_cells self.now)) }
    {
        let Some(choice) = choice_of(self.choice) else {
            return Ok(None);
        };
        let Some(writes) = writes_of(alloc, elements, self.writes)? else {
            return Ok(None);
        };
        Ok(Some(LogEvent::End {
            node,
            user,
            writes,
            choice,
        }))
    }

    fn event(
        &self,
        alloc: Global,
        elements: &NamePlaces<'_>,
        node: Option<u32>,
        user: u32,
    ) -> Result<Option<LogEvent>, NoMemory>
        ensures { IfOk result (λ event. event ≡ event_of elements.now node user (shown_cells self.now)) }
    {
        if self.kind == b"start".as_slice() {
            Ok(self.start(node, user))
        } else if self.kind == b"end".as_slice() {
            self.end(alloc, elements, node, user)
        } else {
            Ok(None)
        }
    }

    fn said(
        &self,
        alloc: Global,
        nodes: &NamePlaces<'_>,
        elements: &NamePlaces<'_>,
    ) -> Result<Option<LogRecord>, NoMemory>
        ensures { IfOk result (λ found. found ≡ said nodes.now elements.now (shown_cells self.now)) }
    {
        let Some(case) = Name64::of(alloc, self.case)? else {
            return Ok(None);
        };
        if !is_short_name(self.node) {
            return Ok(None);
        }
        let Some(user) = role(self.user) else {
            return Ok(None);
        };
        let node = nodes.find(self.node);
        match self.event(alloc, elements, node, user)? {
            None => Ok(None),
            Some(event) => Ok(Some(LogRecord { case, event })),
        }
    }
}

/// Whether a record is the first of a log, which names the fields.
pub fn is_head(row: &ByteRecord) -> bool
    ensures { result ≡ is_head (fields_of row.now) }
{
    match Cells::of(row) {
        None => false,
        Some(cells) => cells.are_titles(),
    }
}

/// What a record says, where nodes and elements have these names. None where it is not of the form: its case and its node
/// are names, its event is `start` or `end`, its user is a number, and a start has no more.
pub fn record_of(
    alloc: Global,
    nodes: &NamePlaces<'_>,
    elements: &NamePlaces<'_>,
    row: &ByteRecord,
) -> Result<Option<LogRecord>, NoMemory>
    ensures { IfOk result (λ found. found ≡ record_of nodes.now elements.now (fields_of row.now)) }
{
    match Cells::of(row) {
        None => Ok(None),
        Some(cells) => cells.said(alloc, nodes, elements),
    }
}
