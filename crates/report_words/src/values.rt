// Values of elements.
ghost use Rattle.std.specs.{Prelude.{◌≡◌, ◌+◌, flat_map, take}, List.position};
ghost use Rattle.adept_io.specs.Written.{Gives};
ghost use Rattle.report_words.specs.Words.{EndsRun, escaped, is_escaped, text_in_quotes, value_text, value_or_none, assigned, read_text};

use crate::words::put_element_is;
use adept_io::{Sink, put, put_integer};
use file_model::File;
use wsm_schema::Value;

/// A value: an integer in decimal, or a text in quotes.
pub fn put_value<K: Sink>(sink: &mut K, ok: bool, value: &Value) -> bool
    ensures { Gives K.written K.faults ok result sink.old sink.new (value_text value.now) }
{
    match value {
        Value::Int(n) => put_integer(sink, ok, *n),
        Value::Text(text) => put_quoted(sink, ok, text.bytes()),
    }
}

fn put_quoted<K: Sink>(sink: &mut K, ok: bool, text: &[u8]) -> bool
    ensures { Gives K.written K.faults ok result sink.old sink.new (text_in_quotes text.now) }
{
    let ok = put(sink, ok, b"\"");
    let ok = put_escaped(sink, ok, text);
    put(sink, ok, b"\"")
}

// A text in runs: up to the next byte that stands behind a backslash, that byte, and so on.
fn put_escaped<K: Sink>(sink: &mut K, ok: bool, text: &[u8]) -> bool
    ensures { Gives K.written K.faults ok result sink.old sink.new (flat_map escaped text.now) }
{
    let mut well = ok;
    let mut rest = text;
    while let Some(at) = first_escaped(rest) {
        well = put_run(sink, well, rest, at);
        let (_, marked) = rest.split_at(at);
        let (_, more) = marked.split_at(1);
        rest = more;
    }
    put(sink, well, rest)
}

// Where the first byte stands that stands behind a backslash in a quoted text.
fn first_escaped(text: &[u8]) -> Option<usize>
    ensures { result ≡ position is_escaped text.now }
{
    text.iter().position(|byte| is_escaped(*byte))
}

fn is_escaped(byte: u8) -> bool
    ensures { result ≡ is_escaped byte }
{
    byte == b'"' || byte == b'\\'
}

// The bytes before that place, and the one there behind a backslash.
fn put_run<K: Sink>(sink: &mut K, ok: bool, text: &[u8], at: usize) -> bool
    requires { EndsRun text.now at }
    ensures { Gives K.written K.faults ok result sink.old sink.new (flat_map escaped (take (at + 1) text.now)) }
{
    let ok = put(sink, ok, &text[..at]);
    put(sink, ok, &[b'\\', text[at]])
}

/// An element behind a space, and its value.
#[tactic(auto, using(adept_io::proofs::Sent::gives_then))]
pub fn put_assigned<K: Sink>(
    sink: &mut K,
    ok: bool,
    file: &File,
    element: u32,
    value: &Value,
) -> bool
    ensures { Gives K.written K.faults ok result sink.old sink.new (assigned file.now (element, value.now)) }
{
    let ok = put_element_is(sink, ok, file, element);
    put_value(sink, ok, value)
}

fn put_value_or_none<K: Sink>(sink: &mut K, ok: bool, value: &Option<Value>) -> bool
    ensures { Gives K.written K.faults ok result sink.old sink.new (value_or_none value.now) }
{
    match value {
        None => put(sink, ok, b"-"),
        Some(value) => put_value(sink, ok, value),
    }
}

#[tactic(auto, using(adept_io::proofs::Sent::gives_then))]
fn put_read<K: Sink>(sink: &mut K, ok: bool, file: &File, read: &(u32, Option<Value>)) -> bool
    ensures { Gives K.written K.faults ok result sink.old sink.new (read_text file.now read.now) }
{
    let ok = put_element_is(sink, ok, file, read.0);
    put_value_or_none(sink, ok, &read.1)
}

/// The values that a start read.
pub fn put_reads<K: Sink>(
    sink: &mut K,
    ok: bool,
    file: &File,
    reads: &[(u32, Option<Value>)],
) -> bool
    ensures { Gives K.written K.faults ok result sink.old sink.new (flat_map (read_text file.now) reads.now) }
{
    let mut well = ok;
    for read in reads {
        well = put_read(sink, well, file, read);
    }
    well
}

/// The values that an end wrote.
pub fn put_writes<K: Sink>(sink: &mut K, ok: bool, file: &File, writes: &[(u32, Value)]) -> bool
    ensures { Gives K.written K.faults ok result sink.old sink.new (flat_map (assigned file.now) writes.now) }
{
    let mut well = ok;
    for write in writes {
        well = put_assigned(sink, well, file, write.0, &write.1);
    }
    well
}
