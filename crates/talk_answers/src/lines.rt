// The last line of an answer, and bytes that are told as they are.
ghost use Rattle.std.specs.Prelude.{◌≡◌, ◌++◌, flat_map};
ghost use Rattle.adept_io.specs.Written.{Gives};
ghost use Rattle.talk_answers.specs.Lines.{no_line, ok_line, quoted, quoted_line};

use adept_io::{Sink, put_pieces};
use file_words::first_line;
use itoa::Buffer;

/// An answer ends well: so many units are held.
pub fn put_ok<K: Sink>(sink: &mut K, ok: bool, count: u64) -> bool
    ensures { Gives K.written K.faults ok result sink.old sink.new (ok_line count) }
{
    let mut number = Buffer::new();
    put_pieces(sink, ok, &[b"ok ", number.format(count).as_bytes(), b"\n"])
}

/// What was said is refused in a line of it, for this reason.
pub fn put_no<K: Sink>(sink: &mut K, ok: bool, line: u64, text: &[u8]) -> bool
    ensures { Gives K.written K.faults ok result sink.old sink.new (no_line line text.now) }
{
    let mut number = Buffer::new();
    put_pieces(
        sink,
        ok,
        &[b"no ", number.format(line).as_bytes(), b" ", text, b"\n"],
    )
}

/// The lines of bytes that end, each behind a bar.
pub fn put_quoted<K: Sink>(sink: &mut K, ok: bool, bytes: &[u8]) -> bool
    ensures { Gives K.written K.faults ok result sink.old sink.new (quoted bytes.now) }
{
    let mut well = ok;
    let mut rest = bytes;
    while let Some((line, more)) = first_line(rest) {
        well = put_quoted_line(sink, well, line);
        rest = more;
    }
    well
}

fn put_quoted_line<K: Sink>(sink: &mut K, ok: bool, line: &[u8]) -> bool
    ensures { Gives K.written K.faults ok result sink.old sink.new (quoted_line line.now) }
{
    put_pieces(sink, ok, &[b"| ", line, b"\n"])
}
