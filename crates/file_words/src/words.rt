// Words of a line.
ghost use Rattle.std.specs.Prelude.{◌≡◌, ◌≤◌, ◌+◌, length, drop, IfOk, OnOk, IsTrue, MatchOption, [], ◌∷◌};
ghost use Rattle.file_words.specs.declared.words.Quote.TheVariants.{Outside};
ghost use Rattle.file_words.specs.{Words.{cuts, behind, words_of, word_end, is_bare, bare_end, begins_word, is_comment, is_skipped}, Shown.shown};

use std::alloc::Global;
use wsm_lists::NoMemory;

/// Where a byte of a line stands: outside a quoted text, inside one, or there behind a backslash.
#[derive(Clone, Copy, PartialEq, Eq, Debug)]
pub enum Quote {
    Outside,
    Inside,
    Escaped,
}

fn behind(quote: Quote, byte: u8) -> Quote
    ensures { result ≡ behind quote byte }
{
    match quote {
        Quote::Outside => if byte == b'"' {
            Quote::Inside
        } else {
            Quote::Outside
        },
        Quote::Inside => if byte == b'\\' {
            Quote::Escaped
        } else if byte == b'"' {
            Quote::Outside
        } else {
            Quote::Inside
        },
        Quote::Escaped => Quote::Inside,
    }
}

fn cuts(quote: Quote, byte: u8) -> bool
    ensures { result ≡ cuts quote byte }
{
    match quote {
        Quote::Outside => byte == b' ' || byte == b'\t',
        Quote::Inside | Quote::Escaped => false,
    }
}

/// The line without the blanks at its front.
fn skip_blanks(line: &[u8]) -> &[u8]
    ensures same { words_of result.now ≡ words_of line.now }
    ensures word { IsTrue (begins_word result.now) }
{
    let mut rest = line;
    while let [b' ' | b'\t', more @ ..] = rest {
        rest = more;
    }
    rest
}

/// A byte that neither separates words nor begins a quoted text.
fn is_bare(byte: u8) -> bool
    ensures { result ≡ is_bare byte }
{
    byte > b'"' || !matches!(byte, b' ' | b'\t' | b'"')
}

/// How many bare bytes the line begins with.
fn bare_end(line: &[u8]) -> usize
    ensures within { result ≤ length line.now }
    ensures end { result ≡ bare_end line.now }
{
    let mut i = 0;
    while i < line.len() && is_bare(line[i]) {
        i += 1;
    }
    i
}

/// Where a word ends that goes on at `front`, outside of a quoted text.
fn quoted_end(line: &[u8], front: usize) -> usize
    requires within { front ≤ length line.now }
    ensures within { result ≤ length line.now }
    ensures end { result ≡ front + word_end Outside (drop front line.now) }
{
    let mut quote = Quote::Outside;
    let mut i = front;
    while i < line.len() && !cuts(quote, line[i]) {
        quote = behind(quote, line[i]);
        i += 1;
    }
    i
}

/// How long the word is that begins the line.
fn word_end(line: &[u8]) -> usize
    ensures within { result ≤ length line.now }
    ensures end { result ≡ word_end Outside line.now }
{
    let front = bare_end(line);
    if front < line.len() && line[front] == b'"' {
        quoted_end(line, front)
    } else {
        front
    }
}

/// The first word, and the line behind it.
fn first_word(line: &[u8]) -> Option<(&[u8], &[u8])>
    ensures { MatchOption result (words_of line.now ≡ []) (λ p. words_of line.now ≡ p.0.now ∷ words_of p.1.now) }
{
    let rest = skip_blanks(line);
    if rest.is_empty() {
        return None;
    }
    let (word, more) = rest.split_at(word_end(rest));
    Some((word, more))
}

/// The words of a line, which stay where they lie. Inside a quoted text a blank separates nothing.
pub fn words_of<'a>(alloc: Global, line: &'a [u8]) -> Result<Vec<&'a [u8]>, NoMemory>
    ensures { IfOk result (λ ws. shown ws.items ≡ words_of line.now) }
{
    let mut words = Vec::new(alloc);
    read_words(&mut words, line)?;
    Ok(words)
}

/// The words of a line, which take the place of those in the list. So a list serves for many lines, and takes memory once.
pub fn read_words<'a>(words: &mut Vec<&'a [u8]>, line: &'a [u8]) -> Result<(), NoMemory>
    ensures { OnOk result (shown words.new.items ≡ words_of line.now) }
{
    words.clear();
    let mut rest = line;
    while let Some((word, more)) = first_word(rest) {
        words.push(word)?;
        rest = more;
    }
    Ok(())
}

fn is_comment(word: &[u8]) -> bool
    ensures { result ≡ is_comment word.now }
{
    match word {
        [] => false,
        [first, ..] => *first == b'#',
    }
}

/// Whether a line of these words says nothing: it has none, or it is a comment.
pub fn is_skipped(words: &[&[u8]]) -> bool
    ensures { result ≡ is_skipped (shown words.now) }
{
    match words {
        [] => true,
        [first, ..] => is_comment(*first),
    }
}
