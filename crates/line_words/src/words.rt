// The first word of a line.
ghost use Rattle.std.specs.Prelude.{◌≡◌, ◌≤◌, ◌+◌, length, drop, IsTrue, MatchOption, [], ◌∷◌};
ghost use Rattle.file_words.specs.declared.words.Quote.TheVariants.{Outside};
ghost use Rattle.file_words.specs.Words.{bare_end, begins_word, behind, cuts, is_bare, word_end, words_of};
ghost use Rattle.line_words.specs.Standing.{quoted};

/// Where a byte of a line stands: outside a quoted text, inside one, or there behind a backslash.
#[derive(Clone, Copy, Debug, PartialEq, Eq)]
pub enum Stand {
    Outside,
    Inside,
    Escaped,
}

/// Where the byte behind one stands.
#[inline]
pub fn behind(stand: Stand, byte: u8) -> Stand
    ensures { quoted result ≡ behind (quoted stand) byte }
{
    match (stand, byte) {
        (Stand::Outside, b'"') => Stand::Inside,
        (Stand::Outside, _) => Stand::Outside,
        (Stand::Inside, b'\\') => Stand::Escaped,
        (Stand::Inside, b'"') => Stand::Outside,
        (Stand::Inside | Stand::Escaped, _) => Stand::Inside,
    }
}

/// Whether a byte ends a word.
#[inline]
pub fn cuts(stand: Stand, byte: u8) -> bool
    ensures { result ≡ cuts (quoted stand) byte }
{
    stand == Stand::Outside && matches!(byte, b' ' | b'\t')
}

// The line without the blanks at its front.
#[inline]
fn without_blanks(line: &[u8]) -> &[u8]
    ensures same { words_of result.now ≡ words_of line.now }
    ensures word { IsTrue (begins_word result.now) }
{
    let mut rest = line;
    while let [b' ' | b'\t', more @ ..] = rest {
        rest = more;
    }
    rest
}

// Whether a byte neither separates words nor begins a quoted text.
#[inline]
fn is_bare(byte: u8) -> bool
    ensures { result ≡ is_bare byte }
{
    byte > b'"' || !matches!(byte, b' ' | b'\t' | b'"')
}

// How many bare bytes a line begins with.
#[inline]
fn bare_end(line: &[u8]) -> usize
    ensures within { result ≤ length line.now }
    ensures end { result ≡ bare_end line.now }
{
    let mut end = 0;
    while end < line.len() && is_bare(line[end]) {
        end += 1;
    }
    end
}

// Where a word ends that goes on at `front`, outside of a quoted text.
#[inline(never)]
fn quoted_end(line: &[u8], front: usize) -> usize
    requires within { front ≤ length line.now }
    ensures within { result ≤ length line.now }
    ensures end { result ≡ front + word_end Outside (drop front line.now) }
{
    let mut stand = Stand::Outside;
    let mut end = front;
    while end < line.len() && !cuts(stand, line[end]) {
        stand = behind(stand, line[end]);
        end += 1;
    }
    end
}

// How long the word is that begins a line.
#[inline]
fn word_end(line: &[u8]) -> usize
    ensures within { result ≤ length line.now }
    ensures end { result ≡ word_end Outside line.now }
{
    let front = bare_end(line);
    if front < line.len() && line[front] == b'"' {
        quoted_end(line, front)
    } else {
        front
    }
}

/// The first word of a line, and the line behind it.
#[inline]
pub fn first_word(line: &[u8]) -> Option<(&[u8], &[u8])>
    ensures { MatchOption result (words_of line.now ≡ []) (λ p. words_of line.now ≡ p.0.now ∷ words_of p.1.now) }
{
    let rest = without_blanks(line);
    if rest.is_empty() {
        return None;
    }
    let (word, more) = rest.split_at(word_end(rest));
    Some((word, more))
}
