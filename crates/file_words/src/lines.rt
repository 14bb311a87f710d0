// Lines of bytes.
ghost use Rattle.std.specs.{Prelude.{◌≡◌, ◌<◌, ◌≤◌, length, IfSome, MatchOption}, Str.is_utf8};
ghost use Rattle.file_words.specs.Lines.{lines_of, line_end, one_left, front_line, without_return};

/// How long the first line is.
fn line_end(bytes: &[u8]) -> usize
    ensures within { result ≤ length bytes.now }
    ensures end { result ≡ line_end bytes.now }
{
    let mut i = 0;
    while i < bytes.len() && bytes[i] != b'\n' {
        i += 1;
    }
    i
}

/// The first line, and the bytes behind its line feed. None where there is no line feed.
pub fn first_line(bytes: &[u8]) -> Option<(&[u8], &[u8])>
    ensures split { MatchOption result (lines_of bytes.now ≡ one_left bytes.now) (λ p. lines_of bytes.now ≡ front_line p.0.now (lines_of p.1.now)) }
    ensures shorter { IfSome result (λ p. length p.1.now < length bytes.now) }
{
    let (line, rest) = bytes.split_at(line_end(bytes));
    match rest {
        [] => None,
        [_, more @ ..] => Some((line, more)),
    }
}

/// The line without the carriage return at its end, where it has one.
pub fn without_return(line: &[u8]) -> &[u8]
    ensures { result.now ≡ without_return line.now }
{
    let n = line.len();
    if 0 < n && line[n - 1] == b'\r' {
        &line[..n - 1]
    } else {
        line
    }
}

/// Whether the bytes are UTF-8.
pub fn is_text(line: &[u8]) -> bool
    ensures { result ≡ is_utf8 line.now }
{
    match std::str::from_utf8(line) {
        Ok(_) => true,
        Err(_) => false,
    }
}
