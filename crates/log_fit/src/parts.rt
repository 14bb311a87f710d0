// The parts of an input.
ghost use Rattle.std.specs.Prelude.{◌≡◌, ◌≤◌, length, IfSome};
ghost use Rattle.log_fit.specs.Parts.{parts_of, shown_parts};

use file_words::{first_line, without_return};

/// The bytes of a process file, and those of the log that stands behind a line `log`, where there is such a line.
#[derive(Clone, Copy)]
pub(crate) struct InputParts<'a> {
    pub(crate) file: &'a [u8],
    pub(crate) log: Option<&'a [u8]>,
}

/// The input divided at its first line `log`.
pub(crate) fn parts_of(input: &[u8]) -> InputParts<'_>
    ensures parts { shown_parts result ≡ parts_of input.now }
    ensures within { IfSome result.log (λ log. length log.now ≤ length input.now) }
{
    let mut rest = input;
    while let Some((line, more)) = first_line(rest) {
        if without_return(line) == b"log".as_slice() {
            let (file, _) = input.split_at(input.len() - rest.len());
            return InputParts {
                file,
                log: Some(more),
            };
        }
        rest = more;
    }
    if rest != b"log".as_slice() {
        return InputParts {
            file: input,
            log: None,
        };
    }
    let (file, _) = input.split_at(input.len() - rest.len());
    InputParts {
        file,
        log: Some(b"".as_slice()),
    }
}
