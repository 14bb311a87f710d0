// Where a process file ends and a report begins.
ghost use Rattle.std.specs.Prelude.{◌≡◌, ◌≤◌, length};
ghost use Rattle.case_audit.specs.Common.{begins_report, file_length, file_part, report_part};

use file_words::first_line;

/// The process file, and the report that begins at the first line that says so. Without such a line the report is empty.
pub fn divided(bytes: &[u8]) -> (&[u8], &[u8])
    ensures file { result.0.now ≡ file_part bytes.now }
    ensures report { result.1.now ≡ report_part bytes.now }
{
    bytes.split_at(file_length(bytes))
}

// How many bytes stand before the first line that begins a report.
fn file_length(bytes: &[u8]) -> usize
    ensures length { result ≡ file_length bytes.now }
    ensures within { result ≤ length bytes.now }
{
    let mut before = 0;
    let mut rest = bytes;
    while let Some((line, more)) = first_line(rest) {
        if begins_report(line) {
            return before;
        }
        before += line.len() + 1;
        rest = more;
    }
    if begins_report(rest) {
        before
    } else {
        before + rest.len()
    }
}

fn begins_report(line: &[u8]) -> bool
    ensures { result ≡ begins_report line.now }
{
    line == b"adept report 1".as_slice()
        || line == b"adept report 2".as_slice()
        || line == b"adept report 3".as_slice()
}
