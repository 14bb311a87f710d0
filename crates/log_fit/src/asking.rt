// The words of the command line.
ghost use Rattle.std.specs.{Prelude.{◌≡◌, map, string_bytes, Some, None, if◌then◌else◌}, Option.option_map};
ghost use Rattle.file_words.specs.Numbers.{value_from};
ghost use Rattle.log_fit.specs.Asked.{asked, is_version_number, shown_question, two_words};

use file_names::is_short_name;
use file_words::code;

/// What is asked: a version of a type, by the type's name and the version's number.
#[derive(Clone, Copy)]
pub(crate) struct Asked<'a> {
    pub(crate) name: &'a [u8],
    pub(crate) number: u32,
}

// The number of a version: 1 to 256, in at most three digits.
fn version_number(word: &[u8]) -> Option<u32>
    ensures { result ≡ (if is_version_number word.now then Some (value_from 0 word.now) else None) }
{
    if word.len() > 3 {
        return None;
    }
    match code(word) {
        Some(number @ 1..=256) => Some(number.into()),
        _ => None,
    }
}

impl<'a> Asked<'a> {
    /// What the words ask. None where they are not the name of a type and the number of a version.
    pub(crate) fn of(words: &'a [String]) -> Option<Asked<'a>>
        ensures { option_map shown_question result ≡ asked (map string_bytes words.now) }
    {
        match words {
            [_name] => None,
            [name, number] => Asked::of_two(name.as_bytes(), number.as_bytes()),
            _ => None,
        }
    }

    fn of_two(name: &'a [u8], number: &[u8]) -> Option<Asked<'a>>
        ensures { option_map shown_question result ≡ two_words name.now number.now }
    {
        if !is_short_name(name) {
            return None;
        }
        let number = version_number(number)?;
        Some(Asked { name, number })
    }
}
