// The words of the command line.
ghost use Rattle.std.specs.Prelude.{◌≡◌, ◌≤◌, map, string_bytes, IfSome};
ghost use Rattle.adept_top.specs.Commands.{case_count, load_size, command_of, command_word, load_words};

use file_limits::MAX_CASES;
use file_words::code;

/// What the program can be told to do.
#[derive(Clone, Copy)]
pub enum Command {
    /// Works a process file with a crew of actors in threads, and writes the report.
    Run,
    /// Works a process file line by line, and writes the report.
    Play,
    /// Says of each type and each new version whether it is sound.
    Check,
    /// Works a large process file, made for so many cases, with a crew, and writes the last line of the report.
    Load(u32),
}

impl Command {
    /// The command that the words stand for. None where they stand for none.
    pub fn of(words: &[String]) -> Option<Command>
        ensures command { result ≡ command_of (map string_bytes words.now) }
        ensures cases { IfSome result (λ c. IfSome (load_size c) (λ n. (1 ≤ n) × (n ≤ MAX_CASES))) }
    {
        match words {
            [word] => Command::of_word(word.as_str()),
            [word, number] => Command::of_two(word.as_str(), number.as_str()),
            _ => None,
        }
    }

    fn of_word(word: &str) -> Option<Command>
        ensures { result ≡ command_word word.now }
    {
        if word == "run" {
            Some(Command::Run)
        } else if word == "play" {
            Some(Command::Play)
        } else if word == "check" {
            Some(Command::Check)
        } else {
            None
        }
    }

    fn of_two(word: &str, number: &str) -> Option<Command>
        ensures { result ≡ load_words word.now number.now }
    {
        if word == "load" {
            case_count(number.as_bytes()).map(Command::Load)
        } else {
            None
        }
    }

    /// How many cases the command makes. None where it reads its file.
    pub fn cases(self) -> Option<u32>
        ensures { result ≡ load_size self }
    {
        match self {
            Command::Load(cases) => Some(cases),
            Command::Run => None,
            Command::Play => None,
            Command::Check => None,
        }
    }
}

// How many cases a word asks for.
fn case_count(word: &[u8]) -> Option<u32>
    ensures { result ≡ case_count word.now }
{
    if word.len() > 4 {
        return None;
    }
    match code(word) {
        Some(count @ 1..=4096) => Some(count.into()),
        _ => None,
    }
}
