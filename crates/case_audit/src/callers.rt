// Whose call a line of a journal shows.
ghost use Rattle.std.specs.Prelude.{◌≡◌, ◌≤◌, length};
ghost use Rattle.case_audit.specs.Common.{begins_with_word, caller_in, named_from};

use file_model::{ActorDecl, File};
use itoa::Buffer;

/// The actor whose call with this number the text begins with.
pub fn caller_in(file: &File, place: u64, text: &[u8]) -> Option<u32>
    requires { length file.now.actors ≤ 32 }
    ensures { result ≡ caller_in file.now place text.now }
{
    let mut buffer = Buffer::new();
    let behind = text.strip_prefix(buffer.format(place).as_bytes())?;
    let behind = behind.strip_prefix(b" ")?;
    actor_in(file.actors.as_slice(), behind)
}

// The first actor whose name the text begins with, with a space behind it.
fn actor_in(actors: &[ActorDecl], text: &[u8]) -> Option<u32>
    requires { length actors.now ≤ 32 }
    ensures { result ≡ named_from text.now 1 actors.now }
{
    let mut number = 0;
    for actor in actors {
        number += 1;
        if begins_with_word(text, actor.name.bytes()) {
            return Some(number);
        }
    }
    None
}

fn begins_with_word(text: &[u8], word: &[u8]) -> bool
    ensures { result ≡ begins_with_word word.now text.now }
{
    match text.strip_prefix(word) {
        None => false,
        Some(behind) => behind.strip_prefix(b" ").is_some(),
    }
}
