// A responder to lines, of which some are kept.
ghost use Rattle.std.specs.Prelude.{◌≡◌, ◌==◌, ◌≤◌, ◌^◌, ◌++◌, [], length, IfOk, OnOk, position};
ghost use Rattle.turn_loop.specs.Counting.{begins_with_plus, word};

use crate::responders::Responder;
use adept_io::NoMemory;
use std::alloc::Global;
use store_disk::{Group, MAX_IMAGE};

/// Keeps the lines that begin with a plus, as long as they find room, and answers each line with a plus or a minus. It
/// knows no more of those that it kept than how long their records are.
#[derive(Drop)]
pub struct PlusLines {
    long: u64,
    line: Vec<u8>,
    ghost short: { long ≤ 2 ^ 30 },
}

impl PlusLines {
    /// A responder over records of so many bytes.
    pub fn new(alloc: Global, long: u64) -> PlusLines
        requires { long ≤ 2 ^ 30 }
        ensures long { result.long ≡ long }
        ensures line { result.line.items ≡ [] }
    {
        PlusLines {
            long,
            line: Vec::new(alloc),
        }
    }
}

// Whether a line begins with a plus.
fn has_plus(line: &[u8]) -> bool
    ensures { result ≡ begins_with_plus line.now }
{
    match line {
        [] => false,
        [first, ..] => *first == b'+',
    }
}

// The index of the first line feed.
fn feed_at(bytes: &[u8]) -> Option<usize>
    ensures { result ≡ position (λ byte. byte == 10) bytes.now }
{
    bytes.iter().position(|byte| *byte == b'\n')
}

// Says whether a line was kept.
fn say(text: &mut Vec<u8>, kept: bool) -> Result<(), NoMemory>
    ensures { OnOk result (text.new.items ≡ text.old.items ++ word kept) }
{
    if kept {
        text.extend_from_slice(b"+\n")?;
    } else {
        text.extend_from_slice(b"-\n")?;
    }
    Ok(())
}

impl Responder for PlusLines {
    ghost use Rattle.std.specs.Prelude.{◌≡◌, ◌≤◌, ◌<◌, ◌^◌, ◌++◌, [], ℕ, List, length, IfOk, IfSome, OnOk};
    ghost use Rattle.store_disk.specs.Image.{all_framed};
    ghost use Rattle.turn_loop.specs.Counting.{line_rules, line-fits};
    ghost use Rattle.turn_loop.specs.Talk.{IsItem, Takes, held_behind, payload_of, taken_of};

    ghost rules = { line_rules };

    ghost holds = { λ lines first ps begun. (lines.long ≡ length (all_framed ps)) × (lines.line.items ≡ begun) };

    fn take(&mut self, bytes: &[u8]) -> Result<Option<usize>, NoMemory> {
        match feed_at(bytes) {
            None => {
                self.line.extend_from_slice(bytes)?;
                Ok(None)
            }
            Some(index) => {
                let (front, _) = bytes.split_at(index + 1);
                self.line.extend_from_slice(front)?;
                Ok(Some(index + 1))
            }
        }
    }

    fn work(&mut self, text: &mut Vec<u8>, group: &mut Group) -> Result<(), NoMemory> {
        let with_it = self.long + 5 + self.line.len() as u64;
        let kept = has_plus(&self.line) && with_it < MAX_IMAGE;
        say(text, kept)?;
        if kept {
            group.push(&self.line)?;
            self.long = with_it;
        }
        self.line.clear();
        Ok(())
    }

    fn close(&mut self, text: &mut Vec<u8>) -> Result<(), NoMemory> {
        if self.line.is_empty() {
            return Ok(());
        }
        say(text, false)
    }

    ghost fits = { line-fits };
}
