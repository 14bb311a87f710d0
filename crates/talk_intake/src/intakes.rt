// The item that is being taken.
ghost use Rattle.std.specs.Prelude.{◌≡◌, ◌<◌, ◌≤◌, ◌++◌, ◌↔◌, [], length, IfOk, IfSome, IsTrue};
ghost use Rattle.talk_items.specs.Items.{counted, ends, is_blank, item_end, kind};
ghost use Rattle.turn_loop.specs.Talk.{Takes, taken_of};

use adept_io::NoMemory;
use std::alloc::Global;
use std::marker::Model;
use talk_items::{ItemKind, MAX_ITEM, Scanner};
use turn_loop::Begun;

// The bytes up to the end of an item, or all where it goes on behind them.
fn front_of(bytes: &[u8], end: Option<usize>) -> &[u8]
    requires { IfSome end (λ n. n ≤ length bytes.now) }
    ensures { result.now ≡ taken_of end bytes.now }
{
    match end {
        None => bytes,
        Some(len) => {
            let (front, _) = bytes.split_at(len);
            front
        }
    }
}

/// The bytes of an item so far. Of more than an item may have no more are kept than tell that they are too many.
#[derive(Drop)]
pub struct Intake {
    scanner: Scanner,
    begun: Begun,
}

impl Model for Intake {
    ghost use Rattle.std.specs.Prelude.{◌≡◌, ℕ, List, take};

    ghost Value = { List ℕ };

    ghost view = { λ a. a.scanner };

    ghost invariant = { λ a. a.begun ≡ take 8388609 a.scanner };
}

impl Intake {
    /// No bytes: an item is to begin. Takes no memory.
    pub fn new(alloc: Global) -> Intake
        ensures { result ≡ [] }
    {
        Intake {
            scanner: Scanner::new(),
            begun: Begun::new(alloc),
        }
    }

    /// Takes bytes of the item, up to its end, and answers how many, or None where it goes on behind all.
    #[tactic(auto, using(crate::proofs::Ends::item_takes, crate::proofs::Ends::item_within, crate::proofs::Ends::item_some))]
    pub fn take(&mut self, bytes: &[u8]) -> Result<Option<usize>, NoMemory>
        ensures end { IfOk result (λ end. end ≡ item_end self.old bytes.now) }
        ensures bytes { IfOk result (λ end. self.new ≡ self.old ++ taken_of end bytes.now) }
        ensures takes { IfOk result (λ end. Takes ends self.old bytes.now end) }
        ensures within { IfOk result (λ end. IfSome end (λ n. n ≤ length bytes.now)) }
        ensures some { IfOk result (λ end. IfSome end (λ n. 0 < n)) }
    {
        let end = self.scanner.scan(bytes);
        if let Err(error) = self.begun.extend(front_of(bytes, end)) {
            self.scanner = Scanner::new();
            self.begun.clear();
            return Err(error);
        }
        Ok(end)
    }

    /// What the item is, by its first line that says something.
    pub fn kind(&self) -> ItemKind
        ensures { result ≡ kind self.now }
    {
        self.scanner.kind()
    }

    /// How many lines of the item say something and end within as many bytes as an item may have.
    pub fn counted(&self) -> usize
        ensures { result ≡ counted self.now }
    {
        self.scanner.counted()
    }

    /// Whether the bytes are lines that say nothing, and no more.
    pub fn is_blank(&self) -> bool
        ensures { result ≡ is_blank self.now }
    {
        self.scanner.is_blank()
    }

    /// Whether the item has more bytes than it may have.
    pub fn is_too_long(&self) -> bool
        ensures { IsTrue result ↔ (MAX_ITEM < length self.now) }
    {
        self.scanner.is_too_long()
    }

    /// The bytes of the item, where they are not too many.
    pub fn bytes(&self) -> &[u8]
        ensures { length self.now ≤ MAX_ITEM → result.now ≡ self.now }
    {
        self.begun.as_slice()
    }

    /// The item is done: the next one begins.
    pub fn clear(&mut self)
        ensures { self.new ≡ [] }
    {
        self.scanner = Scanner::new();
        self.begun.clear();
    }
}
