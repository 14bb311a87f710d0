// Where an item ends that is read byte by byte.
ghost use Rattle.std.specs.Prelude.{◌≡◌, ◌==◌, ◌+◌, ◌<◌, ◌≤◌, ◌∷◌, ◌++◌, ◌↔◌, [], length, map, min, take, position, IsTrue};
ghost use Rattle.talk_items.specs.{Items.{counted, ends, is_blank, item_end, kind, taken}, Scans.{HasNoFeed, counted_with, first_with}};

use crate::items::{ItemKind, Place, ends_line, is_skipped, kind_of, place_behind};
use crate::keywords::Keyword;
use crate::limits::MAX_ITEM;
use crate::lines::Line;
use http_server::Log;
use memchr::memchr;
use std::marker::Model;

// What an item is, with one line more.
fn first_with(first: Option<ItemKind>, words: &[Keyword]) -> Option<ItemKind>
    ensures { result ≡ first_with first words.now }
{
    if first.is_some() || is_skipped(words) {
        first
    } else {
        Some(kind_of(words))
    }
}

// How many lines say something, with one more that ends behind so many bytes.
fn counted_with(counted: usize, len: usize, words: &[Keyword]) -> usize
    requires { counted ≤ MAX_ITEM }
    ensures { result ≡ counted_with counted len words.now }
{
    if len > MAX_ITEM || is_skipped(words) {
        counted
    } else {
        counted + 1
    }
}

// How long an item is with so many bytes more, as far as it is told apart.
fn longer(len: usize, more: usize) -> usize
    ensures { result ≡ min (len + more) (MAX_ITEM + 1) }
{
    len.saturating_add(more).min(MAX_ITEM + 1)
}

// The index of the first line feed.
fn feed_at(bytes: &[u8]) -> Option<usize>
    ensures { result ≡ position (λ byte. byte == 10) bytes.now }
{
    memchr(b'\n', bytes)
}

// The bytes as proofs see them. It does nothing.
fn note(log: &mut Log<u8, u8>, bytes: &[u8])
    ensures { map (λ p. p.0) log.new.items ≡ map (λ p. p.0) log.old.items ++ bytes.now }
{
    for byte in bytes {
        *log = log.and(byte, byte);
    }
}

/// The bytes with which an item has begun. It keeps none of them: it knows what the lines so far tell.
#[derive(Drop)]
pub struct Scanner {
    place: Place,
    first: Option<ItemKind>,
    counted: usize,
    len: usize,
    line: Line,
    bytes: Log<u8, u8>,
}

impl Model for Scanner {
    ghost use Rattle.std.specs.Prelude.{ℕ, List, map};
    ghost use Rattle.talk_items.specs.Scans.{IsScan};

    ghost Value = { List ℕ };

    ghost view = { λ a. map (λ p. p.0) a.bytes.items };

    ghost invariant = { λ a. IsScan (map (λ p. p.0) a.bytes.items) a.place a.first a.counted a.len a.line };
}

impl Scanner {
    /// No bytes: an item is to begin.
    pub fn new() -> Scanner
        ensures { result ≡ [] }
    {
        Scanner {
            place: Place::Front,
            first: None,
            counted: 0,
            len: 0,
            line: Line::new(),
            bytes: Log::new(),
        }
    }

    /// Takes bytes of the item, up to its end, and answers how many, or None where it goes on behind all.
    pub fn scan(&mut self, bytes: &[u8]) -> Option<usize>
        ensures end { result ≡ item_end self.old bytes.now }
        ensures bytes { self.new ≡ self.old ++ taken result bytes.now }
    {
        let mut done = 0;
        while let Some(len) = feed_at(&bytes[done..]) {
            let (line, _) = bytes[done..].split_at(len);
            done += len + 1;
            if self.end_line(line) {
                return Some(done);
            }
        }
        self.begin_line(&bytes[done..]);
        None
    }

    /// What the item is, by its first line that says something.
    pub fn kind(&self) -> ItemKind
        ensures { result ≡ kind self.now }
    {
        self.first.unwrap_or(ItemKind::Unit)
    }

    /// How many lines of the item say something and end within as many bytes as an item may have.
    pub fn counted(&self) -> usize
        ensures { result ≡ counted self.now }
    {
        self.counted
    }

    /// Whether the item has more bytes than it may have.
    pub fn is_too_long(&self) -> bool
        ensures { IsTrue result ↔ (MAX_ITEM < length self.now) }
    {
        self.len > MAX_ITEM
    }

    /// Whether the bytes are lines that say nothing, and no more.
    pub fn is_blank(&self) -> bool
        ensures { result ≡ is_blank self.now }
    {
        self.first.is_none() && self.line.is_empty()
    }

    // Takes bytes of a line that goes on behind them.
    fn begin_line(&mut self, part: &[u8])
        requires { HasNoFeed part.now }
        ensures { self.new ≡ self.old ++ part.now }
    {
        note(&mut self.bytes, part);
        self.len = longer(self.len, part.len());
        self.line.extend(part);
    }

    // Takes the rest of a line, and its line feed. Answers whether the item ends with it.
    fn end_line(&mut self, rest: &[u8]) -> bool
        requires { HasNoFeed rest.now }
        ensures ends { result ≡ ends (self.old ++ rest.now) 10 }
        ensures bytes { self.new ≡ self.old ++ (rest.now ++ 10 ∷ []) }
    {
        note(&mut self.bytes, rest);
        note(&mut self.bytes, b"\n");
        self.len = longer(self.len, rest.len() + 1);
        let first_words = self.line.end(rest);
        let words = first_words.as_slice();
        let is_end = ends_line(self.place, words);
        self.place = place_behind(self.place, words);
        self.first = first_with(self.first, words);
        self.counted = counted_with(self.counted, self.len, words);
        is_end
    }
}
