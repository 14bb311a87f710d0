// A text that is gone along.
ghost use Rattle.std.specs.Prelude.{◌≡◌, ◌==◌, ◌≤◌, length, take, drop};
ghost use Rattle.text_follower.specs.Followed.{behind_lines, feeds, followed, same_front};

use std::marker::Model;

/// A text and a place in it.
#[derive(Drop)]
pub struct Follower<'a> {
    text: &'a [u8],
    at: usize,
}

impl<'a> Model for Follower<'a> {
    ghost use Rattle.std.specs.Prelude.{◌≤◌, length};
    ghost use Rattle.text_follower.specs.Followed.{Followed};

    ghost Value = { Followed };

    ghost view = { λ a. record { text = a.text.now; at = a.at } };

    ghost invariant = { λ a. a.at ≤ length a.text.now };
}

impl<'a> Follower<'a> {
    /// The text, at one of its places.
    pub fn of(text: &'a [u8], at: usize) -> Follower<'a>
        requires { at ≤ length text.now }
        ensures { result ≡ record { text = text.now; at = at } }
    {
        Follower { text, at }
    }

    /// How many bytes stand before the place.
    pub fn place(&self) -> usize
        ensures place { result ≡ self.now.at }
        ensures bound { result ≤ length self.now.text }
    {
        self.at
    }

    /// What stands behind the place.
    pub fn rest(&self) -> &'a [u8]
        ensures { result.now ≡ drop self.now.at self.now.text }
    {
        let (_, rest) = self.text.split_at(self.at);
        rest
    }

    /// The place moves behind the bytes that are the piece's first ones. Whether all of the piece stands there.
    pub fn follow(&mut self, piece: &[u8]) -> bool
        ensures place { self.new ≡ followed piece.now self.old }
        ensures whole { result ≡ (same_front piece.now (drop self.old.at self.old.text) == length piece.now) }
    {
        let (_, rest) = self.text.split_at(self.at);
        let same = same_front(piece, rest);
        self.at += same;
        same == piece.len()
    }

    /// The text.
    pub fn text(&self) -> &'a [u8]
        ensures { result.now ≡ self.now.text }
    {
        self.text
    }

    /// How many line feeds stand before the place.
    pub fn lines(&self) -> usize
        ensures { result ≡ feeds (take self.now.at self.now.text) }
    {
        let (front, _) = self.text.split_at(self.at);
        feeds(front)
    }
}

// How many bytes are the same from the front on.
fn same_front(piece: &[u8], rest: &[u8]) -> usize
    ensures same { result ≡ same_front piece.now rest.now }
    ensures in_piece { result ≤ length piece.now }
    ensures in_rest { result ≤ length rest.now }
{
    let mut same = 0;
    while same < piece.len() && same < rest.len() && piece[same] == rest[same] {
        same += 1;
    }
    same
}

fn feeds(bytes: &[u8]) -> usize
    ensures { result ≡ feeds bytes.now }
{
    let mut count = 0;
    for byte in bytes {
        if *byte == b'\n' {
            count += 1;
        }
    }
    count
}

/// How many bytes the first so many lines have, with their line feeds. Where there are fewer lines it is all of the bytes.
pub fn behind_lines(bytes: &[u8], lines: usize) -> usize
    ensures place { result ≡ behind_lines lines bytes.now }
    ensures bound { result ≤ length bytes.now }
{
    let mut place = 0;
    let mut left = lines;
    while left > 0 && place < bytes.len() {
        if bytes[place] == b'\n' {
            left -= 1;
        }
        place += 1;
    }
    place
}
