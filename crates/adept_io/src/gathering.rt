// Gathering: the small pieces of a text are kept until there are many bytes, and handed on together.
ghost use Rattle.std.specs.{Prelude.{◌≡◌, ℕ, List, [], ◌≤◌, OnErr, OnOk, IsTrue, true}, Borrow.GName, Io.KnownBytes.{append_known, Appends, Keeps}};
ghost use Rattle.adept_io.specs.{Counts.Rose, Gathered.known_length, Written.{AppendsPrefix, Gives}};

use crate::held::Held;
use crate::writing::write_most;
use crate::{Failed, Sink};
use std::marker::{Brand, PhantomData};

/// Bytes that can be written to any sink.
pub trait Text {
    // The bytes.
    ghost bytes: { Self → List ℕ };

    /// Writes the bytes, as `put` writes bytes.
    fn put<K: Sink>(&self, sink: &mut K, ok: bool) -> bool
        ensures { Gives K.written K.faults ok result sink.old sink.new (bytes self.now) };
}

// Which sink is gathered for, and how many bytes were known to be written to it before.
trait Outset {
    ghost name: { GName };

    ghost known: { ℕ };
}

impl Outset for Brand {
    ghost name = { 0 };

    ghost known = { 0 };
}

// A sink that keeps bytes back and hands them on to the one behind it when it has no more room. That one never loses
// bytes that were written, and stays the same one.
#[derive(Drop)]
struct Gathered<'a, K: Sink, O: Outset> {
    sink: &'a mut K,
    held: Held,
    outset: PhantomData<O>,
    ghost same: { sink.ghost_name ≡ O.name },
    ghost begun: { O.known ≤ known_length (K.written sink.now) },
}

impl<'a, K: Sink, O: Outset> Gathered<'a, K, O> {
    // Hands on all that is held. It is seldom called, so it is kept out of the writers of small pieces.
    #[inline(never)]
    fn hand_on(&mut self) -> Result<(), Failed>
        ensures empty { OnOk result (self.new.held ≡ []) }
        ensures bytes { Keeps (append_known (K.written self.old.sink.now) self.old.held) (append_known (K.written self.new.sink.now) self.new.held) }
        ensures rose { OnErr result (Rose (K.faults self.old.sink.now) (K.faults self.new.sink.now)) }
        ensures never_falls { K.faults self.old.sink.now ≤ K.faults self.new.sink.now }
    {
        let (sent, answer) = write_most(self.sink, self.held.as_slice());
        self.held.remove(sent);
        answer
    }

    // Hands on all that is held where all went well before, and answers whether all went well.
    fn finish(&mut self, ok: bool) -> bool
        ensures empty { IsTrue result → self.new.held ≡ [] }
        ensures gives { Gives (λ s. append_known (K.written s.sink.now) s.held) (λ s. K.faults s.sink.now) ok result self.old self.new [] }
    {
        ok && self.hand_on().is_ok()
    }
}

impl<'a, K: Sink, O: Outset> Sink for Gathered<'a, K, O> {
    ghost written = { λ s. append_known (K.written s.sink.now) s.held };

    ghost faults = { λ s. K.faults s.sink.now };

    fn write(&mut self, bytes: &[u8]) -> Result<usize, Failed> {
        let count = self.held.add(bytes);
        if count > 0 || bytes.is_empty() {
            return Ok(count);
        }
        self.hand_on()?;
        Ok(self.held.add(bytes))
    }
}

// A sink, and whether all went well.
#[derive(Drop)]
struct Outcome<'a, K> {
    sink: &'a mut K,
    ok: bool,
}

// Gathers the text and hands it on to the sink.
fn gather<'a, K: Sink, O: Outset, T: Text>(sink: &'a mut K, text: &T) -> Outcome<'a, K>
    requires same { sink.ghost_name ≡ O.name }
    requires begun { O.known ≡ known_length (K.written sink.old) }
    ensures same { result.sink.ghost_name ≡ sink.entry.ghost_name }
    ensures gives { Gives K.written K.faults true result.ok sink.old result.sink.now (T.bytes text.now) }
{
    let mut gathered = Gathered {
        sink,
        held: Held::new(),
        outset: PhantomData::<O>,
    };
    let ok = text.put(&mut gathered, true);
    let ok = gathered.finish(ok);
    let Gathered {
        sink,
        held: _,
        outset: _,
    } = gathered;
    Outcome { sink, ok }
}

/// Writes the text in pieces of many bytes, however small the pieces are that it is put together from. Where a write
/// fails, the first of its bytes may have been written. Takes no memory.
pub fn write_gathered<K: Sink, T: Text>(sink: &mut K, text: &T) -> Result<(), Failed>
    ensures all { OnOk result (Appends (K.written sink.old) (K.written sink.new) (T.bytes text.now)) }
    ensures part { OnErr result (AppendsPrefix (K.written sink.old) (K.written sink.new) (T.bytes text.now)) }
    ensures rose { OnErr result (Rose (K.faults sink.old) (K.faults sink.new)) }
{
    let outcome = gather::<K, Brand, T>(sink, text);
    if outcome.ok { Ok(()) } else { Err(Failed) }
}
