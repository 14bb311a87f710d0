// The fields of a payload: how each is written, and read.
ghost use Rattle.std.specs.{Prelude.{◌≡◌, ◌∷◌, ◌++◌, ℕ, List, Option, IsErrOf, OnOk}, Int.w64};
ghost use Rattle.store_form.specs.{Given.Gives, Payload.{u16, u32, flag, kind_bytes, optional}, Reading.{both_at, code_at, u32_at, flag_at, kind_at, option_at}, Shrinking.{Shrinks, both_shrinks, code_shrinks, flag_shrinks, kind_shrinks}};
ghost use Rattle.store_form.specs.{Shrinking.{option_shrinks, u32_shrinks}, Stored.{IsCode, IsNumber, FitsOption}};

use adept_io::NoMemory;
use std::alloc::{AllocFailed, Global};
use wsm_schema::ElementKind;

// Why bytes were not read.
#[derive(Drop)]
pub(crate) enum ReadFault {
    NoMemory,
    // They do not begin with what was to be read.
    Malformed,
}

impl From<NoMemory> for ReadFault {
    ghost use Rattle.std.specs.Prelude.{◌≡◌};
    ghost use Rattle.store_form.specs.declared.fields.ReadFault.TheVariants as fault;

    ghost from_gives = { λ _ e. e ≡ fault.NoMemory };

    fn from(_error: NoMemory) -> ReadFault {
        ReadFault::NoMemory
    }
}

impl<T: Drop> From<AllocFailed<T>> for ReadFault {
    ghost use Rattle.std.specs.Prelude.{◌≡◌};
    ghost use Rattle.store_form.specs.declared.fields.ReadFault.TheVariants as fault;

    ghost from_gives = { λ _ e. e ≡ fault.NoMemory };

    fn from(_error: AllocFailed<T>) -> ReadFault {
        ReadFault::NoMemory
    }
}

// What has bytes in a payload.
pub(crate) trait Part: Sized + Drop {
    // The bytes.
    ghost bytes: { Self → List ℕ };

    // What is read at the front of bytes, and what is left.
    ghost reading: { List ℕ → Option (Self × List ℕ) };

    // Which values have bytes: all that the code makes.
    ghost fits: { Self → Type 0 };

    // Puts the bytes at the end.
    fn put(&self, out: &mut Vec<u8>) -> Result<(), NoMemory>
        ensures bytes { OnOk result (out.new.items ≡ out.old.items ++ bytes self.now) }
        ensures fits { OnOk result (fits self.now) };

    // Reads one at the front, and gives what is left.
    fn read(alloc: Global, from: &[u8]) -> Result<(Self, &[u8]), ReadFault>
        ensures { Gives (λ x. (x.0, x.1.now)) result (reading from.now) };

    // Each takes at least one byte.
    ghost shrinks: { Shrinks reading };
}

// Puts a tag, and the fields behind it.
pub(crate) fn put_tagged<T: Part>(tag: u8, fields: T, out: &mut Vec<u8>) -> Result<(), NoMemory>
    ensures bytes { OnOk result (out.new.items ≡ out.old.items ++ tag ∷ T.bytes fields) }
    ensures fits { OnOk result (T.fits fields) }
{
    out.push(tag)?;
    fields.put(out)
}

impl Part for u16 {
    ghost bytes = { u16 };

    ghost reading = { code_at };

    ghost fits = { IsCode };

    fn put(&self, out: &mut Vec<u8>) -> Result<(), NoMemory> {
        out.extend_from_slice(&self.to_be_bytes())
    }

    fn read(_alloc: Global, from: &[u8]) -> Result<(u16, &[u8]), ReadFault> {
        if from.len() < 2 {
            return Err(ReadFault::Malformed);
        }
        let (front, rest) = from.split_at(2);
        Ok((u16::from_be_bytes([front[0], front[1]]), rest))
    }

    ghost shrinks = { code_shrinks };
}

impl Part for u32 {
    ghost bytes = { u32 };

    ghost reading = { u32_at };

    ghost fits = { IsNumber };

    fn put(&self, out: &mut Vec<u8>) -> Result<(), NoMemory> {
        out.extend_from_slice(&self.to_be_bytes())
    }

    fn read(_alloc: Global, from: &[u8]) -> Result<(u32, &[u8]), ReadFault>
        ensures read { Gives (λ x. (x.0, x.1.now)) result (u32_at from.now) }
        ensures memory { IsErrOf result ReadFault.NoMemory → ⊥ }
    {
        if from.len() < 4 {
            return Err(ReadFault::Malformed);
        }
        let (front, rest) = from.split_at(4);
        let number = u32::from_be_bytes([front[0], front[1], front[2], front[3]]);
        Ok((number, rest))
    }

    ghost shrinks = { u32_shrinks };
}

impl Part for bool {
    ghost bytes = { flag };

    ghost reading = { flag_at };

    ghost fits = { λ _. Unit {0} };

    fn put(&self, out: &mut Vec<u8>) -> Result<(), NoMemory> {
        out.push(if *self { 1 } else { 0 })?;
        Ok(())
    }

    fn read(_alloc: Global, from: &[u8]) -> Result<(bool, &[u8]), ReadFault> {
        match from {
            [0, rest @ ..] => Ok((false, rest)),
            [1, rest @ ..] => Ok((true, rest)),
            _ => Err(ReadFault::Malformed),
        }
    }

    ghost shrinks = { flag_shrinks };
}

impl Part for ElementKind {
    ghost bytes = { kind_bytes };

    ghost reading = { kind_at };

    ghost fits = { λ _. Unit {0} };

    fn put(&self, out: &mut Vec<u8>) -> Result<(), NoMemory> {
        match self {
            ElementKind::Int => false.put(out),
            ElementKind::Text => true.put(out),
        }
    }

    fn read(alloc: Global, from: &[u8]) -> Result<(ElementKind, &[u8]), ReadFault> {
        let (is_text, rest) = bool::read(alloc, from)?;
        if is_text {
            Ok((ElementKind::Text, rest))
        } else {
            Ok((ElementKind::Int, rest))
        }
    }

    ghost shrinks = { kind_shrinks };
}

impl<A: Part, B: Part> Part for (A, B) {
    ghost bytes = { λ p. A.bytes p.0 ++ B.bytes p.1 };

    ghost reading = { both_at A.reading B.reading };

    ghost fits = { λ p. A.fits p.0 × B.fits p.1 };

    fn put(&self, out: &mut Vec<u8>) -> Result<(), NoMemory> {
        self.0.put(out)?;
        self.1.put(out)
    }

    fn read(alloc: Global, from: &[u8]) -> Result<((A, B), &[u8]), ReadFault> {
        let (one, rest) = A::read(alloc, from)?;
        let (two, rest) = B::read(alloc, rest)?;
        Ok(((one, two), rest))
    }

    ghost shrinks = { both_shrinks A.reading B.reading A.shrinks B.shrinks };
}

impl<T: Part> Part for Option<T> {
    ghost bytes = { optional T.bytes };

    ghost reading = { option_at T.reading };

    ghost fits = { FitsOption T.fits };

    fn put(&self, out: &mut Vec<u8>) -> Result<(), NoMemory> {
        match self {
            None => false.put(out),
            Some(item) => {
                true.put(out)?;
                item.put(out)
            }
        }
    }

    fn read(alloc: Global, from: &[u8]) -> Result<(Option<T>, &[u8]), ReadFault> {
        let (is_there, rest) = bool::read(alloc, from)?;
        if is_there {
            let (item, rest) = T::read(alloc, rest)?;
            Ok((Some(item), rest))
        } else {
            Ok((None, rest))
        }
    }

    ghost shrinks = { option_shrinks T.reading T.shrinks };
}
