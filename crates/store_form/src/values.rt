// Values in a payload.
ghost use Rattle.std.specs.{Prelude.{◌≡◌, ◌++◌, ◌<◌, ◌≤◌, length, OnOk}, List.AllByRecursion};
ghost use Rattle.store_form.specs.{Given.Gives, Payload.{u32, value_bytes}, Reading.{int_at, text_at, value_at}, Shrinking.value_shrinks, Stored.FitsValue};

use crate::fields::{Part, ReadFault};
use adept_io::NoMemory;
use std::alloc::Global;
use wsm_lists::{ShortText, Value};

impl Part for Value {
    ghost bytes = { value_bytes };

    ghost reading = { value_at };

    ghost fits = { FitsValue };

    fn put(&self, out: &mut Vec<u8>) -> Result<(), NoMemory> {
        match self {
            Value::Int(n) => {
                false.put(out)?;
                out.extend_from_slice(&n.to_be_bytes())
            }
            Value::Text(text) => {
                true.put(out)?;
                put_text(text.bytes(), out)
            }
        }
    }

    fn read(alloc: Global, from: &[u8]) -> Result<(Value, &[u8]), ReadFault> {
        let (is_text, rest) = bool::read(alloc, from)?;
        if is_text {
            read_text(alloc, rest)
        } else {
            read_int(rest)
        }
    }

    ghost shrinks = { value_shrinks };
}

// Puts the number of bytes, and the bytes.
fn put_text(bytes: &[u8], out: &mut Vec<u8>) -> Result<(), NoMemory>
    requires { length bytes.now ≤ 256 }
    ensures bytes { OnOk result (out.new.items ≡ out.old.items ++ (u32 (length bytes.now) ++ bytes.now)) }
    ensures fits { AllByRecursion (λ b. b < 256) bytes.now }
{
    (bytes.len() as u32).put(out)?;
    out.extend_from_slice(bytes)
}

// Reads eight bytes as a number with a sign.
fn read_int(from: &[u8]) -> Result<(Value, &[u8]), ReadFault>
    ensures { Gives (λ x. (x.0, x.1.now)) result (int_at from.now) }
{
    if from.len() < 8 {
        return Err(ReadFault::Malformed);
    }
    let (front, rest) = from.split_at(8);
    let number = i64::from_be_bytes([
        front[0], front[1], front[2], front[3], front[4], front[5], front[6], front[7],
    ]);
    Ok((Value::Int(number), rest))
}

// Reads a text of at most 256 bytes behind their number.
fn read_text(alloc: Global, from: &[u8]) -> Result<(Value, &[u8]), ReadFault>
    ensures { Gives (λ x. (x.0, x.1.now)) result (text_at from.now) }
{
    let (count, rest) = u32::read(alloc, from)?;
    let count = count as usize;
    if rest.len() < count {
        return Err(ReadFault::Malformed);
    }
    let (bytes, rest) = rest.split_at(count);
    match ShortText::of(alloc, bytes)? {
        None => Err(ReadFault::Malformed),
        Some(text) => Ok((Value::Text(text), rest)),
    }
}
