// Lists in a payload: their number, and the items.
ghost use Rattle.std.specs.{Prelude.{◌≡◌, ◌++◌, ◌<◌, ◌≤◌, ◌^◌, flat_map, length, IsErrOf, OnOk}, List.AllByRecursion};
ghost use Rattle.store_form.specs.{Given.Gives, Payload.{listed, u32}, Reading.{many_at, list_at}, Shrinking.HasBytesForCount, Stored.FitsEach};

use crate::fields::{Part, ReadFault};
use adept_io::NoMemory;
use std::alloc::{AllocError, Global};

// Puts a number of items. There is no memory for so many that four bytes do not tell their number.
pub(crate) fn put_count(count: usize, out: &mut Vec<u8>) -> Result<(), NoMemory>
    ensures bytes { OnOk result (out.new.items ≡ out.old.items ++ u32 count) }
    ensures fits { OnOk result (count < 2 ^ 32) }
{
    match u32::try_from(count) {
        Ok(count) => count.put(out),
        Err(_) => Err(AllocError),
    }
}

// Puts the number of the items, and each of them.
pub(crate) fn put_list<T: Part>(items: &[T], out: &mut Vec<u8>) -> Result<(), NoMemory>
    ensures bytes { OnOk result (out.new.items ≡ out.old.items ++ listed T.bytes items.now) }
    ensures fits { OnOk result (FitsEach T.fits items.now) }
{
    put_count(items.len(), out)?;
    put_each(items, out)
}

fn put_each<T: Part>(items: &[T], out: &mut Vec<u8>) -> Result<(), NoMemory>
    ensures bytes { OnOk result (out.new.items ≡ out.old.items ++ flat_map T.bytes items.now) }
    ensures fits { OnOk result (AllByRecursion T.fits items.now) }
{
    for item in items {
        item.put(out)?;
    }
    Ok(())
}

// Reads the number of items, and so many of them. More than there are bytes behind their number are none, whether there is
// memory or not.
pub(crate) fn read_list<T: Part>(alloc: Global, from: &[u8]) -> Result<(Vec<T>, &[u8]), ReadFault>
    ensures read { Gives (λ x. (x.0.items, x.1.now)) result (list_at T.reading from.now) }
    ensures memory { IsErrOf result ReadFault.NoMemory → HasBytesForCount from.now }
{
    let (count, rest) = u32::read(alloc, from)?;
    read_many(alloc, count, rest)
}

// Reads so many items. Each takes a byte at least, so more than there are bytes are not looked for.
fn read_many<T: Part>(alloc: Global, count: u32, from: &[u8]) -> Result<(Vec<T>, &[u8]), ReadFault>
    ensures read { Gives (λ x. (x.0.items, x.1.now)) result (many_at T.reading count from.now) }
    ensures memory { IsErrOf result ReadFault.NoMemory → count ≤ length from.now }
{
    let mut items = Vec::new(alloc);
    if count as usize > from.len() {
        return Err(ReadFault::Malformed);
    }
    let mut rest = from;
    for _ in 0..count {
        let (item, after) = T::read(alloc, rest)?;
        items.push(item)?;
        rest = after;
    }
    Ok((items, rest))
}
