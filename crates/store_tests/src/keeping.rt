// A process file that is kept over a store with little room.
ghost use Rattle.std.specs.Prelude.{◌≤◌, ◌^◌, IfOk};
ghost use Rattle.store_disk.specs.{Disk.Only, History.{MayLeave, content}};

use adept_io::{Bytes, Calls, MemorySink, MemorySource};
use case_keep::{Unkept, keep_file_within, read_process};
use std::alloc::Global;
use std::test::Fail;
use store_disk::MemoryDisk;
use store_keep::KeepFault;

const FILE: &[u8] = b"\
adept 1
type t
act A
end
actor ann
case c t
phase
ann create c
";

// The records have 46, 9 and 17 bytes, five more each, and the gate behind the last one is the 88th byte.
#[test]
fn full_store_ends_the_work(rt: HostRuntime) -> Result<(), Fail> {
    assert_eq!(rt; kept_within(rt.alloc(), 87), 8);
    assert_eq!(rt; kept_within(rt.alloc(), 88), 0);
    Ok(())
}

// The status of the work in an image of at most so many bytes.
fn kept_within(alloc: Global, limit: u64) -> u8
    requires { limit ≤ 2 ^ 30 }
{
    match kept(alloc, limit) {
        Ok(()) => 0,
        Err(why) => why.status(),
    }
}

fn kept(alloc: Global, limit: u64) -> Result<(), Unkept>
    requires { limit ≤ 2 ^ 30 }
{
    let bytes = Bytes::from_vec(FILE.to_vec(alloc).map_err(|_| KeepFault::NoMemory)?);
    let mut source = MemorySource::new(bytes, 64, Calls::new(alloc));
    let file = read_process(alloc, &mut source)?;
    let mut disk = empty_disk(alloc)?;
    let Ok(mut sink) = MemorySink::new(alloc, 1000, 64, Calls::new(alloc)) else {
        return Err(Unkept::NoMemory);
    };
    keep_file_within(alloc, &file, limit, &mut sink, &mut disk)?;
    Ok(())
}

fn empty_disk(alloc: Global) -> Result<MemoryDisk, KeepFault>
    ensures { IfOk result (λ disk. Only (content disk.first disk.past) (MayLeave disk.first disk.past)) }
{
    let disk = MemoryDisk::new(alloc, Bytes::new(alloc), 1000, 100, Calls::new(alloc))?;
    Ok(disk)
}
