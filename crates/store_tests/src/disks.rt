// Disks, and a record on one.
use adept_io::{Bytes, Calls};
use std::test::Fail;
use store_disk::{Disk, Framed, MemoryDisk, append};

#[test]
fn record_is_written(rt: HostRuntime) -> Result<(), Fail> {
    let image = Bytes::from_vec([0u8].to_vec(rt.alloc())?);
    let mut disk = MemoryDisk::new(rt.alloc(), image, 64, 4, Calls::new(rt.alloc()))?;
    let framed = Framed::new(rt.alloc(), &[3, 0, 0, 0, 0, 0, 0, 0, 0])?;
    let next = append(&mut disk, 0, &framed);
    assert!(rt; matches!(next, Ok(14)));
    assert_eq!(rt;
        disk.bytes(),
        [1, 0, 0, 0, 9, 3, 0, 0, 0, 0, 0, 0, 0, 0, 0].as_slice()
    );
    Ok(())
}

#[test]
fn disk_is_written_past_its_end(rt: HostRuntime) -> Result<(), Fail> {
    let image = Bytes::from_vec([5u8, 6, 7].to_vec(rt.alloc())?);
    let mut disk = MemoryDisk::new(rt.alloc(), image, 2, 2, Calls::new(rt.alloc()))?;
    assert!(rt; disk.write(2, &[8, 9]).is_ok());
    assert_eq!(rt; disk.bytes(), [5, 6, 8, 9].as_slice());
    Ok(())
}
