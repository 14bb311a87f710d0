// Disks that are opened.
use adept_io::{Bytes, Calls};
use std::test::Fail;
use store_disk::{Frame, MemoryDisk, frame_in, open_image};

#[test]
fn empty_disk_gets_a_gate(rt: HostRuntime) -> Result<(), Fail> {
    let none = Bytes::new(rt.alloc());
    let mut disk = MemoryDisk::new(rt.alloc(), none, 1, 5, Calls::new(rt.alloc()))?;
    let image = open_image(rt.alloc(), &mut disk)
        .ok()
        .ok_or("a disk of no bytes is opened")?;
    assert_eq!(rt; image.as_slice(), [0].as_slice());
    assert_eq!(rt; disk.bytes(), [0].as_slice());
    Ok(())
}

#[test]
fn record_stands_in_front(rt: HostRuntime) {
    assert_eq!(rt; frame_in(&[1, 0, 0, 0, 1, 7, 0]), Frame::Record(1));
    assert_eq!(rt; frame_in(&[0, 1]), Frame::Closed);
    assert_eq!(rt; frame_in(&[1, 0, 0, 0, 2, 7]), Frame::Damaged);
}
