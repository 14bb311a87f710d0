// Why a store is not opened, and why a step is not made.
ghost use Rattle.std.specs.Prelude.{◌≡◌};
ghost use Rattle.case_store.specs.Faults.{refused};

use adept_io::{Failed, NoMemory, ReadRefusal};
use store_disk::Disk;
use store_room::RoomFault;

/// Why a disk was not opened as a store. The disk is given back.
#[derive(Drop)]
pub enum OpenRefusal<D: Disk + Drop> {
    /// The disk failed.
    Disk(D),
    /// It has more than 1,073,741,824 bytes.
    TooLong(D),
    /// At that place no record stands that a store of these types and cases could hold, or no gate.
    Damaged(D, u64),
    /// There was not enough memory.
    NoMemory(D),
}

/// Why a step, or those of a group, were not made.
#[derive(Clone, Copy, Debug, PartialEq, Eq)]
pub enum StoreFault {
    /// An earlier step failed on the disk, or memory was wanting in the middle of a group.
    Broken,
    /// The image would pass its limit, 1,073,741,824 bytes.
    Full,
    /// The disk failed. The store is broken from now on; the disk holds the call, or all of the group, or none.
    Disk,
    /// There was not enough memory. The disk is as it was, and nothing else has changed, unless some calls of a group were made:
    /// then the store is broken from now on.
    NoMemory,
}

impl From<Failed> for StoreFault {
    ghost use Rattle.std.specs.Prelude.{◌≡◌};
    ghost use Rattle.case_store.specs.declared.refusals.StoreFault.TheVariants as fault;

    ghost from_gives = { λ _ e. e ≡ fault.Disk };

    fn from(_error: Failed) -> StoreFault {
        StoreFault::Disk
    }
}

impl From<NoMemory> for StoreFault {
    ghost use Rattle.std.specs.Prelude.{◌≡◌};
    ghost use Rattle.case_store.specs.declared.refusals.StoreFault.TheVariants as fault;

    ghost from_gives = { λ _ e. e ≡ fault.NoMemory };

    fn from(_error: NoMemory) -> StoreFault {
        StoreFault::NoMemory
    }
}

impl From<RoomFault> for StoreFault {
    ghost use Rattle.std.specs.Prelude.{◌≡◌};
    ghost use Rattle.case_store.specs.Faults.{no_room};

    ghost from_gives = { λ r e. e ≡ no_room r };

    fn from(fault: RoomFault) -> StoreFault {
        match fault {
            RoomFault::Full => StoreFault::Full,
            RoomFault::NoMemory => StoreFault::NoMemory,
        }
    }
}

// Why an image was not read, without the disk.
#[derive(Clone, Copy, Debug, PartialEq, Eq)]
pub(crate) enum ImageFault {
    Disk,
    TooLong,
    Damaged(u64),
    NoMemory,
}

impl From<NoMemory> for ImageFault {
    ghost use Rattle.std.specs.Prelude.{◌≡◌};
    ghost use Rattle.case_store.specs.declared.refusals.ImageFault.TheVariants as fault;

    ghost from_gives = { λ _ e. e ≡ fault.NoMemory };

    fn from(_error: NoMemory) -> ImageFault {
        ImageFault::NoMemory
    }
}

impl From<ReadRefusal> for ImageFault {
    ghost use Rattle.std.specs.Prelude.{◌≡◌};
    ghost use Rattle.case_store.specs.Faults.{image_fault};

    ghost from_gives = { λ r e. e ≡ image_fault r };

    fn from(refusal: ReadRefusal) -> ImageFault {
        match refusal {
            ReadRefusal::Failed => ImageFault::Disk,
            ReadRefusal::TooLong => ImageFault::TooLong,
            ReadRefusal::NoMemory => ImageFault::NoMemory,
        }
    }
}

impl ImageFault {
    // The refusal, with the disk.
    pub(crate) fn with_disk<D: Disk + Drop>(self, disk: D) -> OpenRefusal<D>
        ensures { result ≡ refused self disk }
    {
        match self {
            ImageFault::Disk => OpenRefusal::Disk(disk),
            ImageFault::TooLong => OpenRefusal::TooLong(disk),
            ImageFault::Damaged(place) => OpenRefusal::Damaged(disk, place),
            ImageFault::NoMemory => OpenRefusal::NoMemory(disk),
        }
    }
}
