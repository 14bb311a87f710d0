// Why the calls of a file are not all stored.
ghost use Rattle.std.specs.Prelude.{◌≡◌};

use adept_io::{Failed, NoMemory, ReadRefusal};
use store_room::RoomFault;

/// Why a file was not worked to its end over a store.
#[derive(Clone, Copy, Debug, PartialEq, Eq)]
pub enum KeepFault {
    /// The disk failed. It holds a beginning of the file's calls that is no shorter than the one before.
    Disk,
    /// There was not enough memory. The disk holds such a beginning.
    NoMemory,
    /// The image would pass its limit, 1,073,741,824 bytes at most. The disk holds such a beginning.
    Full,
    /// The image has more than 1,073,741,824 bytes.
    TooLong,
    /// At that place of the image an open gate has no whole record, or the image ends without a gate.
    Damaged(u64),
    /// The record with that number, from 1, is not that call of the file.
    Differs(u64),
    /// All calls are stored, and the report was not written to its end.
    Unwritten,
}

impl From<Failed> for KeepFault {
    ghost use Rattle.std.specs.Prelude.{◌≡◌};
    ghost use Rattle.store_keep.specs.declared.faults.KeepFault.TheVariants as fault;

    ghost from_gives = { λ _ e. e ≡ fault.Disk };

    fn from(_error: Failed) -> KeepFault {
        KeepFault::Disk
    }
}

impl From<NoMemory> for KeepFault {
    ghost use Rattle.std.specs.Prelude.{◌≡◌};
    ghost use Rattle.store_keep.specs.declared.faults.KeepFault.TheVariants as fault;

    ghost from_gives = { λ _ e. e ≡ fault.NoMemory };

    fn from(_error: NoMemory) -> KeepFault {
        KeepFault::NoMemory
    }
}

impl From<RoomFault> for KeepFault {
    ghost use Rattle.std.specs.Prelude.{◌≡◌};
    ghost use Rattle.store_keep.specs.Refusals.{no_room};

    ghost from_gives = { λ r e. e ≡ no_room r };

    fn from(fault: RoomFault) -> KeepFault {
        match fault {
            RoomFault::Full => KeepFault::Full,
            RoomFault::NoMemory => KeepFault::NoMemory,
        }
    }
}

impl From<ReadRefusal> for KeepFault {
    ghost use Rattle.std.specs.Prelude.{◌≡◌};
    ghost use Rattle.store_keep.specs.Refusals.{unopened};

    ghost from_gives = { λ r e. e ≡ unopened r };

    fn from(refusal: ReadRefusal) -> KeepFault {
        match refusal {
            ReadRefusal::Failed => KeepFault::Disk,
            ReadRefusal::TooLong => KeepFault::TooLong,
            ReadRefusal::NoMemory => KeepFault::NoMemory,
        }
    }
}
