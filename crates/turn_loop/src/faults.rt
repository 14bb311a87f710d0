// Why a talk was cut.
ghost use Rattle.std.specs.Prelude.{◌≡◌};
ghost use Rattle.turn_loop.specs.Statuses.{status_of};

use adept_io::NoMemory;

/// Why a talk was cut. What was accepted before is on the disk, and no answer to it is lost but as is said here.
#[derive(Clone, Copy, Debug, PartialEq, Eq)]
pub enum TalkFault {
    /// A read failed. All items that were whole were answered.
    Unread,
    /// There were more than 9,223,372,036,854,775,807 bytes. All items that were whole in what was read were answered.
    TooLong,
    /// Some of a turn's answers were not written. What they answer is on the disk.
    Unwritten,
    /// There was not enough memory. No answer of the turn was written, and none of its items is on the disk.
    NoMemory,
    /// The disk failed. No answer of the turn was written; of its items all that were accepted or none are on the disk.
    Disk,
}

/// The status with which a talk ends.
pub fn status(end: &Result<(), TalkFault>) -> u8
    ensures { result ≡ status_of end.now }
{
    match end {
        Ok(()) => 0,
        Err(TalkFault::Unread) => 3,
        Err(TalkFault::TooLong) => 3,
        Err(TalkFault::Unwritten) => 4,
        Err(TalkFault::NoMemory) => 5,
        Err(TalkFault::Disk) => 7,
    }
}

impl From<NoMemory> for TalkFault {
    ghost use Rattle.std.specs.Prelude.{◌≡◌};
    ghost use Rattle.turn_loop.specs.declared.faults.TalkFault.TheVariants as fault;

    ghost from_gives = { λ _ e. e ≡ fault.NoMemory };

    fn from(_error: NoMemory) -> TalkFault {
        TalkFault::NoMemory
    }
}
