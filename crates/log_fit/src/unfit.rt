// Why no table of fits is written.
ghost use Rattle.std.specs.Prelude.{◌≡◌};
ghost use Rattle.log_fit.specs.Outcomes.{status_of};

use log_records::WrongRecord;

/// Why the table of an input is not written.
#[derive(Clone, Copy, Debug, PartialEq, Eq)]
pub enum Unfit {
    /// The process file is refused.
    Refused,
    /// The words are not the name of a type and the number of a version.
    Words,
    /// A read failed.
    Unread,
    /// A write failed.
    Unwritten,
    /// There was not enough memory.
    NoMemory,
    /// The input, or the file in it, is too long.
    TooLong,
    /// The file has no such type, or the type no such version.
    NoVersion,
    /// There is no log.
    NoLog,
    /// The first record of the log that is wrong.
    Wrong(WrongRecord),
}

impl Unfit {
    /// The status with which the program ends.
    pub fn status(self) -> u8
        ensures { result ≡ status_of self }
    {
        match self {
            Unfit::Refused => 1,
            Unfit::Words => 2,
            Unfit::Unread => 3,
            Unfit::Unwritten => 4,
            Unfit::NoMemory => 5,
            Unfit::TooLong => 6,
            Unfit::NoVersion => 8,
            Unfit::NoLog | Unfit::Wrong(_) => 9,
        }
    }
}
