// Why an audit tells no verdict, and the statuses.
ghost use Rattle.std.specs.Prelude.{◌≡◌};
ghost use Rattle.case_audit.specs.Common.{end_status};

use crate::reports::Verdict;

/// Why an audit tells no verdict.
#[derive(Clone, Copy, Debug, PartialEq, Eq)]
pub enum Unaudited {
    /// The process file is refused.
    Refused,
    /// A read failed.
    Unread,
    /// A write failed.
    Unwritten,
    /// There was not enough memory.
    NoMemory,
    /// The input, or the file or the report in it, is too long.
    TooLong,
}

/// The status with which the program ends.
pub fn end_status(outcome: Result<Verdict, Unaudited>) -> u8
    ensures { result ≡ end_status outcome }
{
    match outcome {
        Ok(Verdict::Legal) => 0,
        Err(Unaudited::Refused) => 1,
        Err(Unaudited::Unread) => 3,
        Err(Unaudited::Unwritten) => 4,
        Err(Unaudited::NoMemory) => 5,
        Err(Unaudited::TooLong) => 6,
        Ok(Verdict::Wrong { .. }) => 7,
    }
}
