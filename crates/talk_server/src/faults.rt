// Why a server ends.
ghost use Rattle.std.specs.Prelude.{◌≡◌};
ghost use Rattle.talk_server.specs.Statuses.{status_of};

use adept_io::{NoMemory, ReadRefusal};
use turn_loop::TalkFault;

/// Why a server did not answer its talk to the end.
#[derive(Clone, Copy, Debug, PartialEq, Eq)]
pub enum ServeFault {
    /// The disk could not be read.
    Unopened,
    /// The image has more than 1,073,741,824 bytes.
    TooLong,
    /// At that place of the image there is no whole record, or one that a server would not have put there.
    Damaged(u64),
    /// The talk was cut.
    Talk(TalkFault),
}

impl From<NoMemory> for ServeFault {
    ghost use Rattle.std.specs.Prelude.{◌≡◌};
    ghost use Rattle.talk_server.specs.declared.faults.ServeFault.TheVariants as fault;
    ghost use Rattle.turn_loop.specs.declared.faults.TalkFault.TheVariants as cut;

    ghost from_gives = { λ _ e. e ≡ fault.Talk cut.NoMemory };

    fn from(_error: NoMemory) -> ServeFault {
        ServeFault::Talk(TalkFault::NoMemory)
    }
}

impl From<TalkFault> for ServeFault {
    ghost use Rattle.std.specs.Prelude.{◌≡◌};
    ghost use Rattle.talk_server.specs.declared.faults.ServeFault.TheVariants as fault;

    ghost from_gives = { λ why e. e ≡ fault.Talk why };

    fn from(fault: TalkFault) -> ServeFault {
        ServeFault::Talk(fault)
    }
}

impl From<ReadRefusal> for ServeFault {
    ghost use Rattle.std.specs.Prelude.{◌≡◌};
    ghost use Rattle.talk_server.specs.Unopened.{unopened};

    ghost from_gives = { λ r e. e ≡ unopened r };

    fn from(refusal: ReadRefusal) -> ServeFault {
        match refusal {
            ReadRefusal::Failed => ServeFault::Unopened,
            ReadRefusal::TooLong => ServeFault::TooLong,
            ReadRefusal::NoMemory => ServeFault::Talk(TalkFault::NoMemory),
        }
    }
}

/// The status with which a server ends.
pub fn status(end: &Result<(), ServeFault>) -> u8
    ensures { result ≡ status_of end.now }
{
    match end {
        Ok(()) => 0,
        Err(ServeFault::Unopened) => 11,
        Err(ServeFault::TooLong) => 9,
        Err(ServeFault::Damaged(_)) => 9,
        Err(ServeFault::Talk(fault)) => turn_loop::status(&Err(*fault)),
    }
}
