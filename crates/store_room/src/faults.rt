// Why a call is not written for an image.
ghost use Rattle.std.specs.Prelude.{◌≡◌};

use adept_io::NoMemory;

/// Why a call, or one of several, is not written for an image.
#[derive(Clone, Copy, Debug, PartialEq, Eq)]
pub enum RoomFault {
    /// The image would pass its limit.
    Full,
    /// There was not enough memory.
    NoMemory,
}

impl From<NoMemory> for RoomFault {
    ghost use Rattle.std.specs.Prelude.{◌≡◌};
    ghost use Rattle.store_room.specs.declared.faults.RoomFault.TheVariants as fault;

    ghost from_gives = { λ _ e. e ≡ fault.NoMemory };

    fn from(_error: NoMemory) -> RoomFault {
        RoomFault::NoMemory
    }
}
