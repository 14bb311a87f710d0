//! Why a call is not made.
ghost use Rattle.std.specs.Prelude.{◌≡◌};
ghost use Rattle.turn_cell.specs.Faults.{try_fault};
ghost use Rattle.turn_cell.specs.declared.faults.CallFault.TheVariants as call_fault;

use crate::machine::NoMemory;
use thiserror::Error;

/// Why `Cell::call` made no call.
#[derive(Debug, Drop, Error)]
pub enum CallFault {
    /// The journal has as many entries as it may.
    #[error("the journal is full")]
    Full,
    #[error("out of memory")]
    NoMemory,
}

/// Why `Cell::try_call` made no call.
#[derive(Debug, Drop, Error)]
pub enum TryFault {
    /// Another pass had the turn.
    #[error("another has the turn")]
    Busy,
    /// The journal has as many entries as it may.
    #[error("the journal is full")]
    Full,
    #[error("out of memory")]
    NoMemory,
}

impl From<NoMemory> for CallFault {
    ghost from_gives = { λ _ f. f ≡ call_fault.NoMemory };

    fn from(_error: NoMemory) -> CallFault {
        CallFault::NoMemory
    }
}

impl From<CallFault> for TryFault {
    ghost from_gives = { λ c f. f ≡ try_fault c };

    fn from(fault: CallFault) -> TryFault {
        match fault {
            CallFault::Full => TryFault::Full,
            CallFault::NoMemory => TryFault::NoMemory,
        }
    }
}
