// Why a schema's data is refused.
use wsm_schema::{DataFault, NoMemory};

/// Why the data of a schema was not found to be sound.
#[derive(Clone, Copy, PartialEq, Eq, Debug)]
pub enum DataRefusal {
    /// The first fault.
    Fault(DataFault),
    /// There was not enough memory.
    NoMemory,
}

impl From<NoMemory> for DataRefusal {
    ghost use Rattle.std.specs.Prelude.{◌≡◌};
    ghost use Rattle.wsm_data.specs.declared.refusals.DataRefusal.TheVariants as refusal;

    ghost from_gives = { λ _ e. e ≡ refusal.NoMemory };

    fn from(_error: NoMemory) -> DataRefusal {
        DataRefusal::NoMemory
    }
}
