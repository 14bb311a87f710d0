// Why lists of operations are not merged.
use wsm_foot::Name;
use wsm_ops::OpFault;
use wsm_schema::NoMemory;

/// Why two lists of operations are not merged.
#[derive(Clone, Copy, PartialEq, Eq, Debug)]
pub enum MergeRefusal {
    /// The left list is refused.
    Left(OpFault),
    /// The right list is refused.
    Right(OpFault),
    /// One list changes this, and the other changes or uses it: the least such name.
    Overlap(Name),
    /// There is too little memory.
    NoMemory,
}

/// Why many lists of operations are not merged. Lists are counted from 1.
#[derive(Clone, Copy, PartialEq, Eq, Debug)]
pub enum ManyRefusal {
    /// This list is refused, and none before it.
    List(u32, OpFault),
    /// These two lists overlap at this name, and no two before them.
    Overlap(u32, u32, Name),
    /// There is too little memory.
    NoMemory,
}

impl From<NoMemory> for MergeRefusal {
    ghost use Rattle.std.specs.Prelude.{◌≡◌};
    ghost use Rattle.wsm_commute.specs.declared.refusals.MergeRefusal.TheVariants as refusal;

    ghost from_gives = { λ _ e. e ≡ refusal.NoMemory };

    fn from(_error: NoMemory) -> MergeRefusal {
        MergeRefusal::NoMemory
    }
}

impl From<NoMemory> for ManyRefusal {
    ghost use Rattle.std.specs.Prelude.{◌≡◌};
    ghost use Rattle.wsm_commute.specs.declared.refusals.ManyRefusal.TheVariants as refusal;

    ghost from_gives = { λ _ e. e ≡ refusal.NoMemory };

    fn from(_error: NoMemory) -> ManyRefusal {
        ManyRefusal::NoMemory
    }
}
