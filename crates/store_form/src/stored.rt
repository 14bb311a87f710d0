// Calls as they are stored.
use case_core::Event;
use wsm_ops::Ops;
use wsm_schema::Schema;
use wsm_sound::CaseId;

/// A call of a type or of a case as it is stored. A version is told by its number alone.
#[derive(Drop)]
pub enum Stored {
    /// The type with this number is defined.
    Define(u32, Schema),
    /// The type gets a new version.
    Install(u32, Ops),
    /// Somebody asks the type for its newest version.
    Newest(u32),
    /// The case is created on the version with this number.
    Create(CaseId, u32),
    /// The case moves to the version with this number.
    Migrate(CaseId, u32),
    /// Any other event of a case.
    Case(CaseId, Event),
}

/// A stored call, and who made it.
#[derive(Drop)]
pub struct Recorded {
    pub caller: u32,
    pub event: Stored,
}
