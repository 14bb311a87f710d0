// A file while its lines are read.
use crate::case_tables::CaseTable;
use crate::files::{ActorDecl, Lines, Phases, TypeDecl};
use crate::refusals::Why;
use file_drafts::Draft;
use file_names::{DeclaredList, NameTable};
use wsm_lists::NoMemory;
use wsm_ops::Ops;
use wsm_sound::CaseId;

/// What a group of operations changes: a case, or a type.
#[derive(Clone, Copy, PartialEq, Eq, Debug)]
pub enum Target {
    Case(CaseId),
    Type(u32),
}

/// A group whose end was not read yet, with the line that began it.
#[derive(Drop)]
pub struct Group {
    pub at: u32,
    pub order: u32,
    pub actor: u32,
    pub target: Target,
    pub ops: Ops,
}

/// Where the next line stands.
#[derive(Drop)]
pub enum Section {
    /// Before the header, which may name a format up to this one.
    Head(u32),
    /// Outside of types and groups.
    Outside,
    /// In a type.
    InType(Draft),
    /// In a group.
    InGroup(Group),
}

/// How many script lines, installs and migrations of cases there were.
#[derive(Clone, Copy, PartialEq, Eq, Debug)]
pub struct Counts {
    pub lines: u32,
    pub installs: u32,
    pub migrations: u32,
}

/// How many types, actors and cases may be declared, and how many migrations of a case the script lines may ask for.
#[derive(Clone, Copy, PartialEq, Eq, Debug)]
pub struct Limits {
    pub types: u32,
    pub actors: u32,
    pub cases: u32,
    pub migrations: u32,
}

/// What was read so far.
#[derive(Drop)]
pub struct Contents {
    /// How much may be declared.
    pub limits: Limits,
    /// The format that the header named, 1 before it.
    pub format: u32,
    pub nodes: NameTable,
    pub elements: NameTable,
    pub roles: NameTable,
    pub types: DeclaredList<TypeDecl>,
    pub actors: DeclaredList<ActorDecl>,
    pub cases: CaseTable,
    /// The phases that have ended.
    pub phases: Phases,
    /// The lines of the phase that is open.
    pub current: Option<Lines>,
    pub counts: Counts,
}

/// Why a line is not taken in.
#[derive(Clone, Copy, PartialEq, Eq, Debug)]
pub enum Stop {
    /// The line is refused.
    Refused(Why),
    /// There was not enough memory.
    NoMemory,
}

impl From<NoMemory> for Stop {
    ghost use Rattle.std.specs.Prelude.{◌≡◌};
    ghost use Rattle.file_model.specs.declared.states.Stop.TheVariants as stop;

    ghost from_gives = { λ _ e. e ≡ stop.NoMemory };

    fn from(_error: NoMemory) -> Stop {
        Stop::NoMemory
    }
}
