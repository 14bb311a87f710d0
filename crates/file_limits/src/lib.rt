//! How much a process file may have, and what is read beside it. Each of these limits stands here once: code and definitions
//! cite it by its name. What a schema may have is said by its definition (`wsm_schema/specs/Sound`), what a cell may have by
//! `turn_cell`, and how many versions a type may have by `type_core`.
#![tactic(auto)]

/// How many bytes a process file may have.
pub const MAX_FILE_BYTES: usize = 16_777_216;

/// The newest format of a process file.
pub const NEWEST_FORMAT: u32 = 3;

/// The newest format whose calls a store keeps: it has each type's definition before all other calls.
pub const NEWEST_KEPT_FORMAT: u32 = 2;

/// The number of the first role that has a name, in format 3: a role that is a number there is below it.
pub const FIRST_NAMED_ROLE: u32 = 2_147_483_648;

/// How many bytes a name may have.
pub const MAX_NAME: usize = 64;

/// How many bytes a text may have.
pub const MAX_TEXT: usize = 256;

/// How many types a file may have.
pub const MAX_TYPES: usize = 64;

/// How many blocks of a type may be open at once.
pub const MAX_DEPTH: usize = 64;

/// How many actors a file may have.
pub const MAX_ACTORS: usize = 32;

/// How many roles an actor may have.
pub const MAX_ROLES: usize = 32;

/// How many cases a file may have, and the log beside one.
pub const MAX_CASES: usize = 4096;

/// How many phases a file may have.
pub const MAX_PHASES: usize = 256;

/// How many script lines a file may have, in all phases.
pub const MAX_LINES: u32 = 60_000;

/// How many script lines may install a version.
pub const MAX_INSTALLS: u32 = 1024;

/// How many migrations of a case the script lines may ask for.
pub const MAX_MIGRATIONS: u64 = 65_536;

/// How many operations a group may have.
pub const MAX_OPS: usize = 256;
