// How much a file that grows may declare.

/// How many types it may have.
pub const MAX_HELD_TYPES: u32 = 65_536;

/// How many actors it may have.
pub const MAX_HELD_ACTORS: u32 = 65_536;

/// How many cases it may have.
pub const MAX_HELD_CASES: u32 = 1_048_576;
