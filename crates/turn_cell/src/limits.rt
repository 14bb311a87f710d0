//! The limits of a cell. With them no machine of a cell grows past the age that its `step` may have.

/// A journal has at most so many entries.
pub const MAX_ENTRIES: usize = 65_536;

/// The event of a call weighs at most so much.
pub const MAX_WEIGHT: u32 = 60_000;

/// A machine is at most so old when its cell is made.
pub const MAX_OPENING_AGE: u32 = 60_000_000;

/// A step is only asked for where age and weight are at most so much together.
pub const MAX_AGE: u32 = 4_000_000_000;
