// How much a turn and a talk may have.

/// An item has at most so many bytes.
pub const MAX_ITEM: usize = 8_388_608;

/// A read gives at most so many bytes.
pub const MAX_READ: usize = 65_536;

/// A turn ends in front of the next item where its answers have more bytes.
pub const MAX_ANSWERS: usize = 1_048_576;

/// A talk has at most so many bytes.
pub const MAX_INPUT: u64 = 9_223_372_036_854_775_807;
