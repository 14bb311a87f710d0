// How long an answer may be.

/// The answer to a question has at most so many bytes.
pub const MAX_ANSWER: usize = 268_435_456;
