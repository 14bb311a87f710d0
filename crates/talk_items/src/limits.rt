// How much an item may have.

/// An item has at most so many bytes.
pub const MAX_ITEM: usize = 8_388_608;

// So many words of a line, at the front, tell what it is: `? if ann change`, and whether there is one more behind `adept 3`.
pub(crate) const WORDS: usize = 4;

// So many bytes of a word, at the front, tell what it is: the longest keyword has one less.
pub(crate) const LETTERS: usize = 8;
