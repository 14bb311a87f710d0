//! The words of a line, found one after another where they lie. Those of a line that has few take no memory of their own.
//!
//! A conversation is read twice: once for where its items end, once for what they say. Both find words by this.
#![tactic(auto)]

mod lists;
mod words;

pub use lists::{FEW_WORDS, LineWords};
pub use words::{Stand, behind, cuts, first_word};
