//! Lines and words of a process file, on bytes alone.
//!
//! A line ends with a line feed, and its words are separated by spaces and tabs. A word is a keyword, a name, a number, a
//! quoted text or a pair; what it means is not known here.
#![tactic(auto)]

mod lengths;
mod lines;
mod names;
mod numbers;
mod pairs;
mod texts;
mod words;

pub use lengths::{TooLong, first_long};
pub use lines::{first_line, is_text, without_return};
pub use names::{NameWord, is_name};
pub use numbers::{code, integer, role};
pub use pairs::{Literal, pair};
pub use texts::text;
pub use words::{is_skipped, read_words, words_of};
pub use wsm_lists::NoMemory;
