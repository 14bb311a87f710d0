//! The items of a conversation, on bytes alone: where a unit, a question or a header line ends, by the words of its lines.
//!
//! An item is a line, or a group of lines up to one whose only word is `end`, with the lines in front of it and inside it
//! that say nothing. What an item means is not known here.
#![tactic(auto)]

mod front;
mod items;
mod keywords;
mod limits;
mod lines;
mod scanner;
mod words;

pub use items::ItemKind;
pub use limits::MAX_ITEM;
pub use scanner::Scanner;
