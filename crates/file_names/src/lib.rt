//! Names and their numbers.
//!
//! A name that a file keeps has at most 64 bytes. Names of nodes and of elements are numbered in order of first occurrence,
//! and what is declared in order of declaration.
#![tactic(auto)]

mod declared;
mod name_tables;
mod names;

pub use declared::DeclaredList;
pub use name_tables::NameTable;
pub use names::{Name64, Names, is_short_name};
