//! A large process file, made from the number of its cases alone: cases of two types, which eight workers work, and
//! whose types an engineer changes.
#![tactic(auto)]

mod courses;
mod lines;
mod loads;

pub use adept_io::{Bytes, NoMemory};
pub use loads::load_file;
