//! The reader of process files: it gives the file or its first refusal.
//!
//! A file is read line by line. A line's form comes from its words alone, and its meaning from the form, the place where
//! the line stands, and what stood before it.
#![tactic(auto)]

mod files;
mod reading;
mod stepping;
mod workable;

pub use file_model::{
    Act, ActorDecl, ActorDecls, Bytes, CaseDecl, CaseDecls, File, FileLimit, FileRefusal, Line,
    Lines, Name64, Names, Phases, Refused, TypeDecl, TypeDecls, Why,
};
pub use reading::{read_file, read_file_up_to};
pub use stepping::step_in;
pub use workable::{read_workable, read_workable_up_to};
pub use wsm_lists::NoMemory;
