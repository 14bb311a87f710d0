//! The process file as a value, and what its lines mean.
//!
//! What the bytes of a file stand for is `specs/Reading`: a fold of lines over what was read so far, which gives the file or
//! its first refusal. How large a file that is read can be is proved in `proofs/Bounds`. The crate has types and
//! definitions, and no function of its own.
#![tactic(auto)]

mod case_tables;
mod files;
mod refusals;
mod states;

pub use adept_io::Bytes;
pub use case_tables::CaseTable;
pub use file_names::{Name64, Names};
pub use files::{
    Act, ActorDecl, ActorDecls, CaseDecl, CaseDecls, File, Line, Lines, Phases, TypeDecl, TypeDecls,
};
pub use refusals::{FileLimit, FileRefusal, Refused, Why};
pub use states::{Contents, Counts, Group, Limits, Section, Stop, Target};
pub use wsm_lists::NoMemory;
