//! The run of a process file's script on one thread: the calls of its lines in file order, and what its installs come to.
//!
//! A call is a step of a type's or a case's machine, and an entry of that machine's journal.
#![tactic(auto)]

mod call_counts;
mod calls;
mod checking;
mod runs;
mod serial;

pub use call_counts::CallCounts;
pub use calls::Working;
pub use checking::{defined_kind, verdicts};
pub use runs::{
    CaseEntry, CaseJournal, ClosedCase, ClosedCases, ClosedKind, ClosedKinds, KindEntry,
    KindJournal, Run, Verdict, Verdicts,
};
pub use serial::{defined, serial_run};
pub use wsm_lists::NoMemory;
