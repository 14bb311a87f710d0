//! The report of a run: its text as definitions, and what writes exactly that text to a sink, without taking memory.
//!
//! The report has the calls of each type and of each case, line by line, how each case ended, and a line of totals. What is
//! told of a file that is checked alone has a line for each type and for each install. Who compares a report with the run
//! that it tells of writes line by line: each `put_` writes its line where all went well before, and answers whether all
//! went well.
#![tactic(auto)]

mod case_lines;
mod checks;
mod ends;
mod kind_lines;
mod report;

pub use adept_io::Failed;
pub use case_lines::{put_case_line, put_reply};
pub use checks::write_verdicts;
pub use ends::{put_end, put_item};
pub use kind_lines::put_kind_line;
pub use report::{
    put_case, put_case_head, put_cases, put_first_line, put_kind, put_kinds, put_type_head,
    write_run, write_summary,
};
pub use script_run::{
    CaseEntry, CaseJournal, ClosedCase, ClosedCases, ClosedKind, ClosedKinds, KindEntry,
    KindJournal, Run, Verdict, Verdicts,
};
