//! The program `audit`: it reads a process file with a report behind it from standard input, and says on standard output
//! whether the report is legal.
#![tactic(auto)]

use adept_io::{StdSink, StdSource};
use case_audit::{audit_input, end_status};
use standard_streams::hold_streams;
use std::process::ExitCode;

fn main(rt: HostRuntime) -> ExitCode {
    if hold_streams(&rt).is_err() {
        return ExitCode::from(3);
    }
    let mut source = StdSource::new(rt.stdin());
    let mut sink = StdSink::new(rt.stdout());
    ExitCode::from(end_status(audit_input(&rt, rt.alloc(), &mut source, &mut sink)))
}
