//! What holds of every process file that is read, so that a report of it can be judged line by line: its names are words,
//! its actors have names of their own, and each of its texts stands in one line. The crate has no function; its statements
//! are in `specs/` and `proofs/`.
#![tactic(auto)]
