//! Readers that take lines one after another, how many lines of a text each takes, and the reader of a journal: each line is the
//! next call that its caller owes, phase by phase. The crate has no function; its statements are in `specs/` and `proofs/`.
#![tactic(auto)]
