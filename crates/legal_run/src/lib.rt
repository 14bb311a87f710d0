//! Which runs of a process file are legal: what calls its lines stand for, and what the journals of a run must be.
//! The crate has no function; its statements are in `specs/` and `proofs/`.
#![tactic(auto)]
