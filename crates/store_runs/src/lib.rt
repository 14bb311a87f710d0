//! What a store that holds the calls of a process file has of types and cases: those of the file's serial run, journals and
//! all. The crate has no function; its statements are in `specs/` and `proofs/`.
#![tactic(auto)]
