//! The entries in the answer to a unit that is accepted are those that the run of the longer file has more than that of the
//! shorter, in the order of the unit's calls. The crate has no function; its statements are in `specs/` and `proofs/`.
#![tactic(auto)]
