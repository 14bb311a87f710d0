//! What follows for migrations where changes commute: on a version of its own type a case never meets an operation that is refused.
//! The crate has no function; its statements are in `specs/` and `proofs/`.
#![tactic(auto)]
