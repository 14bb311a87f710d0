//! A server that is opened over a store goes on as the one that wrote it and never stopped. The crate has no function; its
//! statements are in `specs/` and `proofs/`.
#![tactic(auto)]
