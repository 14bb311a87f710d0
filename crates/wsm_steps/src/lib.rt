//! The lemmas that keep a case's trail whole: what each event that is accepted adds to the trail is applicable there.
//! The crate has no function; its statements are in `specs/` and `proofs/`.
#![tactic(auto)]
