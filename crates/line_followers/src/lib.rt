//! Readers of lines that are brought along a text, place by place.
//! The crate has no function; its statements are in `specs/` and `proofs/`.
#![tactic(auto)]
