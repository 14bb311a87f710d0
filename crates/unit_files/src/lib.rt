//! What is read of units one after another is the process file of all their bytes, as the reader's definition has it, where
//! the limits of a file do not cut it off; and a unit that is refused is refused by that definition too, for the same reason.
//! The crate has no function; its statements are in `specs/` and `proofs/`.
#![tactic(auto)]
