//! The lemmas that let an event or a new schema cost what it reaches: marks as a case keeps them, a walk over the nodes behind a change, and the region that a new schema touches.
//! The crate has no function; its statements are in `specs/` and `proofs/`, and `docs/PROOFS.md` says what they are for.
#![tactic(auto)]
