//! What holds of every process file that is read, so that its lines can be worked: what they name was declared, cases
//! count within their types, and nothing is past its limit. The crate has no function; its statements are in `specs/` and
//! `proofs/`, and the reader promises them.
#![tactic(auto)]
