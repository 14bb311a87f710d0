//! Tests of lists of operations that are merged.
#![tactic(auto)]

#[cfg(test)]
mod merge_pairs;
#[cfg(test)]
mod merges;
