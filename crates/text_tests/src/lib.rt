//! Tests of sources, sinks and the reader of process files: what no clause says of them.
#![tactic(auto)]

#[cfg(test)]
mod files;
#[cfg(test)]
mod sources_and_sinks;
