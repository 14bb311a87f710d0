//! Tests of lists, schemas and their checks: what no clause says of them.
#![tactic(auto)]

#[cfg(test)]
mod block_checks;
#[cfg(test)]
mod data_checks;
#[cfg(test)]
mod lists;
#[cfg(test)]
mod marks;
#[cfg(test)]
mod schemas;
#[cfg(test)]
mod trees;
