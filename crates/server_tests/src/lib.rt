//! Tests of the server, and of what types and cases show: what no clause says of them.
#![tactic(auto)]

#[cfg(test)]
mod cases;
#[cfg(test)]
mod schemas;
#[cfg(test)]
mod types;
#[cfg(test)]
mod worklists;
