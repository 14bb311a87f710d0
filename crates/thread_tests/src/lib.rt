//! Tests of cells, of the server and of the program: what no clause says of them, and that actors work side by side.
#![tactic(auto)]

#[cfg(test)]
mod batches;
#[cfg(test)]
mod cells;
#[cfg(test)]
mod commands;
#[cfg(test)]
mod counters;
#[cfg(test)]
mod crews;
#[cfg(test)]
mod failures;
#[cfg(test)]
mod gates;
#[cfg(test)]
mod loads;
#[cfg(test)]
mod migrations;
#[cfg(test)]
mod rows;
#[cfg(test)]
mod side_by_side;
