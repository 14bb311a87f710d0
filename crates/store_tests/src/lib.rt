//! Tests of the store: what no clause says of its disks, its records, its steps, and the work of a file over it.
#![tactic(auto)]

#[cfg(test)]
mod disks;
#[cfg(test)]
mod keeping;
#[cfg(test)]
mod opening;
#[cfg(test)]
mod payloads;
#[cfg(test)]
mod playing;
#[cfg(test)]
mod stores;
