//! The words of a report: names of nodes, elements, types and callers, values, faults, what operations change, and totals.
//! Each is written to a sink and hands on whether all went well.
#![tactic(auto)]

mod faults;
mod footprints;
mod totals;
mod values;
mod words;

pub use faults::put_fault;
pub use footprints::put_name;
pub use totals::{put_case_totals, put_migration_totals};
pub use values::{put_assigned, put_reads, put_writes};
pub use words::{
    caller_word, letter, put_element, put_format, put_node, put_of_node, put_spaced, put_type,
    role_word,
};
