//! Where the cases of each type were declared, while types and cases are declared.
#![tactic(auto)]

mod places;

pub use places::CasePlaces;
pub use wsm_lists::NoMemory;
