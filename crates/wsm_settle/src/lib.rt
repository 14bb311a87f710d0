//! What an event does to kept marks: the changes that make them those of the trail with that event.
#![tactic(auto)]

mod ends;
mod equations;
mod flags;
mod openings;
mod overlays;
mod pending;
mod places;
mod repeats;
mod sources;
mod starts;
mod timing;
mod walks;

pub use ends::after_end;
pub use equations::equation;
pub use overlays::{MarkRows, Overlay, mark_at, said};
pub use pending::{hand_on, hand_to};
pub use places::Pending;
pub use repeats::after_again;
pub use sources::{Timed, time_of};
pub use starts::{after_start, after_withdraw};
pub use timing::{NoMarks, TimedMarks, timed};
pub use walks::revise;
pub use wsm_rules::{Changes, CountedMarks, Mark, MarkReads, Marks};
