//! The work of a process file over a store that was begun before, or is begun with it: those of the file's calls that the
//! store does not hold yet are stored, and then the report is written.
#![tactic(auto)]

mod keeping;
mod playing;
mod reading;
mod storing;
mod unkept;

pub use keeping::{keep_file, keep_file_within};
pub use playing::{StoreOutcome, store_play, store_play_within};
pub use reading::read_process;
pub use unkept::Unkept;
