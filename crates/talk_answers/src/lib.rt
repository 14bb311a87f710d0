//! What is answered in a talk: the entries of a unit's calls, what a question asks for, and the last line of each answer. The
//! lines are the report's own where it has such lines.
#![tactic(auto)]

mod actors;
mod entries;
mod items;
mod lines;
mod reports;
mod standings;
mod tries;
mod types;

pub use actors::put_actors;
pub use entries::put_entries;
pub use items::{put_all_items, put_items_for};
pub use lines::{put_no, put_ok, put_quoted};
pub use reports::put_report;
pub use standings::{put_all_standings, put_standings_of};
pub use tries::{put_defined, put_tried};
pub use types::put_types;
