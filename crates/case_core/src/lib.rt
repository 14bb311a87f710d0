//! Cases: running instances of a process type, and the events that they answer.
#![tactic(auto)]

mod appending;
mod changes;
mod events;
mod failing;
mod instances;
mod item_changes;
mod live;
mod live_of;
mod replies;
mod rounds;
mod schema_moves;
mod showing;
mod spots;
mod timing;
mod views;
mod work;

pub use events::Event;
pub use failing::FailingEntry;
pub use instances::{Case, CaseState, Instance, LiveCase};
pub use live_of::LiveOf;
pub use replies::Reply;
pub use views::View;
pub use wsm_items::{Item, ItemList};
pub use wsm_sound::CaseId;
