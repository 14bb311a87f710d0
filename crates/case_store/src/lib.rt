// Types and cases on a disk: each call is stored before its reply is given, and a stop at any moment loses nothing that
// was acknowledged.
//
// A `Store` holds the types and cases that the records of its disk make by fold. `open` reads them; a `step` makes one
// call, adds its record, and answers what the machine does; `step_all` makes several and adds their records as one group;
// `close` gives the disk, the types and the cases back.
#![tactic(auto)]

mod held;
mod refusals;
mod replies;
mod stores;

pub use refusals::{OpenRefusal, StoreFault};
pub use replies::StoredReply;
pub use stores::Store;
