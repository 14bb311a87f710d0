// The schema of the tests.
ghost use Rattle.std.specs.Prelude.{◌≤◌, length, IfOk};
ghost use Rattle.wsm_schema.specs.Flat.{cards_of};

use std::alloc::Global;
use wsm_schema::{Block, NoMemory, Schema};

/// The one activity, and the role that may start it.
pub const NODE: u32 = 2;

pub const ROLE: u32 = 5;

/// One activity between the nodes 0 and 1.
pub fn one_activity(alloc: Global) -> Result<Schema, NoMemory>
    ensures { IfOk result (λ schema. length (cards_of schema) ≤ 60000) }
{
    let body = vec![in alloc; Block::Act(NODE)]?;
    let mut schema = Schema::new(alloc, 0, 1, body);
    schema.put_role(NODE, ROLE)?;
    Ok(schema)
}
