// The schemas of the tests.
use std::alloc::Global;
use wsm_schema::{Block, Items, NoMemory, Schema};

/// Activities, one behind the other, between the nodes 0 and 1.
pub fn row_of(alloc: Global, nodes: &[u32]) -> Result<Schema, NoMemory> {
    let mut items = Items::new(alloc);
    for node in nodes {
        items.push(Block::Act(*node))?;
    }
    Ok(Schema::new(alloc, 0, 1, items))
}
