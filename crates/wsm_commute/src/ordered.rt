// What the lists of a schema keep.
ghost use Rattle.wsm_commute.specs.Ordered.{IsOrdered};

use wsm_schema::Schema;

// Reads the lists of a schema, which tells that they ascend.
pub fn read_lists(schema: &Schema)
    ensures { IsOrdered schema.now }
{
    let _syncs = schema.syncs.as_slice();
    let _elements = schema.elements.as_slice();
    let _reads = schema.reads.as_slice();
    let _writes = schema.writes.as_slice();
    let _roles = schema.roles.as_slice();
}
