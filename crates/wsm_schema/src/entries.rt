// Entries of a trail.
ghost use Rattle.std.specs.{Prelude.{◌≡◌, IfOk}, Option.option_copied};
ghost use Rattle.wsm_lists.specs.Values.{value_in};
ghost use Rattle.wsm_schema.specs.Trail.{written_by};

use std::alloc::Global;
use wsm_lists::{NoMemory, ReadValues, Value, Writes};

/// An entry of a trail.
#[derive(Drop)]
pub enum Entry {
    /// A user started the node, which then read these values.
    Start {
        node: u32,
        user: u32,
        reads: ReadValues,
    },
    /// The node was ended, with the code of the branch that goes on, or 0 where a loop is left.
    End {
        node: u32,
        writes: Writes,
        choice: Option<u16>,
    },
    /// The loop that ends with the node goes on once more.
    Again {
        node: u32,
        writes: Writes,
    },
    /// What was written by an entry that has left the trail.
    Wrote {
        writes: Writes,
    },
}

impl Entry {
    /// What the entry wrote to the element.
    pub fn written(&self, element: u32) -> Option<&Value>
        ensures { option_copied result ≡ value_in element (written_by self.now) }
    {
        match self {
            Entry::Start { .. } => None,
            Entry::End { writes, .. } => writes.value(element),
            Entry::Again { writes, .. } => writes.value(element),
            Entry::Wrote { writes } => writes.value(element),
        }
    }

    /// An equal entry.
    pub fn copy(&self, alloc: Global) -> Result<Entry, NoMemory>
        ensures { IfOk result (λ new. new ≡ self.now) }
    {
        match self {
            Entry::Start { node, user, reads } => Ok(Entry::Start {
                node: *node,
                user: *user,
                reads: reads.duplicate(alloc)?,
            }),
            Entry::End {
                node,
                writes,
                choice,
            } => Ok(Entry::End {
                node: *node,
                writes: writes.duplicate(alloc)?,
                choice: *choice,
            }),
            Entry::Again { node, writes } => Ok(Entry::Again {
                node: *node,
                writes: writes.duplicate(alloc)?,
            }),
            Entry::Wrote { writes } => Ok(Entry::Wrote {
                writes: writes.duplicate(alloc)?,
            }),
        }
    }
}
