// Events of a case.
ghost use Rattle.std.specs.Prelude.{◌≡◌, IfOk};

use std::alloc::Global;
use wsm_ops::Ops;
use wsm_schema::{NoMemory, RoleList, Writes};
use wsm_sound::Version;

/// What may happen to a case.
#[derive(Drop)]
pub enum Event {
    /// The case begins, on this version of its type.
    Create(Version),
    /// A user with these roles starts a node.
    Start {
        node: u32,
        user: u32,
        roles: RoleList,
    },
    /// A user ends a node that it started, with values for its write edges: an XOR split with the code of the
    /// branch that goes on, a loop's end with 1 to go on once more or 0 to leave the loop, an activity with none.
    End {
        node: u32,
        user: u32,
        choice: Option<u16>,
        writes: Writes,
    },
    /// A user gives back a node that it started, which may then be started anew.
    Withdraw {
        node: u32,
        user: u32,
    },
    /// The case gets a schema of its own, which the operations make of the one that it has.
    Change(Ops),
    /// The case moves to this version of its type, with its own operations.
    Migrate(Version),
}

impl Event {
    /// An equal event, which shares the version.
    pub fn copy(&self, alloc: Global) -> Result<Event, NoMemory>
        ensures { IfOk result (λ event. event ≡ self.now) }
    {
        match self {
            Event::Create(version) => Ok(Event::Create(version.share()?)),
            Event::Start { node, user, roles } => Ok(Event::Start {
                node: *node,
                user: *user,
                roles: roles.copy(alloc)?,
            }),
            Event::End {
                node,
                user,
                writes,
                choice,
            } => Ok(Event::End {
                node: *node,
                user: *user,
                writes: writes.duplicate(alloc)?,
                choice: *choice,
            }),
            Event::Withdraw { node, user } => Ok(Event::Withdraw {
                node: *node,
                user: *user,
            }),
            Event::Change(ops) => Ok(Event::Change(ops.copy(alloc)?)),
            Event::Migrate(version) => Ok(Event::Migrate(version.share()?)),
        }
    }
}
