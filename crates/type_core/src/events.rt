// Events of a process type.
ghost use Rattle.std.specs.Prelude.{◌≡◌, IfOk};

use std::alloc::Global;
use wsm_ops::Ops;
use wsm_schema::{NoMemory, Schema};

/// What may happen to a process type.
#[derive(Drop)]
pub enum KindEvent {
    /// The type gets its first version, with this schema.
    Define(Schema),
    /// The type gets its next version, which the operations make of the newest one.
    Install(Ops),
    /// Somebody asks for the newest version.
    Newest,
}

impl KindEvent {
    /// An equal event.
    pub fn copy(&self, alloc: Global) -> Result<KindEvent, NoMemory>
        ensures { IfOk result (λ event. event ≡ self.now) }
    {
        match self {
            KindEvent::Define(schema) => Ok(KindEvent::Define(schema.copy(alloc)?)),
            KindEvent::Install(ops) => Ok(KindEvent::Install(ops.copy(alloc)?)),
            KindEvent::Newest => Ok(KindEvent::Newest),
        }
    }
}
