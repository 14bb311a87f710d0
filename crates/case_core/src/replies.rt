// What a case answers.
ghost use Rattle.std.specs.Prelude.{◌≡◌, IfOk};

use crate::failing::FailingEntry;
use std::alloc::Global;
use wsm_foot::Name;
use wsm_schema::{NoMemory, Nodes, ReadValues, State};
use wsm_sound::Fault;

/// What a case answers to an event. After a refusal the case is as it was before.
#[derive(Drop)]
pub enum Reply {
    /// The case was created.
    Created,
    /// The node was started, and read these values.
    Started(ReadValues),
    /// The node was ended.
    Ended,
    /// The loop goes on once more.
    Repeated,
    /// The node was given back.
    Withdrawn,
    /// The case has a schema of its own.
    Changed,
    /// The case stands on the version with this number.
    Migrated(u32),
    /// Refused: the case was created before.
    Already,
    /// Refused: the case is not created.
    NoCase,
    /// Refused: the schema has no such node.
    NoNode,
    /// Refused: the node is not activated, but in this state.
    NotReady(State),
    /// Refused: the user has not this role.
    NotAllowed(u32),
    /// Refused: the node is not running, but in this state.
    NotRunning(State),
    /// Refused: this user started the node.
    NotHolder(u32),
    /// Refused: these elements are missing, named twice, of another kind, or no write edges.
    WrongWrites(Nodes),
    /// Refused: the choice is none of the node's.
    NoBranch(Option<u16>),
    /// Refused: the finish node is completed.
    Finished,
    /// Refused: an operation, or the schema that the operations make, has this fault.
    Unsound(Fault),
    /// Refused: the trail does not replay on the new schema; this is the first entry that fails, at this position.
    Blocked(u32, FailingEntry),
    /// Refused: the version is one of another type.
    OtherType,
    /// Refused: the case stands on the version with this number, which is not lower.
    NotNewer(u32),
    /// Refused: the case and the versions since its base have both changed this, or one has changed what the other uses.
    Overlap(Name),
}

impl Reply {
    /// An equal reply.
    pub fn copy(&self, alloc: Global) -> Result<Reply, NoMemory>
        ensures { IfOk result (λ reply. reply ≡ self.now) }
    {
        Ok(match self {
            Reply::Created => Reply::Created,
            Reply::Started(reads) => Reply::Started(reads.duplicate(alloc)?),
            Reply::Ended => Reply::Ended,
            Reply::Repeated => Reply::Repeated,
            Reply::Withdrawn => Reply::Withdrawn,
            Reply::Already => Reply::Already,
            Reply::NoCase => Reply::NoCase,
            Reply::NoNode => Reply::NoNode,
            Reply::NotReady(state) => Reply::NotReady(*state),
            Reply::NotAllowed(role) => Reply::NotAllowed(*role),
            Reply::NotRunning(state) => Reply::NotRunning(*state),
            Reply::NotHolder(user) => Reply::NotHolder(*user),
            Reply::WrongWrites(elements) => Reply::WrongWrites(elements.copy(alloc)?),
            Reply::NoBranch(choice) => Reply::NoBranch(*choice),
            Reply::OtherType => Reply::OtherType,
            Reply::Changed => Reply::Changed,
            Reply::Migrated(number) => Reply::Migrated(*number),
            Reply::Finished => Reply::Finished,
            Reply::Unsound(fault) => Reply::Unsound(*fault),
            Reply::Blocked(position, entry) => Reply::Blocked(*position, entry.copy(alloc)?),
            Reply::NotNewer(number) => Reply::NotNewer(*number),
            Reply::Overlap(name) => Reply::Overlap(*name),
        })
    }
}

/// Two equal replies, one to keep and one to hand out.
pub fn both(alloc: Global, reply: Reply) -> Result<(Reply, Reply), NoMemory>
    ensures { IfOk result (λ replies. (replies.0 ≡ reply) × (replies.1 ≡ reply)) }
{
    let copy = reply.copy(alloc)?;
    Ok((reply, copy))
}
