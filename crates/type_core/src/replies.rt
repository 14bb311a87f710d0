// What a process type answers.
ghost use Rattle.std.specs.Prelude.{◌≡◌, IfOk};

use wsm_schema::NoMemory;
use wsm_sound::{Fault, Version};

/// What a process type answers to an event. After a refusal the type is as it was before.
#[derive(Drop)]
pub enum KindReply {
    /// The type has its first version.
    Defined,
    /// The type has a new version, with this number.
    Installed(u32),
    /// This is the newest version.
    Is(Version),
    /// Refused: the type was defined before.
    Already,
    /// Refused: the type is not defined.
    NoType,
    /// Refused: the type has 256 versions.
    VersionLimit,
    /// Refused: an operation, or the schema, has this fault.
    Unsound(Fault),
}

impl KindReply {
    /// An equal reply, which shares the version.
    pub fn share(&self) -> Result<KindReply, NoMemory>
        ensures { IfOk result (λ reply. reply ≡ self.now) }
    {
        match self {
            KindReply::Defined => Ok(KindReply::Defined),
            KindReply::Installed(number) => Ok(KindReply::Installed(*number)),
            KindReply::Is(version) => Ok(KindReply::Is(version.share()?)),
            KindReply::Already => Ok(KindReply::Already),
            KindReply::NoType => Ok(KindReply::NoType),
            KindReply::VersionLimit => Ok(KindReply::VersionLimit),
            KindReply::Unsound(fault) => Ok(KindReply::Unsound(*fault)),
        }
    }
}

/// Two equal replies, one to keep and one to hand out.
pub fn both(reply: KindReply) -> Result<(KindReply, KindReply), NoMemory>
    ensures { IfOk result (λ replies. (replies.0 ≡ reply) × (replies.1 ≡ reply)) }
{
    let copy = reply.share()?;
    Ok((reply, copy))
}
