// Why a file is refused.
use adept_io::Bytes;
use wsm_lists::NoMemory;
use wsm_sound::Fault;

/// What a file may have no more of.
#[derive(Clone, Copy, PartialEq, Eq, Debug)]
pub enum FileLimit {
    /// The bytes of a name: 64.
    Name,
    /// The bytes of a text: 256.
    Text,
    /// Types: 64.
    Types,
    /// Actors: 32.
    Actors,
    /// Cases: 4,096.
    Cases,
    /// Phases: 256.
    Phases,
    /// Script lines: 60,000.
    Lines,
    /// Lines that install: 1,024.
    Installs,
    /// Operations in a group: 256.
    Ops,
    /// Migrations of a case: 65,536, where a line that migrates counts once for each declared case of its type.
    Migrations,
    /// Roles of an actor: 32.
    Roles,
    /// Open blocks: 64.
    Depth,
}

/// Why a file is refused.
#[derive(Clone, Copy, PartialEq, Eq, Debug)]
pub enum Why {
    /// The first line that says something is not the header.
    Header,
    /// The last line has no line feed, or the file ends inside a type or a group.
    Unended,
    /// The line is not UTF-8.
    NotText,
    /// The line has none of the forms for its place.
    Form,
    /// An actor, a case or a type was not declared before.
    Unknown,
    /// What the line declares or lists stood before.
    Twice,
    /// One past a limit.
    Limit(FileLimit),
    /// The type that ends is not sound.
    Unsound(Fault),
}

/// A refusal: the physical line, from 1, the reason, and the reason's text.
#[derive(Drop)]
pub struct Refused {
    pub line: u32,
    pub why: Why,
    pub text: Bytes,
}

/// Why no file was read.
#[derive(Drop)]
pub enum FileRefusal {
    /// The bytes stand for no file.
    Refused(Refused),
    /// There was not enough memory.
    NoMemory,
}

impl From<NoMemory> for FileRefusal {
    ghost use Rattle.std.specs.Prelude.{◌≡◌};
    ghost use Rattle.file_model.specs.declared.refusals.FileRefusal.TheVariants as refusal;

    ghost from_gives = { λ _ e. e ≡ refusal.NoMemory };

    fn from(_error: NoMemory) -> FileRefusal {
        FileRefusal::NoMemory
    }
}
