// A process file, read.
ghost use Rattle.std.specs.Prelude.{◌≡◌};
ghost use Rattle.file_model.specs.CaseCounts.{is_among};

use file_names::{Name64, Names};
use wsm_lists::{Listing, RoleList, Writes};
use wsm_ops::Ops;
use wsm_schema::Schema;
use wsm_sound::CaseId;

/// A process type. The type at an index has that number.
#[derive(Drop)]
pub struct TypeDecl {
    pub name: Name64,
    pub schema: Schema,
}

/// An actor with the roles in the order given. The actor at an index has the number after it.
#[derive(Drop)]
pub struct ActorDecl {
    pub name: Name64,
    pub roles: RoleList,
}

/// A case.
#[derive(Drop)]
pub struct CaseDecl {
    pub name: Name64,
    pub id: CaseId,
}

impl CaseDecl {
    /// Whether the case is one of the first so many of a type.
    pub fn is_among(&self, type_no: u32, many: u32) -> bool
        ensures { result ≡ is_among type_no many self.now }
    {
        self.id.type_no == type_no && self.id.place < many
    }
}

/// Process types in order of declaration.
pub type TypeDecls = Listing<TypeDecl>;

/// Actors in order of declaration.
pub type ActorDecls = Listing<ActorDecl>;

/// Cases in order of declaration.
pub type CaseDecls = Listing<CaseDecl>;

/// The script lines of a phase, in file order.
pub type Lines = Listing<Line>;

/// The phases in file order.
pub type Phases = Listing<Lines>;

/// What a script line does. Nodes, types and elements are numbers.
#[derive(Drop)]
pub enum Act {
    /// The case comes to be.
    Create {
        id: CaseId,
    },
    /// The node is started.
    Start {
        id: CaseId,
        node: u32,
    },
    /// The node is given back.
    Withdraw {
        id: CaseId,
        node: u32,
    },
    /// The node is ended with a choice, and with these writes, in the order given.
    End {
        id: CaseId,
        node: u32,
        choice: Option<u16>,
        writes: Writes,
    },
    /// The case's schema is changed.
    Change {
        id: CaseId,
        ops: Ops,
    },
    /// The type gets a new version.
    Install {
        type_no: u32,
        ops: Ops,
    },
    /// Each of the type's first `many` cases moves to the newest version. So many were declared before the line.
    Migrate {
        type_no: u32,
        many: u32,
    },
}

/// A script line. `at` is its physical line, from 1, `order` counts the script lines of the file from 1, and `actor` counts
/// the actors from 1.
#[derive(Drop)]
pub struct Line {
    pub at: u32,
    pub order: u32,
    pub actor: u32,
    pub act: Act,
}

/// A process file. Nodes, elements and named roles are numbered over the whole file in order of first occurrence; node 0 is
/// `start` and node 1 `finish`, and the first role with a name is `FIRST_NAMED_ROLE`.
#[derive(Drop)]
pub struct File {
    /// The format of the file and of its report: 1, 2 where nodes may be given back, 3 where declarations may stand among
    /// script lines and roles may have names.
    pub format: u32,
    pub nodes: Names,
    pub elements: Names,
    pub roles: Names,
    pub types: TypeDecls,
    pub actors: ActorDecls,
    pub cases: CaseDecls,
    pub phases: Phases,
}
