// What a run leaves behind.
use case_core::Case;
use std::marker::Model;
use turn_cell::Entry;
use type_core::{Kind, KindReply};
use wsm_lists::Listing;

/// A call of a case: who made it, the event, and the reply. The caller is the actor's number, or 0 for the program itself.
pub type CaseEntry = Entry<Case>;

/// A call of a type: who made it, the event, and the reply. The caller is the actor's number, or 0 for the program itself.
pub type KindEntry = Entry<Kind>;

/// The calls of a case, in order.
pub type CaseJournal = Listing<CaseEntry>;

/// The calls of a type, in order.
pub type KindJournal = Listing<KindEntry>;

/// A case at the end of a run, and the calls that were made of it.
#[derive(Drop)]
pub struct ClosedCase {
    pub machine: Case,
    pub journal: CaseJournal,
}

impl Model for ClosedCase {
    ghost use Rattle.std.specs.Coded.{codes};
    ghost use Rattle.case_core.specs.Codes.{case_code};
    ghost use Rattle.case_core.specs.contracts.events.Event as event;
    ghost use Rattle.script_run.specs.CaseEnds.{CaseEnd};

    ghost Value = { CaseEnd };

    ghost coded = { Prim.hlevel (codes, case_code, event.the_row.coded) };

    ghost view = { λ a. record { machine = a.machine.state; journal = a.journal } };
}

/// A type at the end of a run, and the calls that were made of it.
#[derive(Drop)]
pub struct ClosedKind {
    pub machine: Kind,
    pub journal: KindJournal,
}

/// Cases in order of declaration.
pub type ClosedCases = Listing<ClosedCase>;

/// Types in order of declaration.
pub type ClosedKinds = Listing<ClosedKind>;

/// The end of a run: each type and each case of the file, in order of declaration.
#[derive(Drop)]
pub struct Run {
    pub kinds: ClosedKinds,
    pub cases: ClosedCases,
}

/// What a type answers to a script line that installs a version. `at` is the line's physical line, from 1.
#[derive(Drop)]
pub struct Verdict {
    pub at: u32,
    pub type_no: u32,
    pub reply: KindReply,
}

/// The verdicts on the lines that install, in file order.
pub type Verdicts = Listing<Verdict>;
