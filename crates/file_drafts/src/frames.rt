// Open blocks.
ghost use Rattle.std.specs.Prelude.{◌≡◌, ℕ, [], ◌∷◌, length, OnOk, IfOk, IfSome, IfNone};
ghost use Rattle.wsm_schema.specs.Tree.{parts};
ghost use Rattle.file_drafts.specs.Drafts.{with_open, parts_behind, next_frame, around, around_frame};

use crate::drafts::Around;
use crate::sequences::{ClosedBranches, Sequence};
use std::alloc::Global;
use std::marker::Model;
use wsm_lists::NoMemory;

/// Whether all branches of a block are taken, or one.
#[derive(Clone, Copy, PartialEq, Eq, Debug)]
pub enum GateKind {
    And,
    Xor,
}

/// An open block with branches: what stands before it, the branches that have ended, and the code of the open one.
#[derive(Drop)]
pub struct OpenGate {
    pub before: Sequence,
    pub kind: GateKind,
    pub split: u32,
    pub join: u32,
    pub closed: ClosedBranches,
    pub code: Option<u16>,
}

/// An open loop, and what stands before it.
#[derive(Drop)]
pub struct OpenLoop {
    pub before: Sequence,
    pub start: u32,
    pub end: u32,
}

/// An open block.
#[derive(Drop)]
pub enum Frame {
    Gate(OpenGate),
    Loop(OpenLoop),
}

/// Open blocks one in another. Contracts see them with the innermost first.
#[derive(Drop)]
pub struct Frames {
    list: Vec<Frame>,
}

impl Model for Frames {
    ghost use Rattle.std.specs.Prelude.{List, reverse};
    ghost use Rattle.std.specs.Coded.{codes};
    ghost use Rattle.file_drafts.specs.declared.frames.Frame.{Frame};
    ghost use Rattle.file_drafts.specs.contracts.frames.Frame as one;

    ghost Value = { List Frame };

    ghost coded = { Prim.hlevel (codes, one.the_row.coded) };

    ghost view = { λ a. reverse a.list.items };
}

impl OpenGate {
    // The branches that have ended, once the open one has ended too.
    fn with_open(
        closed: ClosedBranches,
        code: Option<u16>,
        here: Sequence,
    ) -> Result<ClosedBranches, NoMemory>
        ensures { IfOk result (λ all. all ≡ with_open closed code here) }
    {
        let mut all = closed;
        if let Some(code) = code {
            all.push(code, here)?;
        }
        Ok(all)
    }

    // The blocks before this one, with this one at their end.
    fn ended(self, here: Sequence) -> Result<Sequence, NoMemory>
        ensures { IfOk result (λ all. all ≡ parts_behind (Frame.Gate self) here) }
    {
        let mut all = self.before;
        let branches = OpenGate::with_open(self.closed, self.code, here)?;
        match self.kind {
            GateKind::And => all.push_and(self.split, self.join, branches)?,
            GateKind::Xor => all.push_xor(self.split, self.join, branches)?,
        }
        Ok(all)
    }

    // The block with its next branch open.
    fn branched(self, code: u16, here: Sequence) -> Result<OpenGate, NoMemory>
        ensures { IfOk result (λ gate. Frame.Gate gate ≡ next_frame code (Frame.Gate self) here) }
    {
        let closed = OpenGate::with_open(self.closed, self.code, here)?;
        Ok(OpenGate {
            before: self.before,
            kind: self.kind,
            split: self.split,
            join: self.join,
            closed,
            code: Some(code),
        })
    }

    fn around(&self) -> Around
        ensures { result ≡ around_frame (Frame.Gate self.now) }
    {
        match self.code {
            None => Around::BeforeBranches,
            Some(_) => Around::InBranch,
        }
    }
}

impl OpenLoop {
    fn ended(self, here: Sequence) -> Result<Sequence, NoMemory>
        ensures { IfOk result (λ all. all ≡ parts_behind (Frame.Loop self) here) }
    {
        let mut all = self.before;
        all.push_loop(self.start, self.end, here)?;
        Ok(all)
    }
}

impl Frame {
    /// The blocks before the block, with it at their end; `here` is what its open part holds.
    pub fn ended(self, here: Sequence) -> Result<Sequence, NoMemory>
        ensures { IfOk result (λ all. all ≡ parts_behind self here) }
    {
        match self {
            Frame::Gate(gate) => gate.ended(here),
            Frame::Loop(open) => open.ended(here),
        }
    }

    /// The block with its next branch open. A loop has none.
    pub fn branched(self, code: u16, here: Sequence) -> Result<Frame, NoMemory>
        ensures { IfOk result (λ frame. frame ≡ next_frame code self here) }
    {
        match self {
            Frame::Gate(gate) => Ok(Frame::Gate(gate.branched(code, here)?)),
            Frame::Loop(open) => Ok(Frame::Loop(open)),
        }
    }

    fn around(&self) -> Around
        ensures { result ≡ around_frame self.now }
    {
        match self {
            Frame::Gate(gate) => gate.around(),
            Frame::Loop(_) => Around::InBody,
        }
    }
}

impl Frames {
    /// No block is open.
    pub fn new(alloc: Global) -> Frames
        ensures { result ≡ [] }
    {
        Frames {
            list: Vec::new(alloc),
        }
    }

    /// How many blocks are open.
    pub fn len(&self) -> usize
        ensures { result ≡ length self.now }
    {
        self.list.len()
    }

    /// One more open block, the innermost.
    pub fn push(&mut self, frame: Frame) -> Result<(), NoMemory>
        ensures { OnOk result (self.new ≡ frame ∷ self.old) }
    {
        self.list.push(frame)?;
        Ok(())
    }

    /// The innermost open block, which is then none of them.
    pub fn pop(&mut self) -> Option<Frame>
        ensures some { IfSome result (λ frame. self.old ≡ frame ∷ self.new) }
        ensures none { IfNone result ((self.old ≡ []) × (self.new ≡ [])) }
    {
        self.list.pop()
    }

    /// Where a line stands that comes next.
    pub fn around(&self) -> Around
        ensures { result ≡ around self.now }
    {
        match self.list.last() {
            None => Around::NoBlock,
            Some(frame) => frame.around(),
        }
    }
}
