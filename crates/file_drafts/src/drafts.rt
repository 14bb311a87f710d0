// A type whose end was not read yet.
ghost use Rattle.std.specs.{Prelude.{◌≡◌, ℕ, [], ◌∷◌, ◌++◌, not, length, OnOk, IfOk, if◌then◌else◌}, Option.is_some};
ghost use Rattle.wsm_lists.specs.{Rows.row_at, Keys.{both, first, first_two}};
ghost use Rattle.file_drafts.specs.Drafts.{new_draft, with_role, with_activity, gate_opened, loop_opened, closed, branched, around, with_sync, with_element, with_read, with_write, whole};

use crate::frames::{Frame, Frames, GateKind, OpenGate, OpenLoop};
use crate::growing::GrowingSchema;
use crate::sequences::{ClosedBranches, Sequence};
use file_names::Name64;
use std::alloc::Global;
use std::mem;
use wsm_lists::{ElementKind, NoMemory};
use wsm_schema::Schema;

/// The number of the node `start`, and of the node `finish`.
const START: u32 = 0;

const FINISH: u32 = 1;

/// Where a line of a type stands: outside of all blocks, in a block before its first branch, in a branch, or in a loop's
/// body.
#[derive(Clone, Copy, PartialEq, Eq, Debug)]
pub enum Around {
    NoBlock,
    BeforeBranches,
    InBranch,
    InBody,
}

/// A type whose end was not read yet: its open blocks, the blocks in the innermost one, and a schema without blocks.
#[derive(Drop)]
pub struct Draft {
    pub name: Name64,
    pub frames: Frames,
    pub here: Sequence,
    pub schema: GrowingSchema,
}

impl Draft {
    /// A type of this name, before its first line.
    pub fn new(alloc: Global, name: Name64) -> Result<Draft, NoMemory>
        ensures { IfOk result (λ draft. draft ≡ new_draft name) }
    {
        let schema = GrowingSchema::new(alloc, START, FINISH)?;
        Ok(Draft {
            name,
            frames: Frames::new(alloc),
            here: Sequence::new(alloc),
            schema,
        })
    }

    /// How many blocks are open.
    pub fn depth(&self) -> usize
        ensures { result ≡ length self.now.frames }
    {
        self.frames.len()
    }

    /// Where the next line stands.
    pub fn around(&self) -> Around
        ensures { result ≡ around self.now.frames }
    {
        self.frames.around()
    }

    /// The node then has this role.
    pub fn put_role(&mut self, node: u32, role: u32) -> Result<(), NoMemory>
        ensures { OnOk result (self.new ≡ with_role node role self.old) }
    {
        self.schema.put_role(node, role)
    }

    /// One more activity.
    pub fn push_activity(&mut self, node: u32) -> Result<(), NoMemory>
        ensures { OnOk result (self.new ≡ with_activity node self.old) }
    {
        self.here.push_activity(node)
    }

    /// A block with branches begins.
    pub fn open_gate(
        &mut self,
        alloc: Global,
        kind: GateKind,
        split: u32,
        join: u32,
    ) -> Result<(), NoMemory>
        ensures { OnOk result (self.new ≡ gate_opened kind split join self.old) }
    {
        let before = mem::replace(&mut self.here, Sequence::new(alloc));
        self.frames.push(Frame::Gate(OpenGate {
            before,
            kind,
            split,
            join,
            closed: ClosedBranches::new(alloc),
            code: None,
        }))
    }

    /// A loop begins.
    pub fn open_loop(&mut self, alloc: Global, start: u32, end: u32) -> Result<(), NoMemory>
        ensures { OnOk result (self.new ≡ loop_opened start end self.old) }
    {
        let before = mem::replace(&mut self.here, Sequence::new(alloc));
        self.frames
            .push(Frame::Loop(OpenLoop { before, start, end }))
    }

    /// The innermost block's next branch begins.
    pub fn open_branch(&mut self, alloc: Global, code: u16) -> Result<(), NoMemory>
        ensures { OnOk result (self.new ≡ branched code self.old) }
    {
        match self.frames.pop() {
            None => Ok(()),
            Some(frame) => {
                let here = mem::replace(&mut self.here, Sequence::new(alloc));
                self.frames.push(frame.branched(code, here)?)
            }
        }
    }

    /// The innermost block ends.
    pub fn close_block(&mut self, alloc: Global) -> Result<(), NoMemory>
        ensures { OnOk result (self.new ≡ closed self.old) }
    {
        match self.frames.pop() {
            None => Ok(()),
            Some(frame) => {
                let here = mem::replace(&mut self.here, Sequence::new(alloc));
                self.here = frame.ended(here)?;
                Ok(())
            }
        }
    }

    /// One more sync edge. False, with no change, where the edge is there.
    pub fn put_sync(&mut self, source: u32, target: u32) -> Result<bool, NoMemory>
        ensures added { IfOk result (λ added. added ≡ not (is_some (row_at both (source, target) self.old.schema.syncs))) }
        ensures rows { IfOk result (λ added. self.new ≡ (if added then with_sync source target self.old else self.old)) }
    {
        self.schema.put_sync(source, target)
    }

    /// One more element. False, with no change, where it is there.
    pub fn put_element(&mut self, element: u32, kind: ElementKind) -> Result<bool, NoMemory>
        ensures added { IfOk result (λ added. added ≡ not (is_some (row_at first (element, 0) self.old.schema.elements))) }
        ensures rows { IfOk result (λ added. self.new ≡ (if added then with_element element kind self.old else self.old)) }
    {
        self.schema.put_element(element, kind)
    }

    /// One more read. False, with no change, where the node's read of the element is there.
    pub fn put_read(&mut self, node: u32, element: u32, mandatory: bool) -> Result<bool, NoMemory>
        ensures added { IfOk result (λ added. added ≡ not (is_some (row_at first_two (node, element) self.old.schema.reads))) }
        ensures rows { IfOk result (λ added. self.new ≡ (if added then with_read node element mandatory self.old else self.old)) }
    {
        self.schema.put_read(node, element, mandatory)
    }

    /// One more write. False, with no change, where the node's write of the element is there.
    pub fn put_write(&mut self, node: u32, element: u32) -> Result<bool, NoMemory>
        ensures added { IfOk result (λ added. added ≡ not (is_some (row_at both (node, element) self.old.schema.writes))) }
        ensures rows { IfOk result (λ added. self.new ≡ (if added then with_write node element self.old else self.old)) }
    {
        self.schema.put_write(node, element)
    }

    /// The name and the schema of a type that ends here.
    pub fn finish(self, alloc: Global) -> Result<(Name64, Schema), NoMemory>
        ensures name { IfOk result (λ ended. ended.0 ≡ self.name) }
        ensures schema { IfOk result (λ ended. ended.1 ≡ whole self) }
    {
        let Draft {
            name,
            here,
            schema,
            ..
        } = self;
        let schema = schema.into_schema(alloc, here.into_items())?;
        Ok((name, schema))
    }
}
