// In which runs nodes were put, which is where to look for them first.
ghost use Rattle.std.specs.Prelude.{◌≡◌, ℕ, Some, None, IfOk, OnOk, if◌then◌else◌};
ghost use Rattle.wsm_ops.specs.{Outline.is_node, Places.{place_of, Noted}, Runs.joined};

use crate::pieces::Piece;
use std::alloc::Global;
use std::collections::HashMap;
use wsm_schema::NoMemory;

/// The run that each node was put into.
#[derive(Drop)]
pub struct Places {
    nodes: HashMap<u32, usize>,
}

impl Places {
    /// No nodes.
    pub fn new(alloc: Global) -> Places
        ensures { (n : ℕ) → place_of result n ≡ None }
    {
        Places {
            nodes: HashMap::new(alloc),
        }
    }

    /// No nodes, with room for so many.
    pub fn with_room(alloc: Global, nodes: usize) -> Result<Places, NoMemory>
        ensures { IfOk result (λ places. (n : ℕ) → place_of places n ≡ None) }
    {
        Ok(Places {
            nodes: HashMap::with_capacity(alloc, nodes)?,
        })
    }

    /// The run that the node was put into.
    pub fn get(&self, node: u32) -> Option<usize>
        ensures { result ≡ place_of self.now node }
    {
        self.nodes.get(&node).copied()
    }

    /// The piece stands there.
    fn note(&mut self, piece: Piece, run: usize) -> Result<(), NoMemory>
        ensures { OnOk result ((n : ℕ) → place_of self.new n ≡ (if is_node n piece then Some run else place_of self.old n)) }
    {
        match piece {
            Piece::Node { node, .. } => {
                self.nodes.insert(node, run)?;
            }
            Piece::Head { .. } => {}
        }
        Ok(())
    }

    /// The pieces stand in that run.
    pub fn note_all(&mut self, pieces: &[Piece], run: usize) -> Result<(), NoMemory>
        ensures { OnOk result (Noted (place_of self.old) pieces.now (place_of self.new)) }
    {
        for piece in pieces {
            self.note(*piece, run)?;
        }
        Ok(())
    }

    /// The pieces stand in these runs.
    pub fn note_runs(&mut self, runs: &[Vec<Piece>]) -> Result<(), NoMemory>
        ensures { OnOk result (Noted (place_of self.old) (joined runs.now) (place_of self.new)) }
    {
        for (i, run) in runs.iter().enumerate() {
            self.note_all(run, i)?;
        }
        Ok(())
    }
}
