// Ranks of a net's nodes.
ghost use Rattle.std.specs.{Prelude.{◌≡◌, ◌==◌, IfOk}, List.position_from};
ghost use Rattle.wsm_schema.specs.Groups.{placed, SameGroups};

use crate::groups::Groups;
use std::alloc::Global;
use std::marker::Model;
use std::sync::Arc;
use wsm_lists::NoMemory;

/// The nodes of a net in an order in which the source of each edge, sync edges too, stands before its target.
#[derive(Drop)]
pub struct Rank {
    list: Vec<u32>,
    index: Arc<Groups<u32>>,
}

impl Model for Rank {
    ghost use Rattle.std.specs.Prelude.{ℕ, List};
    ghost use Rattle.wsm_schema.specs.Groups.{SameGroups, placed};

    ghost Value = { List ℕ };

    ghost view = { λ a. a.list.items };

    ghost invariant = { λ a. SameGroups (placed 0 a.list.items) a.index.value };
}

impl Rank {
    /// The nodes in that order.
    pub fn nodes(&self) -> &[u32]
        ensures { result.now ≡ self.now }
    {
        &self.list
    }

    /// The place of a node in that order, by a binary search.
    pub fn place(&self, node: u32) -> Option<usize>
        ensures { result ≡ position_from (λ n. n == node) 0 self.now }
    {
        match self.index.first_with(node) {
            Some(row) => Some(row.1 as usize),
            None => None,
        }
    }

    /// The rank of these nodes, which its maker has put into such an order.
    pub fn from_vec(alloc: Global, nodes: Vec<u32>) -> Result<Rank, NoMemory>
        ensures { IfOk result (λ rank. rank ≡ nodes.items) }
    {
        let index = Groups::of(placed(alloc, &nodes)?)?;
        Ok(Rank {
            list: nodes,
            index: Arc::new(alloc, index)?,
        })
    }

    /// The rank of these nodes, whose places are grouped by node already.
    pub(crate) fn with_places(nodes: Vec<u32>, index: Arc<Groups<u32>>) -> Rank
        requires { SameGroups (placed 0 nodes.items) index.value }
        ensures { result ≡ nodes.items }
    {
        Rank { list: nodes, index }
    }
}

// The nodes, each with its place. So many nodes that their places do not fit would not fit into memory.
fn placed(alloc: Global, nodes: &[u32]) -> Result<Vec<(u32, u32)>, NoMemory>
    ensures { IfOk result (λ new. new.items ≡ placed 0 nodes.now) }
{
    if nodes.len() > u32::MAX as usize {
        return Err(NoMemory);
    }
    let mut all = Vec::with_capacity(alloc, nodes.len())?;
    for (place, node) in nodes.iter().enumerate() {
        all.push((*node, place as u32))?;
    }
    Ok(all)
}
