// The nodes of the tree, each with the control edges into it and out of it.
ghost use Rattle.std.specs.Prelude.{◌≡◌, [], ◌∷◌, IfOk, Some, None};
ghost use Rattle.wsm_schema.specs.{TreeOf.{parts_of, lanes_of}, Tree.lanes, Ends.first_node, Places.{place, plain_end, leaving, branch_heads, branch_tails}};

use crate::blocks::{Block, Branch, first_node, leaving};
use crate::cards::{End, Ends, NodeKind};
use std::alloc::Global;
use wsm_lists::NoMemory;

/// What the tree says of a node.
#[derive(Drop)]
pub struct Place {
    pub node: u32,
    pub kind: NodeKind,
    pub partner: Option<u32>,
    pub ins: Ends,
    pub outs: Ends,
}

/// The start of a schema, with the edge to its items or to its finish.
pub fn start_place(start: u32, body: &[Block], finish: u32) -> Place
    ensures { result ≡ place start NodeKind.Start None [] (plain_end (first_node (parts_of body.now) finish) ∷ []) }
{
    Place {
        node: start,
        kind: NodeKind::Start,
        partner: None,
        ins: Ends::new(),
        outs: Ends::of_one(End::plain(first_node(body, finish))),
    }
}

/// The finish of a schema, with the edge from its items or from its start.
pub fn finish_place(start: u32, body: &[Block], finish: u32) -> Place
    ensures { result ≡ place finish NodeKind.Finish None (leaving (parts_of body.now) (plain_end start) ∷ []) [] }
{
    Place {
        node: finish,
        kind: NodeKind::Finish,
        partner: None,
        ins: Ends::of_one(leaving(body, End::plain(start))),
        outs: Ends::new(),
    }
}

/// An activity.
pub fn activity_place(node: u32, from: End, to: u32) -> Place
    ensures { result ≡ place node NodeKind.Activity None (from ∷ []) (plain_end to ∷ []) }
{
    Place {
        node,
        kind: NodeKind::Activity,
        partner: None,
        ins: Ends::of_one(from),
        outs: Ends::of_one(End::plain(to)),
    }
}

/// A split, with an edge into each of its branches.
pub fn split_place(
    alloc: Global,
    kind: NodeKind,
    split: u32,
    join: u32,
    branches: &[Branch],
    from: End,
) -> Result<Place, NoMemory>
    ensures { IfOk result (λ new. new ≡ place split kind (Some join) (from ∷ []) (branch_heads (lanes (lanes_of branches.now)) join)) }
{
    Ok(Place {
        node: split,
        kind,
        partner: Some(join),
        ins: Ends::of_one(from),
        outs: heads(alloc, branches, join)?,
    })
}

/// A join, with an edge from each of its branches.
pub fn join_place(
    alloc: Global,
    kind: NodeKind,
    split: u32,
    join: u32,
    branches: &[Branch],
    to: u32,
) -> Result<Place, NoMemory>
    ensures { IfOk result (λ new. new ≡ place join kind (Some split) (branch_tails (lanes (lanes_of branches.now)) split) (plain_end to ∷ [])) }
{
    Ok(Place {
        node: join,
        kind,
        partner: Some(split),
        ins: tails(alloc, branches, split)?,
        outs: Ends::of_one(End::plain(to)),
    })
}

/// The start of a loop.
pub fn loop_start_place(start: u32, end: u32, body: &[Block], from: End) -> Place
    ensures { result ≡ place start NodeKind.LoopStart (Some end) (from ∷ []) (plain_end (first_node (parts_of body.now) end) ∷ []) }
{
    Place {
        node: start,
        kind: NodeKind::LoopStart,
        partner: Some(end),
        ins: Ends::of_one(from),
        outs: Ends::of_one(End::plain(first_node(body, end))),
    }
}

/// The end of a loop. No edge leads back to its start.
pub fn loop_end_place(start: u32, end: u32, body: &[Block], to: u32) -> Place
    ensures { result ≡ place end NodeKind.LoopEnd (Some start) (leaving (parts_of body.now) (plain_end start) ∷ []) (plain_end to ∷ []) }
{
    Place {
        node: end,
        kind: NodeKind::LoopEnd,
        partner: Some(start),
        ins: Ends::of_one(leaving(body, End::plain(start))),
        outs: Ends::of_one(End::plain(to)),
    }
}

// The edges out of a split.
fn heads(alloc: Global, branches: &[Branch], join: u32) -> Result<Ends, NoMemory>
    ensures { IfOk result (λ new. new ≡ branch_heads (lanes (lanes_of branches.now)) join) }
{
    let mut all = Vec::with_capacity(alloc, branches.len())?;
    for branch in branches {
        let next = first_node(&branch.items, join);
        all.push(End::labelled(next, branch.code))?;
    }
    Ends::from_vec(alloc, all)
}

// The edges into a join.
fn tails(alloc: Global, branches: &[Branch], split: u32) -> Result<Ends, NoMemory>
    ensures { IfOk result (λ new. new ≡ branch_tails (lanes (lanes_of branches.now)) split) }
{
    let mut all = Vec::with_capacity(alloc, branches.len())?;
    for branch in branches {
        let from = End::labelled(split, branch.code);
        all.push(leaving(&branch.items, from))?;
    }
    Ends::from_vec(alloc, all)
}
