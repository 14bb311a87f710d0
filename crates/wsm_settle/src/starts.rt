// What the start of a node does to marks, and what it does to give a node back.
ghost use Rattle.std.specs.Prelude.{◌≡◌, ◌+◌, ◌≤◌, [], ◌∷◌, Some, IfOk};
ghost use Rattle.wsm_settle.specs.Events.{StartsRight, WithdrawsRight};

use crate::overlays::or_blank;
use std::alloc::Global;
use wsm_lists::NoMemory;
use wsm_rules::{Changes, Mark, MarkReads};
use wsm_schema::Flat;

/// The changes after the start of a node, at a position behind the trail.
pub fn after_start<M: MarkReads>(
    alloc: Global,
    flat: &Flat,
    marks: &mut M,
    node: u32,
    position: u32,
) -> Result<Changes, NoMemory>
    ensures changes { IfOk result (λ changes. StartsRight flat.now (M.kept marks.old) node position changes) }
    ensures same { M.kept marks.new ≡ M.kept marks.old }
    ensures rises { M.reads marks.old ≤ M.reads marks.new }
    ensures count { M.reads marks.new ≤ M.reads marks.old + 1 }
{
    let mark = or_blank(marks.get(node));
    let started = Mark {
        started: Some(position),
        ..mark
    };
    one_change(alloc, node, started)
}

/// The changes after a running node is given back.
pub fn after_withdraw<M: MarkReads>(
    alloc: Global,
    marks: &mut M,
    node: u32,
) -> Result<Changes, NoMemory>
    ensures changes { IfOk result (λ changes. WithdrawsRight (M.kept marks.old) node changes) }
    ensures same { M.kept marks.new ≡ M.kept marks.old }
    ensures rises { M.reads marks.old ≤ M.reads marks.new }
    ensures count { M.reads marks.new ≤ M.reads marks.old + 1 }
{
    let mark = or_blank(marks.get(node));
    let withdrawn = Mark {
        started: None,
        ..mark
    };
    one_change(alloc, node, withdrawn)
}

// The node gets that mark.
fn one_change(alloc: Global, node: u32, mark: Mark) -> Result<Changes, NoMemory>
    ensures { IfOk result (λ changes. changes ≡ (node, Some mark) ∷ []) }
{
    let mut changes = Changes::new(alloc);
    changes.set((node, Some(mark)))?;
    Ok(changes)
}
