// The marks of a running case whose schema changes.
ghost use Rattle.std.specs.Prelude.{◌≡◌, ◌+◌, ◌≤◌, length, IfOk, OnOk};
ghost use Rattle.wsm_adapt.specs.{Adapted.{AdaptsRight, TellsTouched, gone_of, marks_to_read, without}, Misfits.region_misfit, Region.IsNet};
ghost use Rattle.wsm_lists.specs.{Keys.first, Rows.Ascends};

use crate::begins::marks_found;
use crate::misfits::{early_misfit, lesser, touched_misfit};
use crate::walks::Found;
use std::alloc::Global;
use wsm_lists::NoMemory;
use wsm_rules::{Changes, MarkReads};
use wsm_schema::{Flat, Nodes, Rank};
use wsm_settle::Overlay;
use wsm_trail::TrailReads;

/// The changes to the marks of a trail on a changed schema, or the position of the first entry that is not applicable there.
#[derive(Drop)]
pub enum Adapted {
    Moved(Changes),
    Blocked { position: u32 },
}

/// What the replay of the trail on the new schema answers, found by a look at the nodes whose marks the change reaches.
pub fn adapt<M: MarkReads, T: TrailReads>(
    alloc: Global,
    old: &Flat,
    new: &Flat,
    rank: &Rank,
    touched: &Nodes,
    marks: &mut M,
    trail: &mut T,
) -> Result<Adapted, NoMemory>
    requires { IsNet new.now rank.now }
    ensures adapted { IfOk result (λ adapted. AdaptsRight old.now new.now rank.now touched.now (M.kept marks.old) (T.kept trail.old).entries adapted) }
    ensures touched { IfOk result (TellsTouched touched.now) }
    ensures marks { M.kept marks.new ≡ M.kept marks.old }
    ensures marks_rise { M.reads marks.old ≤ M.reads marks.new }
    ensures marks_few { M.reads marks.new ≤ M.reads marks.old + marks_to_read new.now rank.now touched.now }
    ensures trail { T.kept trail.new ≡ T.kept trail.old }
    ensures trail_rises { T.reads trail.old ≤ T.reads trail.new }
    ensures trail_few { T.reads trail.new ≤ T.reads trail.old + length touched.now }
{
    let nodes = touched.as_slice();
    let found = marks_found(alloc, new, rank, marks, nodes)?;
    match region_misfit(old, new, &found, trail, nodes) {
        Some(position) => Ok(Adapted::Blocked { position }),
        None => Ok(Adapted::Moved(changes_of(alloc, new, found, nodes)?)),
    }
}

// The first position at which something does not fit, of touched nodes and of those that were visited.
fn region_misfit<T: TrailReads>(
    old: &Flat,
    new: &Flat,
    found: &Found,
    trail: &mut T,
    touched: &[u32],
) -> Option<u32>
    ensures misfit { result ≡ region_misfit old.now new.now found.now.known (T.kept trail.old).entries touched.now found.now.nodes }
    ensures same { T.kept trail.new ≡ T.kept trail.old }
    ensures rises { T.reads trail.old ≤ T.reads trail.new }
    ensures count { T.reads trail.new ≤ T.reads trail.old + length touched.now }
{
    let first = touched_misfit(old, new, &found.known, trail, touched);
    let later = early_misfit(new, &found.known, found.nodes.as_slice());
    lesser(first, later)
}

// The marks that changed as changes, with none for the touched nodes that are gone.
fn changes_of(
    alloc: Global,
    flat: &Flat,
    found: Found,
    touched: &[u32],
) -> Result<Changes, NoMemory>
    ensures rows { IfOk result (λ changes. changes ≡ without (gone_of flat.now.cards touched.now) found.changes) }
    ensures ascends { IfOk result (Ascends first) }
{
    let mut marks = found.changes;
    take_away(flat, touched, &mut marks)?;
    let changes = marks.into_table(alloc)?;
    let _ = changes.as_slice();
    Ok(changes)
}

// Those of the nodes that the schema does not have have no marks.
fn take_away(flat: &Flat, nodes: &[u32], marks: &mut Overlay) -> Result<(), NoMemory>
    ensures { OnOk result (marks.new ≡ without (gone_of flat.now.cards nodes.now) marks.old) }
{
    for node in nodes {
        if flat.card(*node).is_none() {
            marks.set((*node, None))?;
        }
    }
    Ok(())
}
