// The pieces of a schema in document order, and edits of them.
ghost use Rattle.std.specs.Prelude.{◌≡◌, IfOk, IsTrue};
ghost use Rattle.wsm_ops.specs.{Outline.{is_node, at_gap, seat_at, has_head, behind, before, without_node, IsOnce}, Places.{place_of, IsNoted}, Runs.{joined, IsSpot}};
ghost use Rattle.wsm_ops.specs.declared.operations.Gap.TheVariants.{After};

use crate::operations::Gap;
use crate::pieces::{Piece, Seat};
use crate::places::Places;
use crate::runs::{
    Spot, first_spot, has_head_in, pieces_in, put_before, put_behind, runs_of, seat_in,
    spot_around, take_from,
};
use std::alloc::Global;
use std::marker::Model;
use wsm_schema::NoMemory;

/// The pieces of a schema, in document order. They lie in short runs, so that an edit moves few of them. Where it is noted in
/// which runs nodes were put, a node is looked for in its run alone.
#[derive(Drop)]
pub struct Outline {
    runs: Vec<Vec<Piece>>,
    is_noted: bool,
    places: Places,
}

impl Model for Outline {
    ghost use Rattle.std.specs.Prelude.{List, IsTrue};
    ghost use Rattle.wsm_ops.specs.Places.{place_of, IsNoted};
    ghost use Rattle.wsm_ops.specs.Runs.{joined};
    ghost use Rattle.wsm_ops.specs.declared.pieces.Piece.{Piece};

    ghost Value = { List Piece };

    ghost view = { λ o. joined o.runs.items };

    ghost invariant = { λ o. IsTrue o.is_noted → IsNoted (place_of o.places) (joined o.runs.items) };
}

impl Outline {
    /// The outline with these pieces, for so many operations. For a few of them it is not noted where nodes are, since that
    /// takes as long as some dozen passes over the pieces.
    pub fn of(alloc: Global, pieces: &[Piece], operations: usize) -> Result<Outline, NoMemory>
        ensures { IfOk result (λ o. o ≡ pieces.now) }
    {
        let runs = runs_of(alloc, pieces)?;
        let is_noted = operations > FEW;
        let places = places_of(alloc, &runs, pieces.len(), is_noted)?;
        Ok(Outline {
            runs,
            is_noted,
            places,
        })
    }

    /// All pieces.
    pub fn pieces(&self, alloc: Global) -> Result<Vec<Piece>, NoMemory>
        ensures { IfOk result (λ pieces. pieces.items ≡ self.now) }
    {
        pieces_in(alloc, &self.runs)
    }

    /// What the node is.
    pub fn seat(&self, node: u32) -> Option<Seat>
        requires { IsOnce (at_gap (After node)) self.now }
        ensures { result ≡ seat_at node self.now }
    {
        match node_spot(&self.runs, self.is_noted, &self.places, node) {
            None => None,
            Some(spot) => seat_in(&self.runs, spot, node),
        }
    }

    /// Whether a branch with the code begins behind the split.
    pub fn has_head(&self, split: u32, code: u16) -> bool
        ensures { result ≡ has_head split code self.now }
    {
        has_head_in(&self.runs, split, code)
    }

    /// New pieces at the gap.
    pub fn put_behind(self, gap: Gap, new: &[Piece]) -> Result<Outline, NoMemory>
        requires { IsOnce (at_gap gap) self }
        ensures { IfOk result (λ o. o ≡ behind (at_gap gap) new.now self) }
    {
        let mut all = self;
        match gap_spot(&all.runs, all.is_noted, &all.places, gap) {
            None => Ok(all),
            Some(spot) => {
                all.places.note_all(new, spot.run)?;
                put_behind(&mut all.runs, spot, new)?;
                Ok(all)
            }
        }
    }

    /// New pieces before the node.
    pub fn put_before(self, node: u32, new: &[Piece]) -> Result<Outline, NoMemory>
        requires { IsOnce (at_gap (After node)) self }
        ensures { IfOk result (λ o. o ≡ before (is_node node) new.now self) }
    {
        let mut all = self;
        match node_spot(&all.runs, all.is_noted, &all.places, node) {
            None => Ok(all),
            Some(spot) => {
                all.places.note_all(new, spot.run)?;
                put_before(&mut all.runs, spot, new)?;
                Ok(all)
            }
        }
    }

    /// The pieces without the node.
    pub fn without(self, node: u32) -> Outline
        requires { IsOnce (at_gap (After node)) self }
        ensures { result ≡ without_node node self }
    {
        let mut all = self;
        if let Some(spot) = node_spot(&all.runs, all.is_noted, &all.places, node) {
            take_from(&mut all.runs, spot);
        }
        all
    }
}

// Where the node stands, which is looked for in the run where it is noted, if it is.
fn node_spot(runs: &[Vec<Piece>], is_noted: bool, places: &Places, node: u32) -> Option<Spot>
    requires { IsTrue is_noted → IsNoted (place_of places.now) (joined runs.now) }
    ensures { IsSpot (at_gap (After node)) runs.now result }
{
    if !is_noted {
        return first_spot(runs, Gap::After(node));
    }
    match places.get(node) {
        None => None,
        Some(run) => spot_around(runs, run, Gap::After(node)),
    }
}

// Where the piece stands that the gap is behind.
fn gap_spot(runs: &[Vec<Piece>], is_noted: bool, places: &Places, gap: Gap) -> Option<Spot>
    requires { IsTrue is_noted → IsNoted (place_of places.now) (joined runs.now) }
    ensures { IsSpot (at_gap gap) runs.now result }
{
    match gap {
        Gap::After(node) => node_spot(runs, is_noted, places, node),
        Gap::Head(..) => first_spot(runs, gap),
    }
}

// So many operations look for nodes by passes over the pieces.
const FEW: usize = 16;

// In which runs the nodes stand, where that is to be noted. So many pieces there are about.
fn places_of(
    alloc: Global,
    runs: &[Vec<Piece>],
    count: usize,
    is_noted: bool,
) -> Result<Places, NoMemory>
    ensures { IfOk result (λ places. IsTrue is_noted → IsNoted (place_of places) (joined runs.now)) }
{
    if !is_noted {
        return Ok(Places::new(alloc));
    }
    let mut places = Places::with_room(alloc, count)?;
    places.note_runs(runs)?;
    Ok(places)
}
