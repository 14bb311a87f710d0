// Pieces in short runs.
ghost use Rattle.std.specs.{Prelude.{◌≡◌, ◌<◌, ◌≤◌, ◌+◌, false, length, slice_get, position, OnOk, IfOk}, List.remove, Option.option_copied};
ghost use Rattle.wsm_ops.specs.{Outline.{at_gap, has_head}, Places.seat_there, Runs.{joined, items_at, place_at, with_pieces_at, IsSpot, IsSpotIn}};

use crate::operations::Gap;
use crate::pieces::{Piece, Seat};
use std::alloc::Global;
use wsm_schema::NoMemory;

/// Where a piece stands: its run, and its place there.
#[derive(Clone, Copy)]
pub struct Spot {
    pub run: usize,
    pub at: usize,
}

// So many pieces make a run.
const RUN: usize = 32;

/// The pieces in runs.
pub fn runs_of(alloc: Global, pieces: &[Piece]) -> Result<Vec<Vec<Piece>>, NoMemory>
    ensures { IfOk result (λ runs. joined runs.items ≡ pieces.now) }
{
    let mut runs = Vec::new(alloc);
    let mut rest = pieces;
    while !rest.is_empty() {
        let (run, others) = rest.split_at(rest.len().min(RUN));
        runs.push(Vec::from_slice(alloc, run)?)?;
        rest = others;
    }
    Ok(runs)
}

/// The pieces of all runs.
pub fn pieces_in(alloc: Global, runs: &[Vec<Piece>]) -> Result<Vec<Piece>, NoMemory>
    ensures { IfOk result (λ pieces. pieces.items ≡ joined runs.now) }
{
    let mut all = Vec::new(alloc);
    for run in runs {
        all.extend_from_slice(run)?;
    }
    Ok(all)
}

/// Where the piece stands that the gap is behind, which is looked for in a run first.
pub fn spot_around(runs: &[Vec<Piece>], run: usize, gap: Gap) -> Option<Spot>
    ensures { IsSpot (at_gap gap) runs.now result }
{
    match spot_in(runs, run, gap) {
        None => first_spot(runs, gap),
        found => found,
    }
}

/// The first such spot.
pub fn first_spot(runs: &[Vec<Piece>], gap: Gap) -> Option<Spot>
    ensures { IsSpot (at_gap gap) runs.now result }
{
    for run in 0..runs.len() {
        if let Some(spot) = spot_in(runs, run, gap) {
            return Some(spot);
        }
    }
    None
}

// The first such spot in a run.
fn spot_in(runs: &[Vec<Piece>], run: usize, gap: Gap) -> Option<Spot>
    ensures { IsSpotIn (at_gap gap) runs.now run result }
{
    match place_in(run_in(runs, run), gap) {
        None => None,
        Some(at) => Some(Spot { run, at }),
    }
}

// The pieces of a run; none where there is no such run.
fn run_in(runs: &[Vec<Piece>], run: usize) -> &[Piece]
    ensures { result.now ≡ items_at runs.now run }
{
    match run_at(runs, run) {
        None => &[],
        Some(pieces) => pieces,
    }
}

fn run_at(runs: &[Vec<Piece>], run: usize) -> Option<&Vec<Piece>>
    ensures { option_copied result ≡ slice_get runs.now run }
{
    runs.get(run)
}

// The first place of a piece that the gap is behind.
fn place_in(pieces: &[Piece], gap: Gap) -> Option<usize>
    ensures { result ≡ position (at_gap gap) pieces.now }
{
    pieces.iter().position(|piece| piece.is_at(gap))
}

/// What the piece at a spot says of the node.
pub fn seat_in(runs: &[Vec<Piece>], spot: Spot, node: u32) -> Option<Seat>
    ensures { result ≡ seat_there node (slice_get (items_at runs.now spot.run) spot.at) }
{
    match piece_in(run_in(runs, spot.run), spot.at) {
        None => None,
        Some(piece) => piece.seat(node),
    }
}

fn piece_in(pieces: &[Piece], at: usize) -> Option<&Piece>
    ensures { option_copied result ≡ slice_get pieces.now at }
{
    pieces.get(at)
}

/// Whether a branch with the code begins behind the split.
pub fn has_head_in(runs: &[Vec<Piece>], split: u32, code: u16) -> bool
    ensures { result ≡ has_head split code (joined runs.now) }
{
    for run in runs {
        if has_head(run, split, code) {
            return true;
        }
    }
    false
}

fn has_head(pieces: &[Piece], split: u32, code: u16) -> bool
    ensures { result ≡ has_head split code pieces.now }
{
    pieces.iter().any(|piece| piece.is_head(split, code))
}

/// New pieces behind a spot, in their order.
pub fn put_behind(runs: &mut Vec<Vec<Piece>>, spot: Spot, new: &[Piece]) -> Result<(), NoMemory>
    requires run { spot.run < length runs.old.items }
    requires within { spot.at < length (items_at runs.old.items spot.run) }
    ensures { OnOk result (joined runs.new.items ≡ with_pieces_at (joined runs.old.items) (place_at runs.old.items spot.run spot.at + 1) new.now) }
{
    match runs.get_mut(spot.run) {
        None => Ok(()),
        Some(run) => put_all(run, spot.at + 1, new),
    }
}

/// New pieces before a spot, in their order.
pub fn put_before(runs: &mut Vec<Vec<Piece>>, spot: Spot, new: &[Piece]) -> Result<(), NoMemory>
    requires run { spot.run < length runs.old.items }
    requires within { spot.at < length (items_at runs.old.items spot.run) }
    ensures { OnOk result (joined runs.new.items ≡ with_pieces_at (joined runs.old.items) (place_at runs.old.items spot.run spot.at) new.now) }
{
    match runs.get_mut(spot.run) {
        None => Ok(()),
        Some(run) => put_all(run, spot.at, new),
    }
}

// New pieces at a place of a run. One piece only moves those behind it.
fn put_all(pieces: &mut Vec<Piece>, at: usize, new: &[Piece]) -> Result<(), NoMemory>
    requires { at ≤ length pieces.old.items }
    ensures { OnOk result (pieces.new.items ≡ with_pieces_at pieces.old.items at new.now) }
{
    match new {
        [piece] => {
            pieces.insert(at, *piece)?;
            Ok(())
        }
        _ => put_many(pieces, at, new),
    }
}

// New pieces at a place, in their order, behind which the others are copied.
fn put_many(pieces: &mut Vec<Piece>, at: usize, new: &[Piece]) -> Result<(), NoMemory>
    requires { at ≤ length pieces.old.items }
    ensures { OnOk result (pieces.new.items ≡ with_pieces_at pieces.old.items at new.now) }
{
    let mut rest = pieces.split_off(at)?;
    pieces.extend_from_slice(new)?;
    pieces.append(&mut rest)?;
    Ok(())
}

/// Without the piece at a spot.
pub fn take_from(runs: &mut Vec<Vec<Piece>>, spot: Spot)
    requires run { spot.run < length runs.old.items }
    requires within { spot.at < length (items_at runs.old.items spot.run) }
    ensures { joined runs.new.items ≡ remove (joined runs.old.items) (place_at runs.old.items spot.run spot.at) }
{
    match runs.get_mut(spot.run) {
        None => {}
        Some(run) => {
            run.remove(spot.at);
        }
    }
}
