// Whether what was started and ended of a node fits its new card.
ghost use Rattle.std.specs.{Prelude.◌≡◌, Option.option_copied};
ghost use Rattle.wsm_adapt.specs.Misfits.{end_fits, start_fits, writes_in};
ghost use Rattle.wsm_marks.specs.Timed.{before};
ghost use Rattle.wsm_schema.specs.Rules.{is_yes};
ghost use Rattle.wsm_walk.specs.Touches.{edges_fit, reads_fit, same_kind};

use wsm_replay::fits_choice;
use wsm_rules::{Flow, is_worked_on};
use wsm_schema::{Card, ElementKind, Flat, Value};

/// Whether the Start at a position of a node with that card fits, where the node is ready since that time and the Start recorded
/// these reads.
pub fn start_fits(
    card: Option<&Card>,
    time: Option<(u32, Flow)>,
    position: u32,
    recorded: &[(u32, Option<Value>)],
) -> bool
    ensures { result ≡ start_fits (option_copied card.entry) time position recorded.now }
{
    match card {
        None => false,
        Some(card) => {
            is_worked_on(card.kind)
                && is_ready_before(time, position)
                && reads_fit(recorded, card.reads.as_slice())
        }
    }
}

/// Whether that is a time since which a node is ready, and before a position.
pub fn is_ready_before(time: Option<(u32, Flow)>, position: u32) -> bool
    ensures { result ≡ is_yes (before position time) }
{
    match time {
        Some((since, Flow::Yes)) => since < position,
        Some((_, Flow::No)) | None => false,
    }
}

// Whether these are the elements that are to be read, and those that must be read were there.
fn reads_fit(recorded: &[(u32, Option<Value>)], reads: &[(u32, bool)]) -> bool
    ensures { result ≡ reads_fit recorded.now reads.now }
{
    if recorded.len() != reads.len() {
        return false;
    }
    for i in 0..recorded.len() {
        let there = !reads[i].1 || recorded[i].1.is_some();
        if !(recorded[i].0 == reads[i].0 && there) {
            return false;
        }
    }
    true
}

/// Whether the End of a node with that choice fits its new card, where it fitted its old one.
pub fn end_fits(
    old: &Flat,
    new: &Flat,
    before: Option<&Card>,
    card: Option<&Card>,
    choice: Option<u16>,
) -> bool
    ensures { result ≡ end_fits old.now new.now (option_copied before.entry) (option_copied card.entry) choice }
{
    match card {
        None => false,
        Some(card) => {
            edges_fit(old, new, writes_in(before), card.writes.as_slice())
                && fits_choice(card, choice)
        }
    }
}

fn writes_in(card: Option<&Card>) -> &[u32]
    ensures { result.now ≡ writes_in (option_copied card.entry) }
{
    match card {
        None => &[],
        Some(card) => card.writes.as_slice(),
    }
}

// Whether these elements are those that were written, and have the kinds that they had.
fn edges_fit(old: &Flat, new: &Flat, before: &[u32], writes: &[u32]) -> bool
    ensures { result ≡ edges_fit old.now.elements new.now.elements before.now writes.now }
{
    if before.len() != writes.len() {
        return false;
    }
    for i in 0..before.len() {
        if !(before[i] == writes[i] && same_kind(old.kind(before[i]), new.kind(writes[i]))) {
            return false;
        }
    }
    true
}

fn same_kind(one: Option<ElementKind>, other: Option<ElementKind>) -> bool
    ensures { result ≡ same_kind one other }
{
    match (one, other) {
        (Some(one), Some(other)) => one == other,
        _ => false,
    }
}
