// Which versions the types told their callers.
ghost use Rattle.std.specs.{Prelude.{◌≡◌, IfOk, OnOk, Some}, Option.option_map};
ghost use Rattle.case_audit.specs.Common.{all_told, deques_of, journal_told, left_in, next_version, none_told, told_versions, with_told};

use script_run::{ClosedKind, KindEntry};
use std::alloc::Global;
use std::collections::VecDeque;
use type_core::{KindEvent, KindReply};
use wsm_lists::NoMemory;
use wsm_sound::Version;

/// The versions that each actor has yet to be told by each type, in the order in which it was.
#[derive(Drop)]
pub struct Told<'a> {
    // by the type's number, then by the actor's
    versions: Vec<Vec<VecDeque<&'a Version>>>,
}

impl<'a> Told<'a> {
    /// What the types told so many actors, by their journals.
    pub fn of(alloc: Global, actors: usize, kinds: &'a [ClosedKind]) -> Result<Told<'a>, NoMemory>
        ensures { IfOk result (λ told. told_versions told ≡ all_told actors kinds.now) }
    {
        let mut versions = Vec::new(alloc);
        for kind in kinds {
            versions.push(told_by(alloc, actors, kind.journal.as_slice())?)?;
        }
        Ok(Told { versions })
    }

    /// The next version that the type told the actor, where it asked one.
    pub fn next(&mut self, actor: u32, type_no: Option<u32>) -> Option<&'a Version>
        ensures version { option_map (λ v. v.now) result ≡ next_version (told_versions self.old) actor type_no }
        ensures left { told_versions self.new ≡ left_in (told_versions self.old) actor type_no }
    {
        let by_actor = self.versions.get_mut(type_no? as usize)?;
        by_actor.get_mut(actor as usize)?.pop_front()
    }
}

// What one type told so many actors.
fn told_by<'a>(
    alloc: Global,
    actors: usize,
    journal: &'a [KindEntry],
) -> Result<Vec<VecDeque<&'a Version>>, NoMemory>
    ensures { IfOk result (λ told. deques_of told.items ≡ journal_told actors journal.now) }
{
    let mut told = nothing_told(alloc, actors)?;
    for entry in journal {
        add_told(&mut told, entry)?;
    }
    Ok(told)
}

// The version that an entry told, at the end of its caller's.
fn add_told<'a>(told: &mut Vec<VecDeque<&'a Version>>, entry: &'a KindEntry) -> Result<(), NoMemory>
    ensures { OnOk result (deques_of told.new.items ≡ with_told (deques_of told.old.items) entry.now) }
{
    let (KindEvent::Newest, KindReply::Is(version)) = (&entry.event, &entry.reply) else {
        return Ok(());
    };
    match told.get_mut(entry.caller as usize) {
        None => Ok(()),
        Some(versions) => {
            versions.push_back(version)?;
            Ok(())
        }
    }
}

// Room for the program itself and for so many actors.
fn nothing_told<'a>(alloc: Global, actors: usize) -> Result<Vec<VecDeque<&'a Version>>, NoMemory>
    ensures { IfOk result (λ told. deques_of told.items ≡ none_told actors) }
{
    let mut told = Vec::new(alloc);
    told.push(VecDeque::new(alloc))?;
    for _made in 0..actors {
        told.push(VecDeque::new(alloc))?;
    }
    Ok(told)
}
