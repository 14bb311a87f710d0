// Process types.
ghost use Rattle.std.specs.{Prelude.{◌≡◌, ◌<◌, ◌≤◌, ◌+◌, ◌^◌, Ok, None, Some, length, IfOk, IfErr, OnErr}, Option.option_copied};
ghost use Rattle.type_core.specs.{KindModel.not_defined, Machine.{newest_of, version_in, next_kind, weight}};

use crate::events::KindEvent;
use crate::replies::{KindReply, both};
use std::alloc::Global;
use std::marker::Model;
use turn_cell::Machine;
use wsm_ops::Ops;
use wsm_schema::{Listing, NoMemory, Schema};
use wsm_sound::{SoundRefusal, Version, evolve, first};

/// A process type with its versions.
#[derive(Drop)]
pub struct Kind {
    type_no: u32,
    versions: Listing<Version>,
}

impl Model for Kind {
    ghost use Rattle.type_core.specs.KindModel.{KindModel, kind_code, Numbered};

    ghost Value = { KindModel };

    ghost coded = { kind_code };

    ghost view = { λ a. record { type_no = a.type_no; versions = a.versions } };

    ghost invariant = { λ a. Numbered a.type_no 1 a.versions };
}

impl Kind {
    /// A type that is not defined.
    pub fn new(alloc: Global, type_no: u32) -> Kind
        ensures { result ≡ not_defined type_no }
    {
        Kind {
            type_no,
            versions: Listing::new(alloc),
        }
    }

    /// An equal type, which shares the versions.
    pub fn copy(&self, alloc: Global) -> Result<Kind, NoMemory>
        ensures { IfOk result (λ new. new ≡ self.now) }
    {
        let _ = self.newest();
        Ok(Kind {
            type_no: self.type_no,
            versions: Listing::from_vec(shared(alloc, self.versions.as_slice())?),
        })
    }

    /// The newest version, where the type is defined.
    pub fn newest(&self) -> Option<&Version>
        ensures { option_copied result ≡ newest_of self.now.versions }
    {
        self.versions.as_slice().last()
    }

    /// The version with this number, from 1. None where there is no such version.
    pub fn version(&self, number: u32) -> Option<&Version>
        ensures { option_copied result ≡ version_in self.now.versions number }
    {
        if number == 0 {
            return None;
        }
        self.versions.get(number as usize - 1)
    }

    // What a step does to the type, and its replies.
    fn answer(
        &mut self,
        alloc: Global,
        event: &KindEvent,
    ) -> Result<(KindReply, KindReply), NoMemory>
        requires { weight event.now ≤ 4000000000 }
        ensures kind { IfOk result (λ replies. self.new ≡ (next_kind self.old event.now).0) }
        ensures replies { IfOk result (λ replies. (replies.0 ≡ (next_kind self.old event.now).1) × (replies.1 ≡ (next_kind self.old event.now).1)) }
        ensures err { OnErr result (self.new ≡ self.old) }
    {
        match event {
            KindEvent::Define(schema) => self.define(alloc, schema),
            KindEvent::Install(ops) => self.install(alloc, ops),
            KindEvent::Newest => match self.newest() {
                None => both(KindReply::NoType),
                Some(version) => both(KindReply::Is(version.share()?)),
            },
        }
    }

    fn define(&mut self, alloc: Global, schema: &Schema) -> Result<(KindReply, KindReply), NoMemory>
        ensures kind { IfOk result (λ replies. self.new ≡ (next_kind self.old (KindEvent.Define schema.now)).0) }
        ensures replies { IfOk result (λ replies. (replies.0 ≡ (next_kind self.old (KindEvent.Define schema.now)).1) × (replies.1 ≡ (next_kind self.old (KindEvent.Define schema.now)).1)) }
        ensures err { OnErr result (self.new ≡ self.old) }
    {
        if self.newest().is_some() {
            return both(KindReply::Already);
        }
        match first(alloc, self.type_no, schema) {
            Ok(version) => {
                self.versions.push(version)?;
                Ok((KindReply::Defined, KindReply::Defined))
            }
            Err(refusal) => both(KindReply::Unsound(refusal.fault()?)),
        }
    }

    fn install(&mut self, alloc: Global, ops: &Ops) -> Result<(KindReply, KindReply), NoMemory>
        requires { length ops.now < 2 ^ 32 }
        ensures kind { IfOk result (λ replies. self.new ≡ (next_kind self.old (KindEvent.Install ops.now)).0) }
        ensures replies { IfOk result (λ replies. (replies.0 ≡ (next_kind self.old (KindEvent.Install ops.now)).1) × (replies.1 ≡ (next_kind self.old (KindEvent.Install ops.now)).1)) }
        ensures err { OnErr result (self.new ≡ self.old) }
    {
        let newest = match self.newest() {
            None => return both(KindReply::NoType),
            Some(newest) => newest,
        };
        if self.versions.len() >= MAX_VERSIONS {
            return both(KindReply::VersionLimit);
        }
        match evolve(alloc, newest, ops) {
            Ok(version) => {
                let number = version.number();
                self.versions.push(version)?;
                Ok((KindReply::Installed(number), KindReply::Installed(number)))
            }
            Err(refusal) => both(KindReply::Unsound(refusal.fault()?)),
        }
    }
}

// Equal versions, each of which shares its schema and its lineage.
fn shared(alloc: Global, versions: &[Version]) -> Result<Vec<Version>, NoMemory>
    ensures { IfOk result (λ new. new.items ≡ versions.now) }
{
    let mut all = Vec::with_capacity(alloc, versions.len())?;
    for version in versions {
        all.push(version.share()?)?;
    }
    Ok(all)
}

/// A type has at most so many versions.
pub const MAX_VERSIONS: usize = 256;

impl Machine for Kind {
    ghost use Rattle.type_core.specs.Machine.{kind_after, kind_reply, weight};
    ghost use Rattle.std.specs.Prelude.{length};

    type Event = KindEvent;

    type Reply = KindReply;

    /// The number of versions.
    type View = usize;

    type State = Kind;

    ghost state = { λ k. k };

    ghost after = { kind_after };

    ghost reply = { kind_reply };

    ghost shown = { λ k. length k.versions };

    ghost age = { λ k. 0 };

    ghost weight = { weight };

    ghost reads = { λ k. 0 };

    ghost allowance = { λ k e. 0 };

    fn step(
        &mut self,
        alloc: Global,
        event: &KindEvent,
    ) -> Result<(KindReply, KindReply), NoMemory> {
        self.answer(alloc, event)
    }

    fn view(&self, alloc: Global) -> Result<usize, NoMemory> {
        let _ = alloc;
        Ok(self.versions.len())
    }

    fn copy_event(alloc: Global, event: &KindEvent) -> Result<KindEvent, NoMemory> {
        event.copy(alloc)
    }
}
