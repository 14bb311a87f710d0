// The places in a rank that a walk still goes to.
ghost use Rattle.std.specs.{Prelude.{◌≡◌, ◌<◌, [], ◌∷◌, All, IfNone, IfOk, IfSome, OnErr, OnOk}, BTreeSet.insert_key, Ordering.nat_cmp};
ghost use Rattle.wsm_settle.specs.Places.{waiting};

use crate::flags::{no_flags, set_flag, take_flag};
use std::alloc::Global;
use std::collections::BTreeSet;
use std::marker::Model;
use wsm_lists::NoMemory;

/// Places in a rank, of which the least is visited first. It stands apart from the others, since mostly there are no others.
#[derive(Drop)]
pub struct Pending {
    least: Option<usize>,
    others: Others,
}

// The other places: where there may be few, in a set; where there are many, as flags of all places.
#[derive(Drop)]
enum Others {
    Few(BTreeSet<usize>),
    Many(Vec<bool>),
}

impl Others {
    // One place more, if it is not there.
    fn insert(&mut self, place: usize) -> Result<(), NoMemory>
        ensures ok { OnOk result (waiting self.new ≡ insert_key nat_cmp (waiting self.old) place) }
        ensures err { OnErr result (waiting self.new ≡ waiting self.old) }
    {
        match self {
            Others::Few(places) => {
                places.insert(place)?;
                Ok(())
            }
            Others::Many(flags) => set_flag(flags, place),
        }
    }

    // The least place, which is then there no more. All are above that one.
    fn pop_first(&mut self, above: usize) -> Option<usize>
        requires { All (λ y. above < y) (waiting self.old) }
        ensures removal { IfSome result (λ place. waiting self.old ≡ place ∷ waiting self.new) }
        ensures above { IfSome result (λ place. All (λ y. place < y) (waiting self.new)) }
        ensures none { IfNone result ((waiting self.old ≡ []) × (waiting self.new ≡ [])) }
    {
        match self {
            Others::Few(places) => places.pop_first(),
            Others::Many(flags) => take_flag(flags, above),
        }
    }
}

// So many places are many, where they are also at least this part of all.
const MANY: usize = 8;

impl Model for Pending {
    ghost use Rattle.std.specs.Prelude.{◌≡◌, ◌<◌, [], All, IfNone, IfSome};
    ghost use Rattle.wsm_settle.specs.Places.{Places, least_first, waiting};

    ghost Value = { Places };

    ghost view = { λ a. record { keys = least_first a.least (waiting a.others) } };

    ghost invariant = { λ a. IfNone a.least (waiting a.others ≡ []) × IfSome a.least (λ place. All (λ y. place < y) (waiting a.others)) };
}

impl Pending {
    /// No place.
    pub fn new(alloc: Global) -> Pending
        ensures { result.keys ≡ [] }
    {
        Pending {
            least: None,
            others: Others::Few(BTreeSet::new(alloc)),
        }
    }

    /// No place, where about so many of the places of a rank are to come. Where these are many, there is a flag for each place
    /// of the rank, which costs less than a set.
    pub fn expecting(alloc: Global, count: usize, places: usize) -> Result<Pending, NoMemory>
        ensures { IfOk result (λ pending. pending.keys ≡ []) }
    {
        if count < MANY || count < places / MANY {
            return Ok(Pending::new(alloc));
        }
        Ok(Pending {
            least: None,
            others: Others::Many(no_flags(alloc, places)?),
        })
    }

    /// One place more, if it is not there.
    pub fn insert(&mut self, place: usize) -> Result<(), NoMemory>
        ensures ok { OnOk result (self.new.keys ≡ insert_key nat_cmp self.old.keys place) }
        ensures err { OnErr result (self.new.keys ≡ self.old.keys) }
    {
        match self.least {
            None => self.least = Some(place),
            Some(least) => {
                if place < least {
                    self.others.insert(least)?;
                    self.least = Some(place);
                } else if least < place {
                    self.others.insert(place)?;
                }
            }
        }
        Ok(())
    }

    /// The least place, which is then there no more.
    pub fn pop_first(&mut self) -> Option<usize>
        ensures removal { IfSome result (λ place. self.old.keys ≡ place ∷ self.new.keys) }
        ensures above { IfSome result (λ place. All (λ y. place < y) self.new.keys) }
        ensures none { IfNone result (self.old.keys ≡ []) }
    {
        let first = self.least?;
        self.least = self.others.pop_first(first);
        Some(first)
    }
}
