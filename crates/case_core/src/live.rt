// What a created case is, besides its trail.
ghost use Rattle.std.specs.Prelude.{◌≡◌, IfOk};
ghost use Rattle.case_core.specs.{CaseModel.created_on, Instances.{IsLive, live_in}};
ghost use Rattle.wsm_schema.specs.Trail.{no_trail};

use crate::item_changes::items_on;
use crate::live_of::LiveOf;
use crate::timing::timed_on;
use std::alloc::Global;
use std::sync::Arc;
use wsm_items::Items;
use wsm_ops::Ops;
use wsm_rules::Marks;
use wsm_schema::NoMemory;
use wsm_settle::TimedMarks;
use wsm_sound::{Checked, Version};
use wsm_trail::{Trail, TrailKeep};

/// What a created case is besides its trail: its version, its own operations, its schema now, and the marks and the work items
/// of the trail on that schema.
#[derive(Drop)]
pub struct Live {
    pub(crate) base: Version,
    pub(crate) own: Ops,
    pub(crate) now: Arc<Checked>,
    pub(crate) marks: Marks,
    pub(crate) items: Items,
}

impl Live {
    /// A case that begins on a version, with an empty trail.
    pub(crate) fn new(alloc: Global, version: &Version) -> Result<Live, NoMemory>
        ensures kept { IfOk result (IsLive no_trail) }
        ensures live { IfOk result (λ live. live_in no_trail live ≡ created_on version.now) }
    {
        let now = version.share_schema()?;
        let trail = Trail::new(alloc);
        match timed_on(alloc, &now, &trail)? {
            TimedMarks::Fails { .. } => unreachable!(),
            TimedMarks::Whole(marks) => {
                let items = items_on(alloc, &now, &marks)?;
                Ok(Live {
                    base: version.share()?,
                    own: Ops::new(alloc),
                    now,
                    marks,
                    items,
                })
            }
        }
    }

    /// An equal case, which shares the version and the schema, without further room.
    pub(crate) fn copy(&self, alloc: Global) -> Result<Live, NoMemory>
        ensures base { IfOk result (λ new. new.base ≡ self.entry.now.base) }
        ensures own { IfOk result (λ new. new.own ≡ self.entry.now.own) }
        ensures schema { IfOk result (λ new. new.now.value ≡ self.entry.now.now.value) }
        ensures marks { IfOk result (λ new. new.marks.rows ≡ self.entry.now.marks.rows) }
        ensures items { IfOk result (λ new. new.items.rows ≡ self.entry.now.items.rows) }
    {
        Ok(Live {
            base: self.base.share()?,
            own: self.own.copy(alloc)?,
            now: Arc::try_clone(&self.now)?,
            marks: self.marks.copy(alloc)?,
            items: self.items.copy(alloc)?,
        })
    }

    /// The case with its trail.
    pub(crate) fn of<'a, T: TrailKeep>(&'a self, trail: &'a T) -> LiveOf<'a, T>
        requires { IsLive (T.kept trail.now) self.now }
        ensures { result ≡ live_in (T.kept trail.now) self.entry.now }
    {
        LiveOf { trail, live: self }
    }
}
