// What a case that was created shows.
ghost use Rattle.std.specs.Prelude.{◌≡◌, true, Some, IfOk};
ghost use Rattle.case_core.specs.{Promises.{AreLastWrites, IsFair, goes_on}, Shown.shown_live};

use crate::live_of::LiveOf;
use crate::views::View;
use std::alloc::Global;
use wsm_schema::NoMemory;
use wsm_trail::TrailKeep;

impl<'a, T: TrailKeep> LiveOf<'a, T> {
    /// What the case shows: its version and its own operations, its marking, its values and its work items.
    pub fn view(&self, alloc: Global) -> Result<View, NoMemory>
        ensures view { IfOk result (λ view. view ≡ shown_live (Some self.now)) }
        ensures goes_on { IfOk result (λ view. goes_on view ≡ true) }
        ensures fair { IfOk result (IsFair self.now) }
        ensures values { IfOk result (AreLastWrites self.now) }
    {
        let _ = self.base();
        self.shown(alloc)
    }

    fn shown(&self, alloc: Global) -> Result<View, NoMemory>
        ensures { IfOk result (λ view. view ≡ shown_live (Some self.now)) }
    {
        Ok(View::Live {
            version: self.base().number(),
            own: self.own().len() as u32,
            finished: self.is_finished(),
            marking: self.marking(alloc)?,
            values: self.trail().values(alloc)?,
            items: self.items().list(alloc)?,
        })
    }
}
