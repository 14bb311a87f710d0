// A unit, behind those that are held.
ghost use Rattle.std.specs.Prelude.{◌≡◌, ◌≢◌, ◌≤◌, ◌<◌, ◌+◌, ◌^◌, ◌++◌, ◌∷◌, [], List, ℕ, OnOk, IfErr, true, nat_lt, length};
ghost use Rattle.talk_rules.specs.Units.{takes};
ghost use Rattle.talk_state.specs.{Answers.{RefusesUnit, held_rules}, States.Holds};

use crate::states::{FRAME, TalkState};
use crate::working::work;
use file_units::UnitRefusal;
use std::alloc::Global;
use store_disk::MAX_IMAGE;

// Whether an image of so many bytes has room for one more record, and the gate behind it.
pub(crate) fn has_room(long: u64, len: usize) -> bool
    requires long { long < 2 ^ 30 }
    requires short { len ≤ 2 ^ 23 }
    ensures { result ≡ nat_lt (long + (5 + len)) (2 ^ 30) }
{
    long + FRAME + (len as u64) < MAX_IMAGE
}

impl TalkState {
    // Takes a unit behind the others, and makes its calls. Where it is refused all is as before.
    pub(crate) fn take(&mut self, alloc: Global, unit: &[u8]) -> Result<(), UnitRefusal>
        requires short { length unit.now ≤ 2 ^ 23 }
        ensures accepted { (units : List (List ℕ)) → Holds units self.old → OnOk result (takes held_rules units unit.now ≡ true) }
        ensures taken { (units : List (List ℕ)) → Holds units self.old → OnOk result (Holds (units ++ unit.now ∷ []) self.new) }
        ensures refused { (units : List (List ℕ)) → Holds units self.old → IfErr result (λ refusal. RefusesUnit units unit.now refusal) }
        ensures kept { (units : List (List ℕ)) → Holds units self.old → IfErr result (λ refusal. refusal ≢ UnitRefusal.NoMemory → Holds units self.new) }
    {
        if !self.is_whole {
            return Err(UnitRefusal::NoMemory);
        }
        let has_room = has_room(self.long, unit.len());
        self.is_whole = false;
        match self.file.take_unit(alloc, unit, has_room) {
            Ok(said) => {
                self.called = work(&mut self.run, alloc, self.file.file(), &said)?;
                self.last = self.units.len();
                self.units.extend_from_slice(unit)?;
                self.count += 1;
                self.long += FRAME + unit.len() as u64;
                self.is_whole = true;
                Ok(())
            }
            Err(UnitRefusal::NoMemory) => Err(UnitRefusal::NoMemory),
            Err(refusal) => {
                self.is_whole = true;
                Err(refusal)
            }
        }
    }
}
