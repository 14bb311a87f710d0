// How desks meet and end.
ghost use Rattle.std.specs.Prelude.{◌≡◌, ◌+◌, ◌<◌};
ghost use Rattle.adept_server.specs.{Desks.{IsDeskOf, desk_view}, Noting.{AreLevelDesks, IsCalledOf}, Opening.{SeesMore, first_desk_met, joined_desk, second_desk_met}};

use crate::all_rows::{
    join_all, join_row_in, meet_all, meet_all_called, meet_row, meet_row_called,
};
use crate::call_flags::CallFlags;
use crate::desks::Desk;
use crate::flags::raise_all;
use crate::servers::Server;

impl Server {
    /// Takes a desk into the first one. It takes no memory.
    pub fn join(&self, into: &mut Desk, done: Desk)
        requires desks { IsDeskOf self.now into.old × IsDeskOf self.now done }
        requires first { (desk_view into.old).number ≡ 0 }
        requires few { (desk_view into.old).taken < 33 }
        ensures desk { IsDeskOf self.now into.new }
        ensures joined { desk_view into.new ≡ joined_desk (desk_view into.old) (desk_view done) }
        ensures more { SeesMore (desk_view into.old) (desk_view into.new) × SeesMore (desk_view done) (desk_view into.new) }
    {
        let Desk {
            defined,
            kinds,
            cases,
            ..
        } = done;
        into.taken += 1;
        raise_all(&mut into.defined, &defined);
        join_row_in(&self.kinds, &mut into.kinds, kinds);
        join_all(&self.cases, &mut into.cases, cases.into_iter());
    }

    /// Both desks have then seen the longer list of each cell. It takes no memory.
    pub fn meet(&self, one: &mut Desk, two: &mut Desk)
        requires desks { IsDeskOf self.now one.old × IsDeskOf self.now two.old }
        ensures desks { IsDeskOf self.now one.new × IsDeskOf self.now two.new }
        ensures one { desk_view one.new ≡ first_desk_met (desk_view one.old) (desk_view two.old) }
        ensures two { desk_view two.new ≡ second_desk_met (desk_view one.old) (desk_view two.old) }
        ensures more { SeesMore (desk_view one.old) (desk_view one.new) × SeesMore (desk_view two.old) (desk_view one.new) }
    {
        raise_all(&mut one.defined, &two.defined);
        two.defined.copy_from_slice(&one.defined);
        meet_row(&self.kinds, &mut one.kinds, &mut two.kinds);
        meet_all(&self.cases, &mut one.cases, &mut two.cases);
    }

    /// The same, where both have seen the same of each cell that was not called. It takes no memory, and passes over those cells.
    pub fn meet_called(&self, called: &CallFlags, one: &mut Desk, two: &mut Desk)
        requires desks { IsDeskOf self.now one.old × IsDeskOf self.now two.old }
        requires called { IsCalledOf self.now called.now }
        requires level { AreLevelDesks called.now (desk_view one.old) (desk_view two.old) }
        ensures desks { IsDeskOf self.now one.new × IsDeskOf self.now two.new }
        ensures one { desk_view one.new ≡ first_desk_met (desk_view one.old) (desk_view two.old) }
        ensures two { desk_view two.new ≡ second_desk_met (desk_view one.old) (desk_view two.old) }
        ensures more { SeesMore (desk_view one.old) (desk_view one.new) × SeesMore (desk_view two.old) (desk_view one.new) }
    {
        raise_all(&mut one.defined, &two.defined);
        two.defined.copy_from_slice(&one.defined);
        meet_row_called(&self.kinds, &called.kinds, &mut one.kinds, &mut two.kinds);
        meet_all_called(&self.cases, &called.cases, &mut one.cases, &mut two.cases);
    }
}
