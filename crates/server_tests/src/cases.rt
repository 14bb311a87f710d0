// What a case shows to who looks at it, and versions of another type.
ghost use Rattle.std.specs.Prelude.{◌≤◌, IfOk};
ghost use Rattle.case_core.specs.Ages.{age, weight};
ghost use Rattle.turn_cell.specs.Passes.{IsPassOf};

use crate::schemas::{NODE, ROLE, one_activity};
use case_core::{Case, Event, Item, Reply, View};
use std::alloc::Global;
use std::sync::Wait;
use std::test::Fail;
use turn_cell::{CallFault, Cell, NoMemory, OpenGate, Pass};
use wsm_lists::RoleList;
use wsm_schema::{Spot, State};
use wsm_sound::{Version, first};

const TYPE: u32 = 4;

const OTHER_TYPE: u32 = 6;

// Who starts the node.
const STARTER: u32 = 1;

fn first_version(alloc: Global, type_no: u32) -> Result<Version, NoMemory> {
    let schema = one_activity(alloc)?;
    match first(alloc, type_no, &schema) {
        Ok(version) => Ok(version),
        Err(_) => Err(NoMemory),
    }
}

fn created(alloc: Global, type_no: u32) -> Result<Event, NoMemory>
    ensures { IfOk result (λ event. weight event ≤ 60000) }
{
    Ok(Event::Create(first_version(alloc, type_no)?))
}

fn migrated(alloc: Global, type_no: u32) -> Result<Event, NoMemory>
    ensures { IfOk result (λ event. weight event ≤ 60000) }
{
    Ok(Event::Migrate(first_version(alloc, type_no)?))
}

fn started(alloc: Global) -> Result<Event, NoMemory>
    ensures { IfOk result (λ event. weight event ≤ 60000) }
{
    Ok(Event::Start {
        node: NODE,
        user: STARTER,
        roles: RoleList::of_one(alloc, ROLE)?,
    })
}

// The cell of a case, and its first pass.
fn open(alloc: Global, case: Case) -> Result<(Cell<Case>, Pass<Case>), NoMemory>
    requires { age case.state ≤ 60000000 }
    ensures { IfOk result (λ r. IsPassOf r.0 r.1) }
{
    Cell::new(alloc, 1, case)
}

fn tell<R: Wait>(
    rt: &R,
    alloc: Global,
    cell: &Cell<Case>,
    pass: &mut Pass<Case>,
    event: &Event,
) -> Result<Reply, CallFault>
    requires cell { IsPassOf cell.now pass.old }
    requires light { weight event.now ≤ 60000 }
    ensures { IsPassOf cell.now pass.new }
{
    cell.call(rt, alloc, pass, event, &OpenGate, 1)
}

fn see<R: Wait>(
    rt: &R,
    alloc: Global,
    cell: &Cell<Case>,
    pass: &mut Pass<Case>,
) -> Result<View, NoMemory>
    requires { IsPassOf cell.now pass.old }
    ensures { IsPassOf cell.now pass.new }
{
    cell.look(rt, alloc, pass)
}

fn create<R: Wait>(
    rt: &R,
    alloc: Global,
    cell: &Cell<Case>,
    pass: &mut Pass<Case>,
    type_no: u32,
) -> Result<Reply, CallFault>
    requires { IsPassOf cell.now pass.old }
    ensures { IsPassOf cell.now pass.new }
{
    let event = created(alloc, type_no)?;
    tell(rt, alloc, cell, pass, &event)
}

fn migrate<R: Wait>(
    rt: &R,
    alloc: Global,
    cell: &Cell<Case>,
    pass: &mut Pass<Case>,
    type_no: u32,
) -> Result<Reply, CallFault>
    requires { IsPassOf cell.now pass.old }
    ensures { IsPassOf cell.now pass.new }
{
    let event = migrated(alloc, type_no)?;
    tell(rt, alloc, cell, pass, &event)
}

fn start<R: Wait>(
    rt: &R,
    alloc: Global,
    cell: &Cell<Case>,
    pass: &mut Pass<Case>,
) -> Result<Reply, CallFault>
    requires { IsPassOf cell.now pass.old }
    ensures { IsPassOf cell.now pass.new }
{
    let event = started(alloc)?;
    tell(rt, alloc, cell, pass, &event)
}

// Whether the node is shown as running, held by who started it.
fn shows_running(view: &View) -> bool {
    let View::Live { marking, items, .. } = view else {
        return false;
    };
    let held = Item::Held {
        node: NODE,
        user: STARTER,
    };
    let is_running = |spot: &Spot| spot.node == NODE && spot.state == State::Running;
    marking.iter().any(is_running) && items.as_slice() == [held].as_slice()
}

// The case is created, its node is started, and then its cell is looked at.
fn seen_behind_start<R: Wait>(rt: &R, alloc: Global) -> Result<bool, CallFault> {
    let (cell, mut pass) = open(alloc, Case::new(alloc, TYPE))?;
    let created = create(rt, alloc, &cell, &mut pass, TYPE)?;
    let started = start(rt, alloc, &cell, &mut pass)?;
    let view = see(rt, alloc, &cell, &mut pass)?;
    let told = matches!((created, started), (Reply::Created, Reply::Started(_)));
    Ok(told && shows_running(&view))
}

#[test]
fn a_look_sees_a_started_node(rt: HostRuntime) -> Result<(), Fail> {
    assert!(rt; seen_behind_start(&rt, rt.alloc())?);
    Ok(())
}

// Whether a version of another type is refused by a case that is not created, and by one that is.
fn refuses_other_types<R: Wait>(rt: &R, alloc: Global) -> Result<bool, CallFault> {
    let (cell, mut pass) = open(alloc, Case::new(alloc, TYPE))?;
    let create_other = create(rt, alloc, &cell, &mut pass, OTHER_TYPE)?;
    let create_own = create(rt, alloc, &cell, &mut pass, TYPE)?;
    let migrate_other = migrate(rt, alloc, &cell, &mut pass, OTHER_TYPE)?;
    let replies = (create_other, create_own, migrate_other);
    Ok(matches!(
        replies,
        (Reply::OtherType, Reply::Created, Reply::OtherType)
    ))
}

#[test]
fn versions_of_other_types_are_refused(rt: HostRuntime) -> Result<(), Fail> {
    assert!(rt; refuses_other_types(&rt, rt.alloc())?);
    Ok(())
}
