// Cases: the trail behind a loop that goes on and behind a node that is given back, versions of another type, and changes that
// are refused.
ghost use Rattle.std.specs.Prelude.{◌≡◌, ◌+◌, ◌≤◌, IfOk};
ghost use Rattle.case_core.specs.Ages.{age, weight};

use crate::schemas::row_of;
use case_core::{Case, Event, Reply};
use std::alloc::Global;
use std::test::Fail;
use wsm_ops::{Gap, Op, OpFault, OpWhy, Ops};
use wsm_schema::{Block, ElementKind, Entry, Items, NoMemory, RoleList, Schema, Value, Writes};
use wsm_sound::{Fault, Version, first};
use wsm_trail::Trail;

// Version 1 of the type, where the schema is sound.
fn version(alloc: Global, type_no: u32, schema: Result<Schema, NoMemory>) -> Option<Version> {
    first(alloc, type_no, &schema.ok()?).ok()
}

// A loop from 2 to 4 round the activity 3, which writes a number to element 9.
fn looped(alloc: Global) -> Result<Schema, NoMemory> {
    let mut body = Items::new(alloc);
    body.push(Block::Act(3))?;
    let mut items = Items::new(alloc);
    items.push(Block::Loop {
        start: 2,
        end: 4,
        body,
    })?;
    let mut schema = Schema::new(alloc, 0, 1, items);
    let _ = schema.put_element(9, ElementKind::Int)?;
    let _ = schema.put_write(3, 9)?;
    Ok(schema)
}

fn start(alloc: Global, node: u32) -> Event
    ensures { weight result ≡ 1 }
{
    Event::Start {
        node,
        user: 7,
        roles: RoleList::new(alloc),
    }
}

fn end(node: u32, choice: Option<u16>, writes: Writes) -> Event
    ensures { weight result ≡ 1 }
{
    Event::End {
        node,
        user: 7,
        choice,
        writes,
    }
}

fn withdraw(node: u32) -> Event
    ensures { weight result ≡ 0 }
{
    Event::Withdraw { node, user: 7 }
}

// What the case answers.
fn reply(alloc: Global, case: &mut Case, event: &Event) -> Result<Reply, NoMemory>
    requires { age case.old.state + weight event.now ≤ 1000 }
    ensures { IfOk result (λ reply. age case.new.state ≤ age case.old.state + weight event.now) }
{
    Ok(case.step(alloc, event)?.0)
}

// A case of type 0 that was created on the version.
fn created(alloc: Global, version: Version) -> Result<Case, NoMemory>
    ensures { IfOk result (λ case. age case.state ≤ 0) }
{
    let mut case = Case::new(alloc, 0);
    let _ = reply(alloc, &mut case, &Event::Create(version))?;
    Ok(case)
}

// The activity 3 was worked on and wrote 5, and the end of the loop was started.
fn work_round(alloc: Global, case: &mut Case) -> Result<(), NoMemory>
    requires { age case.old.state ≤ 0 }
    ensures { IfOk result (λ done. age case.new.state ≤ 3) }
{
    let writes = Writes::of_one(alloc, (9, Value::Int(5)))?;
    let _ = reply(alloc, case, &start(alloc, 3))?;
    let _ = reply(alloc, case, &end(3, None, writes))?;
    let _ = reply(alloc, case, &start(alloc, 4))?;
    Ok(())
}

fn repeat(alloc: Global, case: &mut Case) -> Result<bool, NoMemory>
    requires { age case.old.state ≤ 3 }
{
    let again = reply(alloc, case, &end(4, Some(1), Writes::new(alloc)))?;
    Ok(matches!(again, Reply::Repeated))
}

fn repeated(alloc: Global) -> Option<Case> {
    let mut case = created(alloc, version(alloc, 0, looped(alloc))?).ok()?;
    work_round(alloc, &mut case).ok()?;
    if repeat(alloc, &mut case).ok()? {
        Some(case)
    } else {
        None
    }
}

// Of the round stays what it wrote, at 2, and behind it stands the repeat, at 4.
fn is_cut(trail: &Trail) -> bool {
    trail.len() == 2 && trail.next() == 5 && has_write(trail) && has_repeat(trail)
}

fn has_write(trail: &Trail) -> bool {
    match trail.entry(2) {
        Some(Entry::Wrote { writes }) => {
            writes.len() == 1 && matches!(writes.get(0), Some((9, Value::Int(5))))
        }
        _ => false,
    }
}

fn has_repeat(trail: &Trail) -> bool {
    match trail.entry(4) {
        Some(Entry::Again { node, writes }) => *node == 4 && writes.is_empty(),
        _ => false,
    }
}

fn is_cut_in(case: &Case) -> bool {
    match case.trail() {
        Some(trail) => is_cut(trail),
        None => false,
    }
}

fn trail_behind_a_loop(alloc: Global) -> Option<bool> {
    let case = repeated(alloc)?;
    Some(is_cut_in(&case))
}

#[test]
fn the_trail_behind_a_loop(rt: HostRuntime) -> Result<(), Fail> {
    assert!(rt; trail_behind_a_loop(rt.alloc()) == Some(true));
    Ok(())
}

// Node 2 was started, given back and started anew.
fn restarted(alloc: Global, case: &mut Case) -> Result<bool, NoMemory>
    requires { age case.old.state ≤ 0 }
{
    let _ = reply(alloc, case, &start(alloc, 2))?;
    let back = reply(alloc, case, &withdraw(2))?;
    let gone = is_gone(case);
    let _ = reply(alloc, case, &start(alloc, 2))?;
    Ok(matches!(back, Reply::Withdrawn) && gone && is_restarted_in(case))
}

// The start is gone, and its position is taken.
fn is_gone(case: &Case) -> bool {
    match case.trail() {
        Some(trail) => trail.is_empty() && trail.next() == 2,
        None => false,
    }
}

fn is_restarted_in(case: &Case) -> bool {
    match case.trail() {
        Some(trail) => is_restarted(trail),
        None => false,
    }
}

fn is_restarted(trail: &Trail) -> bool {
    match trail.entry(2) {
        Some(Entry::Start { node, user, .. }) => {
            *node == 2 && *user == 7 && trail.len() == 1 && trail.next() == 3
        }
        _ => false,
    }
}

fn trail_behind_a_withdrawal(alloc: Global) -> Option<bool> {
    let mut case = created(alloc, version(alloc, 0, row_of(alloc, &[2]))?).ok()?;
    restarted(alloc, &mut case).ok()
}

#[test]
fn the_trail_behind_a_node_that_is_given_back(rt: HostRuntime) -> Result<(), Fail> {
    assert!(rt; trail_behind_a_withdrawal(rt.alloc()) == Some(true));
    Ok(())
}

fn is_of_another_type(reply: &Reply) -> bool {
    matches!(reply, Reply::OtherType)
}

// Whether a case of type 0 refuses to begin on this version.
fn refuses_to_begin(alloc: Global, other: Version) -> Result<bool, NoMemory> {
    let mut case = Case::new(alloc, 0);
    let create = reply(alloc, &mut case, &Event::Create(other))?;
    Ok(is_of_another_type(&create) && case.trail().is_none())
}

// Whether the case refuses to move to this version.
fn refuses_to_move(alloc: Global, case: &mut Case, other: Version) -> Result<bool, NoMemory>
    requires { age case.old.state ≤ 0 }
{
    let migrate = reply(alloc, case, &Event::Migrate(other))?;
    Ok(is_of_another_type(&migrate))
}

fn other_type(alloc: Global) -> Option<[bool; 2]> {
    let own = version(alloc, 0, row_of(alloc, &[2]))?;
    let other = version(alloc, 1, row_of(alloc, &[2]))?;
    let begins = refuses_to_begin(alloc, other.share().ok()?).ok()?;
    let mut case = created(alloc, own).ok()?;
    Some([begins, refuses_to_move(alloc, &mut case, other).ok()?])
}

#[test]
fn versions_of_another_type(rt: HostRuntime) -> Result<(), Fail> {
    assert!(rt; other_type(rt.alloc()) == Some([true, true]));
    Ok(())
}

fn change(alloc: Global, op: Op) -> Result<Event, NoMemory>
    ensures { IfOk result (λ event. weight event ≡ 3) }
{
    Ok(Event::Change(Ops::of_one(alloc, op)?))
}

// 2 was worked on, and 3 was started behind it.
fn work_on(alloc: Global, case: &mut Case) -> Result<(), NoMemory>
    requires { age case.old.state ≤ 0 }
    ensures { IfOk result (λ done. age case.new.state ≤ 3) }
{
    let _ = reply(alloc, case, &start(alloc, 2))?;
    let _ = reply(alloc, case, &end(2, None, Writes::new(alloc)))?;
    let _ = reply(alloc, case, &start(alloc, 3))?;
    Ok(())
}

// What a case answers to a change behind that.
fn changed(alloc: Global, version: Version, op: Op) -> Result<Reply, NoMemory> {
    let mut case = created(alloc, version)?;
    work_on(alloc, &mut case)?;
    let event = change(alloc, op)?;
    reply(alloc, &mut case, &event)
}

fn answer(alloc: Global, op: Op) -> Option<Reply> {
    changed(alloc, version(alloc, 0, row_of(alloc, &[2, 3]))?, op).ok()
}

fn fault(alloc: Global, op: Op) -> Option<Fault> {
    match answer(alloc, op)? {
        Reply::Unsound(fault) => Some(fault),
        _ => None,
    }
}

#[test]
fn a_change_that_is_unsound(rt: HostRuntime) -> Result<(), Fail> {
    let gone = Op::DeleteActivity { node: 9 };
    let why = OpWhy::NoNode(9);
    assert!(rt; fault(rt.alloc(), gone) == Some(Fault::Op(OpFault { index: 1, why })));
    Ok(())
}

// The first entry that fails, where it is the start of a node.
fn failing_start(alloc: Global, op: Op) -> Option<(u32, u32)> {
    match answer(alloc, op)? {
        Reply::Blocked(position, entry) => match entry.as_entry() {
            Entry::Start { node, .. } => Some((position, *node)),
            _ => None,
        },
        _ => None,
    }
}

#[test]
fn a_change_that_is_blocked(rt: HostRuntime) -> Result<(), Fail> {
    let between = Op::InsertSerial {
        node: 4,
        role: 0,
        gap: Gap::After(2),
    };
    assert!(rt; failing_start(rt.alloc(), between) == Some((3, 3)));
    Ok(())
}
