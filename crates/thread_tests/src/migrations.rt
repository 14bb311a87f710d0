// A migrate tells the cases that it says to move, in order of places, and no other.
ghost use Rattle.std.specs.Prelude.{◌≤◌, length, IfOk, OnOk};
ghost use Rattle.adept_server.specs.Desks.{IsDeskOf};
ghost use Rattle.wsm_schema.specs.Flat.{cards_of};

use adept_server::{Desk, Server};
use case_core::{Case, Reply};
use std::alloc::Global;
use std::sync::Wait;
use std::test::Fail;
use std::thread::Threads;
use turn_batch::Answers;
use turn_cell::{CallFault, OpenGate};
use wsm_lists::NoMemory;
use wsm_ops::{Gap, Op, Ops};
use wsm_schema::{Block, Schema};
use wsm_sound::CaseId;

// The one activity of the type, between the nodes 0 and 1.
const NODE: u32 = 2;

const FIRST: CaseId = CaseId {
    type_no: 0,
    place: 0,
};

const SECOND: CaseId = CaseId {
    type_no: 0,
    place: 1,
};

fn one_activity(alloc: Global) -> Result<Schema, NoMemory>
    ensures { IfOk result (λ schema. length (cards_of schema) ≤ 60000) }
{
    let body = vec![in alloc; Block::Act(NODE)]?;
    Ok(Schema::new(alloc, 0, 1, body))
}

// Another activity behind the first.
fn one_more(alloc: Global) -> Result<Ops, NoMemory> {
    let insert = Op::InsertSerial {
        node: NODE + 1,
        role: 0,
        gap: Gap::After(NODE),
    };
    let mut ops = Ops::new(alloc);
    ops.push(insert)?;
    Ok(ops)
}

fn define<R: Wait>(rt: &R, alloc: Global, server: &Server, desk: &mut Desk) -> Result<(), CallFault>
    requires { IsDeskOf server.now desk.old }
    ensures { OnOk result (IsDeskOf server.now desk.new) }
{
    if server.has(FIRST) {
        let schema = one_activity(alloc)?;
        let _ = server.define(rt, alloc, desk, 0, &schema, &OpenGate, 1)?;
    }
    Ok(())
}

fn create<R: Wait>(
    rt: &R,
    alloc: Global,
    server: &Server,
    desk: &mut Desk,
    case: CaseId,
) -> Result<(), CallFault>
    requires { IsDeskOf server.now desk.old }
    ensures { OnOk result (IsDeskOf server.now desk.new) }
{
    if server.has(case) && desk.defined(case.type_no) {
        let _ = server.create(rt, alloc, desk, case, &OpenGate, 2)?;
    }
    Ok(())
}

fn install<R: Wait>(
    rt: &R,
    alloc: Global,
    server: &Server,
    desk: &mut Desk,
) -> Result<(), CallFault>
    requires { IsDeskOf server.now desk.old }
    ensures { OnOk result (IsDeskOf server.now desk.new) }
{
    let ops = one_more(alloc)?;
    if server.has(FIRST) && ops.len() <= 20000 {
        let _ = server.install(rt, alloc, desk, 0, &ops, &OpenGate, 3)?;
    }
    Ok(())
}

// Whether these are the answers of one case that moved, or of one that had moved and one that moved then.
fn is_one(answers: &Answers<Case>) -> bool {
    matches!(answers.items.as_slice(), [Ok(Reply::Migrated(2))])
}

fn are_both(answers: &Answers<Case>) -> bool {
    matches!(
        answers.items.as_slice(),
        [Ok(Reply::NotNewer(2)), Ok(Reply::Migrated(2))]
    )
}

// Whether a migrate of the first case moves it, and one of all cases then the second.
fn migrate<R: Threads + Wait + Sync>(
    rt: &R,
    alloc: Global,
    server: &Server,
    desk: &mut Desk,
) -> Result<bool, CallFault>
    requires { IsDeskOf server.now desk.old }
{
    if !server.has(FIRST) || !desk.defined(0) {
        return Ok(false);
    }
    let first = server.migrate_first(rt, alloc, desk, 0, 1, &OpenGate, 4)?;
    if !server.has(FIRST) || !desk.defined(0) {
        return Ok(false);
    }
    let all = server.migrate_all(rt, alloc, desk, 0, &OpenGate, 5)?;
    Ok(is_one(&first) && are_both(&all))
}

fn moved<R: Threads + Wait + Sync>(rt: &R, alloc: Global) -> Result<bool, CallFault> {
    let (server, mut desk) = Server::new(alloc, &[2])?;
    define(rt, alloc, &server, &mut desk)?;
    create(rt, alloc, &server, &mut desk, FIRST)?;
    create(rt, alloc, &server, &mut desk, SECOND)?;
    install(rt, alloc, &server, &mut desk)?;
    migrate(rt, alloc, &server, &mut desk)
}

#[test]
fn the_first_case_moves_before_the_second(rt: HostRuntime) -> Result<(), Fail> {
    assert!(rt; moved(&rt, rt.alloc())?);
    Ok(())
}
