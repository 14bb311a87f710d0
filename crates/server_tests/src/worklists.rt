// What a server offers to roles: a node that is ready, and no longer once it is started.
ghost use Rattle.std.specs.Prelude.{OnOk};
ghost use Rattle.adept_server.specs.Desks.{IsDeskOf};

use crate::schemas::{NODE, ROLE, one_activity};
use adept_server::{Desk, Offer, Offers, Server};
use std::alloc::Global;
use std::sync::Wait;
use std::test::Fail;
use turn_cell::{CallFault, OpenGate};
use wsm_lists::RoleList;
use wsm_sound::CaseId;

const CASE: CaseId = CaseId {
    type_no: 0,
    place: 0,
};

// What is offered to that role, to another one, and to that role behind the start.
#[derive(Drop)]
struct Offered {
    own: Offers,
    others: Offers,
    behind: Offers,
}

fn define<R: Wait>(rt: &R, alloc: Global, server: &Server, desk: &mut Desk) -> Result<(), CallFault>
    requires { IsDeskOf server.now desk.old }
    ensures { OnOk result (IsDeskOf server.now desk.new) }
{
    if server.has(CASE) {
        let schema = one_activity(alloc)?;
        let _ = server.define(rt, alloc, desk, 0, &schema, &OpenGate, 1)?;
    }
    Ok(())
}

fn create<R: Wait>(rt: &R, alloc: Global, server: &Server, desk: &mut Desk) -> Result<(), CallFault>
    requires { IsDeskOf server.now desk.old }
    ensures { OnOk result (IsDeskOf server.now desk.new) }
{
    if server.has(CASE) && desk.defined(0) {
        let _ = server.create(rt, alloc, desk, CASE, &OpenGate, 2)?;
    }
    Ok(())
}

fn start<R: Wait>(rt: &R, alloc: Global, server: &Server, desk: &mut Desk) -> Result<(), CallFault>
    requires { IsDeskOf server.now desk.old }
    ensures { OnOk result (IsDeskOf server.now desk.new) }
{
    if server.has(CASE) {
        let roles = RoleList::of_one(alloc, ROLE)?;
        let _ = server.start(rt, alloc, desk, CASE, NODE, &roles, &OpenGate, 3)?;
    }
    Ok(())
}

fn offers_at<R: Wait>(
    rt: &R,
    alloc: Global,
    server: &Server,
    desk: &mut Desk,
) -> Result<Offered, CallFault>
    requires { IsDeskOf server.now desk.old }
{
    let own = server.worklist(rt, alloc, desk, ROLE)?;
    let others = server.worklist(rt, alloc, desk, ROLE + 1)?;
    start(rt, alloc, server, desk)?;
    let behind = server.worklist(rt, alloc, desk, ROLE)?;
    Ok(Offered {
        own,
        others,
        behind,
    })
}

fn work_case<R: Wait>(
    rt: &R,
    alloc: Global,
    server: &Server,
    desk: &mut Desk,
) -> Result<Offered, CallFault>
    requires { IsDeskOf server.now desk.old }
{
    define(rt, alloc, server, desk)?;
    create(rt, alloc, server, desk)?;
    offers_at(rt, alloc, server, desk)
}

fn worked<R: Wait>(rt: &R, alloc: Global) -> Result<Offered, CallFault> {
    let (server, mut desk) = Server::new(alloc, &[1])?;
    work_case(rt, alloc, &server, &mut desk)
}

#[test]
fn a_node_is_offered_until_it_is_started(rt: HostRuntime) -> Result<(), Fail> {
    let offered = worked(&rt, rt.alloc())?;
    let offer = Offer {
        case: CASE,
        node: NODE,
    };
    assert_eq!(rt; offered.own.as_slice(), [offer].as_slice());
    assert!(rt; offered.others.is_empty());
    assert!(rt; offered.behind.is_empty());
    Ok(())
}
