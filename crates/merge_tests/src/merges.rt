// Drafts of one version that are merged.
ghost use Rattle.std.specs.Prelude.{◌≡◌, ◌≤◌, ◌<◌, ◌^◌, [], length, IfOk, None};
ghost use Rattle.wsm_lists.specs.Rows.{AllRows};
ghost use Rattle.wsm_schema.specs.{Flat.cards_of, Sound.{nodes_of, twice}};

use std::alloc::Global;
use std::test::Fail;
use wsm_commute::{ManyRefusal, MergeRefusal, OpsLists, merge, merge_many};
use wsm_foot::Name;
use wsm_ops::{Gap, Op, OpFault, OpWhy, Ops};
use wsm_schema::{Block, NoMemory, Schema};

// A claim is entered and paid. Drafts of the next version bring more steps.
const ENTER: u32 = 2;

const PAY: u32 = 3;

const SEE_RECEIPT: u32 = 4;

const APPROVE: u32 = 5;

const TELL: u32 = 6;

const NOWHERE: u32 = 7;

const BOTH: &[u32] = &[ENTER, SEE_RECEIPT, PAY, TELL];

const NO_ROLES: &[(u32, u32)] = &[];

const CLERK: &[(u32, u32)] = &[(ENTER, 7)];

// A claim is entered, then paid.
fn claim(alloc: Global) -> Result<Schema, NoMemory>
    ensures { IfOk result (λ schema. twice [] (nodes_of (cards_of schema)) ≡ None) }
{
    let items = vec![in alloc; Block::Act(ENTER), Block::Act(PAY)]?;
    Ok(Schema::new(alloc, 0, 1, items))
}

fn step(node: u32, behind: u32) -> Op {
    Op::InsertSerial {
        node,
        role: 0,
        gap: Gap::After(behind),
    }
}

// The draft of one operation.
fn draft(alloc: Global, op: Op) -> Result<Ops, NoMemory>
    ensures { IfOk result (λ ops. length ops < 2 ^ 32) }
{
    Ops::of_one(alloc, op)
}

// Three drafts of one operation each.
fn drafts(alloc: Global, ops: [Op; 3]) -> Result<OpsLists, NoMemory>
    ensures count { IfOk result (λ lists. length lists ≤ 64) }
    ensures lengths { IfOk result (λ lists. AllRows (λ ops. length ops < 2 ^ 32) lists) }
{
    let [one, two, three] = ops;
    let mut lists = OpsLists::of_one(alloc, draft(alloc, one)?)?;
    lists.push(draft(alloc, two)?)?;
    lists.push(draft(alloc, three)?)?;
    Ok(lists)
}

// What becomes of two drafts of one operation each.
fn merged(alloc: Global, left: Op, right: Op) -> Result<Schema, MergeRefusal> {
    merge(
        alloc,
        &claim(alloc)?,
        &draft(alloc, left)?,
        &draft(alloc, right)?,
    )
}

fn all_merged(alloc: Global, ops: [Op; 3]) -> Result<Schema, ManyRefusal> {
    merge_many(alloc, &claim(alloc)?, &drafts(alloc, ops)?)
}

// Whether the blocks are these activities.
fn are_acts(items: &[Block], nodes: &[u32]) -> bool {
    let mut same = items.len() == nodes.len();
    for (item, node) in items.iter().zip(nodes) {
        same = same && matches!(item, Block::Act(n) if n == node);
    }
    same
}

fn has_roles(schema: &Schema, roles: &[(u32, u32)]) -> bool {
    *schema.roles.as_slice() == *roles
}

fn has_no_rows(schema: &Schema) -> bool {
    schema.syncs.is_empty()
        && schema.elements.is_empty()
        && schema.reads.is_empty()
        && schema.writes.is_empty()
}

// Whether the schema is these activities between 0 and 1, with these roles and nothing else.
fn is_row(schema: &Schema, nodes: &[u32], roles: &[(u32, u32)]) -> bool {
    schema.start == 0
        && schema.finish == 1
        && are_acts(&schema.body, nodes)
        && has_roles(schema, roles)
        && has_no_rows(schema)
}

// The receipt is to be seen before a claim is paid, and who claims is to be told when it is: two people write one draft each.
#[test]
fn two_drafts_make_one_version(rt: HostRuntime) -> Result<(), Fail> {
    let alloc = rt.alloc();
    let new = merged(alloc, step(SEE_RECEIPT, ENTER), step(TELL, PAY))
        .ok()
        .ok_or("a schema")?;
    assert!(rt; is_row(&new, BOTH, NO_ROLES));
    Ok(())
}

// Then a third draft lets only clerks enter a claim.
#[test]
fn three_drafts_make_one_version(rt: HostRuntime) -> Result<(), Fail> {
    let alloc = rt.alloc();
    let clerk = Op::SetRole {
        node: ENTER,
        role: 7,
    };
    let new = all_merged(alloc, [step(SEE_RECEIPT, ENTER), step(TELL, PAY), clerk])
        .ok()
        .ok_or("a schema")?;
    assert!(rt; is_row(&new, BOTH, CLERK));
    Ok(())
}

// But both want their step directly behind the entering: that is for people to settle.
#[test]
fn two_drafts_touch_one_gap(rt: HostRuntime) -> Result<(), Fail> {
    let alloc = rt.alloc();
    let refusal = merged(alloc, step(SEE_RECEIPT, ENTER), step(APPROVE, ENTER)).err();
    assert_eq!(rt; refusal, Some(MergeRefusal::Overlap(Name::GapAfter(ENTER))));
    Ok(())
}

// Of three drafts the second and the third do.
#[test]
fn the_second_draft_and_the_third_touch_one_gap(rt: HostRuntime) -> Result<(), Fail> {
    let alloc = rt.alloc();
    let payer = Op::SetRole { node: PAY, role: 1 };
    let refusal = all_merged(
        alloc,
        [payer, step(SEE_RECEIPT, ENTER), step(APPROVE, ENTER)],
    )
    .err();
    assert_eq!(rt;
        refusal,
        Some(ManyRefusal::Overlap(2, 3, Name::GapAfter(ENTER)))
    );
    Ok(())
}

// A draft that can't be applied is told first, though it touches nothing of the other.
#[test]
fn a_draft_takes_away_what_is_not_there(rt: HostRuntime) -> Result<(), Fail> {
    let alloc = rt.alloc();
    let gone = Op::DeleteActivity { node: NOWHERE };
    let why = OpWhy::NoNode(NOWHERE);
    let fault = OpFault { index: 1, why };
    let left = merged(alloc, gone, step(APPROVE, ENTER)).err();
    assert_eq!(rt; left, Some(MergeRefusal::Left(fault)));
    let right = merged(alloc, step(APPROVE, ENTER), gone).err();
    assert_eq!(rt; right, Some(MergeRefusal::Right(fault)));
    Ok(())
}

// Of three drafts it is the second, and it is told before the gap that the first and the third touch.
#[test]
fn the_second_of_three_takes_away_what_is_not_there(rt: HostRuntime) -> Result<(), Fail> {
    let alloc = rt.alloc();
    let gone = Op::DeleteActivity { node: NOWHERE };
    let refusal = all_merged(
        alloc,
        [step(SEE_RECEIPT, ENTER), gone, step(APPROVE, ENTER)],
    )
    .err();
    let why = OpWhy::NoNode(NOWHERE);
    let fault = OpFault { index: 1, why };
    assert_eq!(rt; refusal, Some(ManyRefusal::List(2, fault)));
    Ok(())
}
