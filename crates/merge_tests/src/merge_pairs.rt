// Pairs of operations: each kind beside each on activities of its own, and each kind with each that may touch what it changes.
ghost use Rattle.std.specs.Prelude.{◌≡◌, [], IfOk, None};
ghost use Rattle.wsm_schema.specs.{Flat.cards_of, Sound.{nodes_of, twice}};

use std::alloc::Global;
use std::test::Fail;
use wsm_commute::{MergeRefusal, merge};
use wsm_foot::Name;
use wsm_lists::{Elements, Reads, Roles, Syncs, WriteEdges};
use wsm_ops::{Gap, Op, Ops};
use wsm_schema::{Block, Branch, ElementKind, NoMemory, Schema};

// Behind the activity 2, each with a new node 30.
const INSERTS: &[Op] = &[
    Op::InsertSerial {
        node: 30,
        role: 1,
        gap: Gap::After(2),
    },
    Op::InsertParallel {
        node: 30,
        role: 1,
        split: 31,
        join: 32,
        first: 2,
        last: 2,
    },
    Op::InsertConditional {
        node: 30,
        role: 1,
        split: 31,
        join: 32,
        gap: Gap::After(2),
    },
];

// The activity 2 goes away.
const GOES: &[Op] = &[
    Op::DeleteActivity { node: 2 },
    Op::MoveActivity {
        node: 2,
        gap: Gap::After(3),
    },
];

// Rows of the activity 2.
const ROWS: &[Op] = &[
    Op::InsertSync {
        source: 2,
        target: 3,
    },
    Op::DeleteSync {
        source: 3,
        target: 2,
    },
    Op::AddRead {
        node: 2,
        element: 2,
        mandatory: true,
    },
    Op::RemoveRead {
        node: 2,
        element: 1,
    },
    Op::AddWrite {
        node: 2,
        element: 2,
    },
    Op::RemoveWrite {
        node: 2,
        element: 1,
    },
    Op::SetRole { node: 2, role: 2 },
];

const ELEMENT: &[Op] = &[Op::AddElement {
    element: 1,
    kind: ElementKind::Int,
}];

// One of each kind, round the activity 2.
const LEFT: &[&[Op]] = &[INSERTS, GOES, ROWS, ELEMENT];

// One of each kind, round the activity 4.
const RIGHT: &[Op] = &[
    Op::InsertSerial {
        node: 40,
        role: 1,
        gap: Gap::After(4),
    },
    Op::InsertParallel {
        node: 40,
        role: 1,
        split: 41,
        join: 42,
        first: 4,
        last: 4,
    },
    Op::InsertConditional {
        node: 40,
        role: 1,
        split: 41,
        join: 42,
        gap: Gap::After(4),
    },
    Op::DeleteActivity { node: 4 },
    Op::MoveActivity {
        node: 4,
        gap: Gap::After(5),
    },
    Op::InsertSync {
        source: 4,
        target: 5,
    },
    Op::DeleteSync {
        source: 5,
        target: 4,
    },
    Op::AddElement {
        element: 3,
        kind: ElementKind::Text,
    },
    Op::AddRead {
        node: 4,
        element: 4,
        mandatory: false,
    },
    Op::RemoveRead {
        node: 4,
        element: 3,
    },
    Op::AddWrite {
        node: 4,
        element: 4,
    },
    Op::RemoveWrite {
        node: 4,
        element: 3,
    },
    Op::SetRole { node: 4, role: 2 },
];

// At the gap behind the activity 2 too, with other new nodes.
const SAME_GAP: &[Op] = &[
    Op::InsertSerial {
        node: 50,
        role: 1,
        gap: Gap::After(2),
    },
    Op::InsertParallel {
        node: 50,
        role: 1,
        split: 51,
        join: 52,
        first: 2,
        last: 2,
    },
    Op::InsertConditional {
        node: 50,
        role: 1,
        split: 51,
        join: 52,
        gap: Gap::After(2),
    },
    Op::MoveActivity {
        node: 3,
        gap: Gap::After(2),
    },
];

// Rows of the node 30, which the schema lists although it has no such node.
const STALE_ROWS: &[Op] = &[
    Op::DeleteSync {
        source: 30,
        target: 3,
    },
    Op::RemoveRead {
        node: 30,
        element: 2,
    },
    Op::RemoveWrite {
        node: 30,
        element: 2,
    },
];

// Rows of the element 1.
const ELEMENT_ROWS: &[Op] = &[
    Op::AddRead {
        node: 3,
        element: 1,
        mandatory: true,
    },
    Op::RemoveRead {
        node: 2,
        element: 1,
    },
    Op::AddWrite {
        node: 3,
        element: 1,
    },
    Op::RemoveWrite {
        node: 2,
        element: 1,
    },
];

// Each of the first operations overlaps with each of the others at that name.
const OVERLAPS: &[(&[Op], &[Op], Name)] = &[
    (INSERTS, SAME_GAP, Name::GapAfter(2)),
    (INSERTS, STALE_ROWS, Name::Node(30)),
    (INSERTS, GOES, Name::Node(2)),
    (GOES, GOES, Name::Node(2)),
    (GOES, ROWS, Name::Node(2)),
    (ELEMENT, ELEMENT, Name::Element(1)),
    (ELEMENT, ELEMENT_ROWS, Name::Element(1)),
];

// What an operation of a row shares with itself.
const ROW_NAMES: &[Name] = &[
    Name::Sync(2, 3),
    Name::Sync(3, 2),
    Name::Read(2, 2),
    Name::Read(2, 1),
    Name::Write(2, 2),
    Name::Write(2, 1),
    Name::Role(2),
];

fn syncs(alloc: Global) -> Result<Syncs, NoMemory> {
    let mut rows = Syncs::new(alloc);
    let _ = rows.put((3, 2))?;
    let _ = rows.put((5, 4))?;
    let _ = rows.put((30, 3))?;
    Ok(rows)
}

fn reads(alloc: Global) -> Result<Reads, NoMemory> {
    let mut rows = Reads::new(alloc);
    let _ = rows.put((2, 1, true))?;
    let _ = rows.put((4, 3, true))?;
    let _ = rows.put((30, 2, true))?;
    Ok(rows)
}

fn writes(alloc: Global) -> Result<WriteEdges, NoMemory> {
    let mut rows = WriteEdges::new(alloc);
    let _ = rows.put((2, 1))?;
    let _ = rows.put((4, 3))?;
    let _ = rows.put((30, 2))?;
    Ok(rows)
}

// The schema to which all these operations apply: four activities one after another, with rows.
fn base(alloc: Global) -> Result<Schema, NoMemory>
    ensures { IfOk result (λ schema. twice [] (nodes_of (cards_of schema)) ≡ None) }
{
    let body = vec![in alloc; Block::Act(2), Block::Act(3), Block::Act(4), Block::Act(5)]?;
    Ok(Schema {
        start: 0,
        finish: 1,
        body,
        syncs: syncs(alloc)?,
        elements: Elements::new(alloc),
        reads: reads(alloc)?,
        writes: writes(alloc)?,
        roles: Roles::new(alloc),
    })
}

#[cycle(same)]
fn same_block(one: &Block, other: &Block) -> bool {
    match (one, other) {
        (Block::Act(a), Block::Act(b)) => a == b,
        (
            Block::And {
                split,
                join,
                branches,
            },
            Block::And {
                split: s,
                join: j,
                branches: b,
            },
        ) => split == s && join == j && same_branches(branches, b),
        (
            Block::Xor {
                split,
                join,
                branches,
            },
            Block::Xor {
                split: s,
                join: j,
                branches: b,
            },
        ) => split == s && join == j && same_branches(branches, b),
        _ => false,
    }
}

#[cycle(same)]
fn same_items(one: &[Block], other: &[Block]) -> bool {
    let mut same = one.len() == other.len();
    for (a, b) in one.iter().zip(other) {
        same = same && same_block(a, b);
    }
    same
}

#[cycle(same)]
fn same_branches(one: &[Branch], other: &[Branch]) -> bool {
    let mut same = one.len() == other.len();
    for (a, b) in one.iter().zip(other) {
        same = same && a.code == b.code && same_items(&a.items, &b.items);
    }
    same
}

fn same_rows(one: &Schema, other: &Schema) -> bool {
    *one.syncs.as_slice() == *other.syncs.as_slice()
        && *one.elements.as_slice() == *other.elements.as_slice()
        && *one.reads.as_slice() == *other.reads.as_slice()
        && *one.writes.as_slice() == *other.writes.as_slice()
        && *one.roles.as_slice() == *other.roles.as_slice()
}

fn merged(alloc: Global, base: &Schema, left: Op, right: Op) -> Result<Schema, MergeRefusal>
    requires { twice [] (nodes_of (cards_of base.now)) ≡ None }
{
    merge(
        alloc,
        base,
        &Ops::of_one(alloc, left)?,
        &Ops::of_one(alloc, right)?,
    )
}

// Whether both orders make one schema.
fn commute(alloc: Global, base: &Schema, left: Op, right: Op) -> bool
    requires { twice [] (nodes_of (cards_of base.now)) ≡ None }
{
    match (
        merged(alloc, base, left, right),
        merged(alloc, base, right, left),
    ) {
        (Ok(one), Ok(other)) => same_items(&one.body, &other.body) && same_rows(&one, &other),
        _ => false,
    }
}

fn commutes_with_all(alloc: Global, base: &Schema, left: Op) -> bool
    requires { twice [] (nodes_of (cards_of base.now)) ≡ None }
{
    let mut all = true;
    for right in RIGHT {
        all = all && commute(alloc, base, left, *right);
    }
    all
}

fn all_commute(alloc: Global, base: &Schema, lefts: &[Op]) -> bool
    requires { twice [] (nodes_of (cards_of base.now)) ≡ None }
{
    let mut all = true;
    for left in lefts {
        all = all && commutes_with_all(alloc, base, *left);
    }
    all
}

// Whether two operations overlap at a name, in both orders.
fn overlap(alloc: Global, base: &Schema, left: Op, right: Op, name: Name) -> bool
    requires { twice [] (nodes_of (cards_of base.now)) ≡ None }
{
    merged(alloc, base, left, right).err() == Some(MergeRefusal::Overlap(name))
        && merged(alloc, base, right, left).err() == Some(MergeRefusal::Overlap(name))
}

fn overlaps_with_all(alloc: Global, base: &Schema, left: Op, rights: &[Op], name: Name) -> bool
    requires { twice [] (nodes_of (cards_of base.now)) ≡ None }
{
    let mut all = true;
    for right in rights {
        all = all && overlap(alloc, base, left, *right, name);
    }
    all
}

fn all_overlap(alloc: Global, base: &Schema, lefts: &[Op], rights: &[Op], name: Name) -> bool
    requires { twice [] (nodes_of (cards_of base.now)) ≡ None }
{
    let mut all = true;
    for left in lefts {
        all = all && overlaps_with_all(alloc, base, *left, rights, name);
    }
    all
}

#[test]
fn each_kind_goes_with_each(rt: HostRuntime) -> Result<(), Fail> {
    let alloc = rt.alloc();
    let base = base(alloc)?;
    for lefts in LEFT {
        assert!(rt; all_commute(alloc, &base, lefts));
    }
    Ok(())
}

#[test]
fn kinds_that_touch_one_name(rt: HostRuntime) -> Result<(), Fail> {
    let alloc = rt.alloc();
    let base = base(alloc)?;
    for (lefts, rights, name) in OVERLAPS {
        assert!(rt; all_overlap(alloc, &base, lefts, rights, *name));
    }
    Ok(())
}

#[test]
fn a_row_is_touched_twice(rt: HostRuntime) -> Result<(), Fail> {
    let alloc = rt.alloc();
    let base = base(alloc)?;
    for (op, name) in ROWS.iter().zip(ROW_NAMES) {
        assert!(rt; overlap(alloc, &base, *op, *op, *name));
    }
    Ok(())
}
