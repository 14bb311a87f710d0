// Schemas and changes that are refused, each with its fault.
ghost use Rattle.std.specs.Prelude.{◌<◌, ◌^◌, length, IfOk};

use crate::schemas::row_of;
use std::alloc::Global;
use std::test::Fail;
use wsm_ops::{Op, OpFault, OpWhy, Ops};
use wsm_schema::{BlockFault, DataFault, ElementKind, NoMemory, Schema};
use wsm_sound::{Checked, Fault, SoundRefusal, change, check};

// 2 writes what 3 must read.
fn handed_on(alloc: Global) -> Result<Schema, NoMemory> {
    let mut schema = read_of_three(alloc)?;
    let _ = schema.put_write(2, 9)?;
    Ok(schema)
}

// 3 must read what nobody writes.
fn read_of_three(alloc: Global) -> Result<Schema, NoMemory> {
    let mut schema = row_of(alloc, &[2, 3])?;
    let _ = schema.put_element(9, ElementKind::Int)?;
    let _ = schema.put_read(3, 9, true)?;
    Ok(schema)
}

// The fault, where there was memory.
fn fault_of(refusal: SoundRefusal) -> Option<Fault> {
    refusal.fault().ok()
}

fn unsound(alloc: Global, schema: Result<Schema, NoMemory>) -> Option<Fault> {
    fault_of(check(alloc, schema.ok()?).err()?)
}

#[test]
fn schemas_that_are_unsound(rt: HostRuntime) -> Result<(), Fail> {
    let alloc = rt.alloc();
    let twice = Fault::Block(BlockFault::Twice(2));
    assert!(rt; unsound(alloc, row_of(alloc, &[2, 2])) == Some(twice));
    let missing = Fault::Data(DataFault::Missing(3, 9));
    assert!(rt; unsound(alloc, read_of_three(alloc)) == Some(missing));
    Ok(())
}

fn one(alloc: Global, op: Op) -> Result<Ops, NoMemory>
    ensures { IfOk result (λ ops. length ops < 2 ^ 32) }
{
    Ops::of_one(alloc, op)
}

fn change_by(alloc: Global, checked: &Checked, op: Op) -> Result<Checked, SoundRefusal> {
    let ops = one(alloc, op)?;
    change(alloc, checked, &ops)
}

// The fault of a change of that schema.
fn refused(alloc: Global, op: Op) -> Option<Fault> {
    let checked = check(alloc, handed_on(alloc).ok()?).ok()?;
    fault_of(change_by(alloc, &checked, op).err()?)
}

#[test]
fn changes_that_are_refused(rt: HostRuntime) -> Result<(), Fail> {
    let alloc = rt.alloc();
    let why = OpWhy::NoNode(7);
    let nobody = Fault::Op(OpFault { index: 1, why });
    assert!(rt; refused(alloc, Op::DeleteActivity { node: 7 }) == Some(nobody));
    let sync = Op::InsertSync {
        source: 2,
        target: 3,
    };
    let place = Fault::Block(BlockFault::SyncPlace(2, 3));
    assert!(rt; refused(alloc, sync) == Some(place));
    let missing = Fault::Data(DataFault::Missing(3, 9));
    assert!(rt; refused(alloc, Op::DeleteActivity { node: 2 }) == Some(missing));
    Ok(())
}
