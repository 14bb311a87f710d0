// The check of data, on three small schemas.
use crate::trees::{act, schema_of, side_by_side, xor};
use std::alloc::Global;
use std::test::Fail;
use wsm_block::check_block;
use wsm_data::{DataFault, DataRefusal, check_data};
use wsm_schema::{Block, ElementKind, Flat, NoMemory, Schema};

// Two branches write one element.
fn both_write(alloc: Global) -> Result<Schema, NoMemory> {
    let mut schema = side_by_side(alloc)?;
    put_two_writes(&mut schema)?;
    Ok(schema)
}

fn put_two_writes(schema: &mut Schema) -> Result<(), NoMemory> {
    schema.put_element(0, ElementKind::Int)?;
    schema.put_write(4, 0)?;
    schema.put_write(5, 0)?;
    Ok(())
}

// An activity reads what one behind a choice writes.
fn choice_writes(alloc: Global) -> Result<Schema, NoMemory> {
    let mut schema = choice_and_reader(alloc)?;
    put_write_and_read(&mut schema)?;
    Ok(schema)
}

fn choice_and_reader(alloc: Global) -> Result<Schema, NoMemory> {
    let choice = xor(alloc, 2, 3, Vec::new(alloc), act(alloc, 4)?)?;
    let body = vec![in alloc; choice, Block::Act(5)]?;
    Ok(schema_of(alloc, body))
}

fn put_write_and_read(schema: &mut Schema) -> Result<(), NoMemory> {
    schema.put_element(0, ElementKind::Int)?;
    schema.put_write(4, 0)?;
    schema.put_read(5, 0, true)?;
    Ok(())
}

// Two branches write one element, one behind the other.
fn both_write_in_turn(alloc: Global) -> Result<Schema, NoMemory> {
    let mut schema = both_write(alloc)?;
    schema.put_sync(4, 5)?;
    Ok(schema)
}

// The answer for a schema whose blocks are sound.
fn checked(alloc: Global, schema: Result<Schema, NoMemory>) -> Option<Result<(), DataRefusal>> {
    flat_checked(alloc, &schema.ok()?)
}

fn flat_checked(alloc: Global, schema: &Schema) -> Option<Result<(), DataRefusal>> {
    let flat = Flat::of(alloc, schema).ok()?;
    let rank = check_block(alloc, schema, &flat).ok()?;
    Some(check_data(alloc, schema, &flat, &rank))
}

#[test]
fn a_read_behind_one_branch_misses_its_value(rt: HostRuntime) -> Result<(), Fail> {
    let alloc = rt.alloc();
    let missing = DataRefusal::Fault(DataFault::Missing(5, 0));
    assert_eq!(rt; checked(alloc, choice_writes(alloc)), Some(Err(missing)));
    Ok(())
}

#[test]
fn two_branches_write_one_element(rt: HostRuntime) -> Result<(), Fail> {
    let alloc = rt.alloc();
    let parallel = DataRefusal::Fault(DataFault::ParallelWrite(4, 5, 0));
    assert_eq!(rt; checked(alloc, both_write(alloc)), Some(Err(parallel)));
    Ok(())
}

#[test]
fn two_branches_write_in_turn(rt: HostRuntime) -> Result<(), Fail> {
    let alloc = rt.alloc();
    assert_eq!(rt; checked(alloc, both_write_in_turn(alloc)), Some(Ok(())));
    Ok(())
}
