// The values that an end brings.
use case_writes::wrong_elements;
use std::alloc::Global;
use std::test::Fail;
use wsm_schema::{ElementKind, Flat, Items, NoMemory, Nodes, Schema, Value, Writes};

fn put_elements(schema: &mut Schema) -> Result<(), NoMemory> {
    schema.put_element(3, ElementKind::Int)?;
    schema.put_element(4, ElementKind::Text)?;
    Ok(())
}

// A flat form with the elements 3 and 4.
fn two_elements(alloc: Global) -> Result<Flat, NoMemory> {
    let mut schema = Schema::new(alloc, 0, 1, Items::new(alloc));
    put_elements(&mut schema)?;
    Flat::of(alloc, &schema)
}

// Two integers.
fn numbers(alloc: Global, first: u32, second: u32) -> Result<Writes, NoMemory> {
    let writes = vec![in alloc; (first, Value::Int(7)), (second, Value::Int(8))]?;
    Ok(Writes::from_vec(writes))
}

fn wrong_on(alloc: Global, flat: &Flat, writes: &Writes) -> Result<Nodes, NoMemory> {
    wrong_elements(alloc, flat, &[3, 4], writes.as_slice())
}

// The wrong elements of an end that is to write the elements 3 and 4, and writes two integers.
fn wrong(alloc: Global, first: u32, second: u32) -> Result<Nodes, NoMemory> {
    let flat = two_elements(alloc)?;
    wrong_on(alloc, &flat, &numbers(alloc, first, second)?)
}

// 3 is not named, 4 is a text, and 5 is no write edge.
#[test]
fn wrong_elements_ascend(rt: HostRuntime) -> Result<(), Fail> {
    let alloc = rt.alloc();
    assert_eq!(rt; wrong(alloc, 5, 4)?.as_slice(), [3, 4, 5].as_slice());
    assert_eq!(rt; wrong(alloc, 4, 3)?.as_slice(), [4].as_slice());
    Ok(())
}
