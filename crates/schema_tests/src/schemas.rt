// Schemas, their flat forms, and entries of trails. No test holds a schema, which makes its proof dear.
use crate::trees::{act, and, schema_of, xor};
use std::alloc::Global;
use std::test::Fail;
use wsm_lists::Roles;
use wsm_schema::{Block, ElementKind, Entry, Flat, NoMemory, Nodes, Schema, Value, Writes};

// A loop with an AND block, in one of whose branches is an XOR block.
fn nested(alloc: Global) -> Result<Schema, NoMemory> {
    let choice = xor(alloc, 6, 7, Vec::new(alloc), act(alloc, 8)?)?;
    let block = and(alloc, 4, 5, vec![in alloc; choice]?, act(alloc, 9)?)?;
    let again = Block::Loop {
        start: 2,
        end: 3,
        body: vec![in alloc; block]?,
    };
    Ok(schema_of(alloc, vec![in alloc; again]?))
}

// Which edges and elements are taken: the second read of an element by one node is not.
fn puts(schema: &mut Schema) -> Result<[bool; 5], NoMemory> {
    Ok([
        schema.put_sync(8, 9)?,
        schema.put_element(0, ElementKind::Text)?,
        schema.put_read(9, 0, false)?,
        schema.put_read(9, 0, true)?,
        schema.put_write(8, 0)?,
    ])
}

fn puts_in_nested(alloc: Global) -> Result<[bool; 5], NoMemory> {
    let mut schema = nested(alloc)?;
    puts(&mut schema)
}

#[test]
fn lists_take_each_key_once(rt: HostRuntime) -> Result<(), Fail> {
    let taken = puts_in_nested(rt.alloc())?;
    assert!(rt; taken == [true, true, true, false, true]);
    Ok(())
}

// An activity with a role.
fn with_role(alloc: Global) -> Result<Schema, NoMemory> {
    let mut schema = schema_of(alloc, act(alloc, 6)?);
    schema.put_role(6, 2)?;
    Ok(schema)
}

fn copied_roles(alloc: Global, schema: &Schema) -> Result<Roles, NoMemory> {
    Ok(schema.copy(alloc)?.roles)
}

fn roles_of_a_copy(alloc: Global) -> Result<Roles, NoMemory> {
    copied_roles(alloc, &with_role(alloc)?)
}

#[test]
fn schemas_are_copied(rt: HostRuntime) -> Result<(), Fail> {
    let roles = roles_of_a_copy(rt.alloc())?;
    assert_eq!(rt; roles.as_slice(), [(6, 2)].as_slice());
    Ok(())
}

fn looped(alloc: Global) -> Result<Schema, NoMemory> {
    let again = Block::Loop {
        start: 2,
        end: 3,
        body: act(alloc, 6)?,
    };
    Ok(schema_of(alloc, vec![in alloc; again]?))
}

fn flat_loop(alloc: Global) -> Result<Flat, NoMemory> {
    Flat::of(alloc, &looped(alloc)?)
}

// How many cards the loop has, and the nodes of its body.
fn counted(alloc: Global) -> Result<(usize, Nodes), NoMemory> {
    let flat = flat_loop(alloc)?;
    Ok((flat.cards().len(), flat.loop_body(alloc, 3)?))
}

#[test]
fn flat_forms_are_in_document_order(rt: HostRuntime) -> Result<(), Fail> {
    let (cards, body) = counted(rt.alloc())?;
    assert_eq!(rt; cards, 5);
    assert_eq!(rt; body.as_slice(), [2, 6, 3].as_slice());
    Ok(())
}

fn again(alloc: Global) -> Result<Entry, NoMemory> {
    let writes = Writes::of_one(alloc, (8, Value::Int(-5)))?;
    Ok(Entry::Again { node: 6, writes })
}

// The number that an entry has of element 8.
fn number(entry: &Entry) -> Option<i64> {
    match entry.written(8) {
        Some(Value::Int(number)) => Some(*number),
        _ => None,
    }
}

fn number_of_a_copy(alloc: Global, entry: &Entry) -> Result<Option<i64>, NoMemory> {
    Ok(number(&entry.copy(alloc)?))
}

fn copied_number(alloc: Global) -> Result<Option<i64>, NoMemory> {
    number_of_a_copy(alloc, &again(alloc)?)
}

#[test]
fn entries_are_copied(rt: HostRuntime) -> Result<(), Fail> {
    assert_eq!(rt; copied_number(rt.alloc())?, Some(-5));
    Ok(())
}
