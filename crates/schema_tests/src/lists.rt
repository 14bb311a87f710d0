// Lists, tables and values.
use std::test::Fail;
use wsm_lists::{
    ByRead, GrowingRoles, GrowingTable, Nodes, ReadValues, Reads, Roles, ShortText, Value, Writes,
};

#[test]
fn lists_keep_their_items(rt: HostRuntime) -> Result<(), Fail> {
    let alloc = rt.alloc();
    let mut nodes = Nodes::of_one(alloc, 7)?;
    nodes.push(4)?;
    let copy = nodes.copy(alloc)?;
    assert_eq!(rt; copy.as_slice(), [7, 4].as_slice());
    assert_eq!(rt; copy.into_vec().len(), 2);
    Ok(())
}

#[test]
fn tables_keep_rows_in_order(rt: HostRuntime) -> Result<(), Fail> {
    let alloc = rt.alloc();
    let mut reads = Reads::new(alloc);
    assert!(rt; reads.put((3, 1, true))?);
    assert!(rt; reads.put((2, 9, false))?);
    assert!(rt; !reads.put((3, 1, false))?);
    reads.set((3, 1, false))?;
    assert_eq!(rt;
        reads.copy(alloc)?.as_slice(),
        [(2, 9, false), (3, 1, false)].as_slice()
    );
    assert_eq!(rt; reads.rows_of(3), [(3, 1, false)].as_slice());
    Ok(())
}

#[test]
fn roles_are_listed_unless_they_are_0(rt: HostRuntime) -> Result<(), Fail> {
    let alloc = rt.alloc();
    let mut roles = Roles::new(alloc);
    roles.put(5, 2)?;
    roles.put(4, 1)?;
    roles.put(5, 0)?;
    assert_eq!(rt; roles.copy(alloc)?.as_slice(), [(4, 1)].as_slice());
    Ok(())
}

#[test]
fn values_are_copied(rt: HostRuntime) -> Result<(), Fail> {
    let alloc = rt.alloc();
    let text = ShortText::of(alloc, b"ward 3".as_slice())?.ok_or("a short text")?;
    let writes = Writes::of_one(alloc, (8, Value::Text(text)))?.duplicate(alloc)?;
    let value = writes.value(8).ok_or("a value")?.copy(alloc)?;
    let reads = ReadValues::of_one(alloc, (8, Some(value)))?.duplicate(alloc)?;
    assert!(rt;
        matches!(reads.get(0), Some((8, Some(Value::Text(text)))) if text.bytes() == b"ward 3".as_slice())
    );
    Ok(())
}

#[test]
fn rows_are_put_in_any_order(rt: HostRuntime) -> Result<(), Fail> {
    let alloc = rt.alloc();
    let mut reads: GrowingTable<ByRead> = GrowingTable::new(alloc);
    assert!(rt; reads.put((3, 1, true))?);
    assert!(rt; reads.put((2, 9, false))?);
    assert!(rt; !reads.put((3, 1, false))?);
    reads.set((3, 1, false))?;
    reads.remove((2, 9));
    let reads = reads.into_table(alloc)?;
    assert_eq!(rt; reads.as_slice(), [(3, 1, false)].as_slice());
    Ok(())
}

#[test]
fn roles_are_put_in_any_order(rt: HostRuntime) -> Result<(), Fail> {
    let alloc = rt.alloc();
    let mut roles = GrowingRoles::new(alloc);
    roles.put(5, 2)?;
    roles.put(4, 1)?;
    roles.put(5, 0)?;
    let roles = roles.into_roles(alloc)?;
    assert_eq!(rt; roles.as_slice(), [(4, 1)].as_slice());
    assert_eq!(rt; roles.get(0), Some(&(4, 1)));
    Ok(())
}
