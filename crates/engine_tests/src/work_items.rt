// Work items by role and by user.
use std::alloc::Global;
use std::test::Fail;
use wsm_items::{Item, Items};
use wsm_schema::NoMemory;

// Nodes 4 and 2 are offered to role 1, node 3 to everybody, and user 7 holds node 5.
fn some_items(alloc: Global) -> Result<Items, NoMemory> {
    let mut items = Items::new(alloc);
    items.reserve(4)?;
    items.put(Item::Offered { node: 4, role: 1 });
    items.put(Item::Held { node: 5, user: 7 });
    items.put(Item::Offered { node: 3, role: 0 });
    items.put(Item::Offered { node: 2, role: 1 });
    Ok(items)
}

#[test]
fn items_are_found_by_role_and_by_user(rt: HostRuntime) -> Result<(), Fail> {
    let alloc = rt.alloc();
    let mut items = some_items(alloc)?;
    let offered = [
        Item::Offered { node: 2, role: 1 },
        Item::Offered { node: 4, role: 1 },
    ];
    assert!(rt; items.of_role(alloc, 1)?.as_slice() == offered.as_slice());
    assert!(rt;
        items.of_user(alloc, 7)?.as_slice() == [Item::Held { node: 5, user: 7 }].as_slice()
    );
    items.take(4);
    assert!(rt;
        items.of_role(alloc, 1)?.as_slice() == [Item::Offered { node: 2, role: 1 }].as_slice()
    );
    Ok(())
}
