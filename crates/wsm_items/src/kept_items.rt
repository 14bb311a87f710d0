// Work items by node, in reserved room.
ghost use Rattle.std.specs.{Prelude.{◌≡◌, ℕ, ◌+◌, ◌≤◌, ◌<◌, [], ◌∷◌, ◌++◌, filter, OnOk, IfOk, if◌then◌else◌}, Option.{is_some, option_copied}};
ghost use Rattle.wsm_items.specs.WorkItems.{ByNode, is_held_by, is_offered_to, item_node, items_in};
ghost use Rattle.wsm_lists.specs.{ByNumber.item_at, Keys.first, Rows.{Ascends, drop_row, put_row}};

use crate::work_items::{Item, ItemList};
use std::alloc::Global;
use std::marker::Model;
use wsm_lists::{NoMemory, NumberedRows};

/// At most one work item for each node, ascending by node. While reserved room lasts, items are put without taking memory.
#[derive(Drop)]
pub struct Items {
    rows: NumberedRows<Item>,
}

impl Model for Items {
    ghost use Rattle.wsm_items.specs.WorkItems.{ByNode};
    ghost use Rattle.wsm_items.specs.declared.work_items.Item.{Item};
    ghost use Rattle.wsm_lists.specs.ByNumber.{RowsWithRoom};

    ghost Value = { RowsWithRoom Item };

    ghost view = { λ a. a.rows };

    ghost invariant = { λ a. ByNode a.rows.rows };
}

impl Items {
    /// No items.
    pub fn new(alloc: Global) -> Items
        ensures { result.rows ≡ [] }
    {
        Items {
            rows: NumberedRows::new(alloc),
        }
    }

    /// Equal items, without further room.
    pub fn copy(&self, alloc: Global) -> Result<Items, NoMemory>
        ensures { IfOk result (λ new. new.rows ≡ self.now.rows) }
    {
        Ok(Items {
            rows: self.rows.copy(alloc)?,
        })
    }

    /// Room for so many more items.
    pub fn reserve(&mut self, more: usize) -> Result<(), NoMemory>
        ensures same { self.new.rows ≡ self.old.rows }
        ensures room { OnOk result (more ≤ self.new.spare) }
        ensures kept { self.old.spare ≤ self.new.spare }
    {
        self.rows.reserve(more)
    }

    /// All items, each by its node.
    pub fn as_slice(&self) -> &[(u32, Item)]
        ensures rows { result.now ≡ self.now.rows }
        ensures ascends { Ascends first result.now }
    {
        self.rows.as_slice()
    }

    /// The item of its node from now on. Takes no memory.
    pub fn put(&mut self, item: Item)
        requires { 0 < self.old.spare + (if is_some (item_at (item_node item) self.old.rows) then 1 else 0) }
        ensures rows { self.new.rows ≡ put_row first (item_node item, item) self.old.rows }
        ensures spare { self.old.spare ≤ self.new.spare + (if is_some (item_at (item_node item) self.old.rows) then 0 else 1) }
    {
        self.rows.set(item.node(), item);
    }

    /// The node has no item any more. Takes no memory.
    pub fn take(&mut self, node: u32)
        ensures rows { self.new.rows ≡ drop_row first (node, 0) self.old.rows }
        ensures spare { self.old.spare ≤ self.new.spare }
    {
        self.rows.remove(node);
    }

    /// The node's item. None where it has none.
    pub fn get(&self, node: u32) -> Option<&Item>
        ensures { option_copied result ≡ item_at node self.now.rows }
    {
        self.rows.get(node)
    }

    /// All items, ascending by node.
    pub fn list(&self, alloc: Global) -> Result<ItemList, NoMemory>
        ensures { IfOk result (λ list. list ≡ items_in self.now.rows) }
    {
        let mut list = Vec::new(alloc);
        for (_, item) in self.rows.as_slice() {
            list.push(*item)?;
        }
        Ok(ItemList::from_vec(list))
    }

    /// The items that are offered to that role itself.
    pub fn of_role(&self, alloc: Global, role: u32) -> Result<ItemList, NoMemory>
        ensures items { IfOk result (λ list. list ≡ filter (is_offered_to role) (items_in self.now.rows)) }
        ensures nodes { ByNode self.now.rows }
        ensures ascends { Ascends first self.now.rows }
    {
        let mut list = Vec::new(alloc);
        for (_, item) in self.rows.as_slice() {
            push_if(&mut list, *item, item.is_offered_to(role))?;
        }
        Ok(ItemList::from_vec(list))
    }

    /// The items that the user holds.
    pub fn of_user(&self, alloc: Global, user: u32) -> Result<ItemList, NoMemory>
        ensures items { IfOk result (λ list. list ≡ filter (is_held_by user) (items_in self.now.rows)) }
        ensures nodes { ByNode self.now.rows }
        ensures ascends { Ascends first self.now.rows }
    {
        let mut list = Vec::new(alloc);
        for (_, item) in self.rows.as_slice() {
            push_if(&mut list, *item, item.is_held_by(user))?;
        }
        Ok(ItemList::from_vec(list))
    }
}

// One more item, where it is chosen.
fn push_if(list: &mut Vec<Item>, item: Item, chosen: bool) -> Result<(), NoMemory>
    ensures { OnOk result (list.new.items ≡ list.old.items ++ (if chosen then item ∷ [] else [])) }
{
    if chosen {
        list.push(item)?;
    }
    Ok(())
}
