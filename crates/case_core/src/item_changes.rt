// The work items of nodes, by their marks and by who held them before.
ghost use Rattle.std.specs.{Prelude.{◌≡◌, ◌+◌, ◌<◌, ◌≤◌, [], length, IfOk, OnOk}, Option.option_copied};
ghost use Rattle.case_core.specs.KeptItems.{RenewsItems, TellsItems, item_by, item_for, item_then, user_from, user_in, user_then, with_item, work_item};
ghost use Rattle.wsm_items.specs.WorkItems.{IsOfNode};
ghost use Rattle.wsm_lists.specs.{ByNumber.{change_row, item_at}, Keys.first, Rows.Ascends};
ghost use Rattle.wsm_schema.specs.Flat.{cards_of};
ghost use Rattle.wsm_walk.specs.Kept.{mark_or};

use crate::spots::spot_by;
use crate::timing::user_of;
use std::alloc::Global;
use wsm_items::{Item, Items};
use wsm_rules::{Changes, Mark, Marks, is_worked_on};
use wsm_schema::{Card, Entry, NoMemory, State};
use wsm_sound::Checked;

/// The work items of all nodes that have marks, before anything was started.
pub fn items_on(alloc: Global, checked: &Checked, marks: &Marks) -> Result<Items, NoMemory>
    ensures { IfOk result (λ items. TellsItems (cards_of checked.now) [] marks.now.rows items.rows) }
{
    let mut items = Items::new(alloc);
    for row in marks.as_slice() {
        let item = first_item(checked, row.0, &row.1);
        put_item(&mut items, item)?;
    }
    Ok(items)
}

// The work item of a node with that mark, before anything was started.
#[tactic(auto, using(crate::proofs::ItemLoops::nobody))]
fn first_item(checked: &Checked, node: u32, mark: &Mark) -> Option<Item>
    ensures { result ≡ item_for (cards_of checked.now) [] node (Some mark.now) }
{
    item_by(checked.flat().card(node), node, Some(mark), 0)
}

// One more item, where there is one.
fn put_item(items: &mut Items, item: Option<Item>) -> Result<(), NoMemory>
    ensures { OnOk result (items.new.rows ≡ with_item item items.old.rows) }
{
    if let Some(item) = item {
        items.reserve(1)?;
        items.put(item);
    }
    Ok(())
}

/// The work items of the nodes whose marks change become what they are then, where the trail gets that entry at the next
/// position, or none. Takes no memory.
pub fn renew_items(
    checked: &Checked,
    items: &mut Items,
    next: u32,
    entry: Option<&Entry>,
    changes: &Changes,
)
    requires room { length changes.now ≤ items.old.spare }
    ensures items { RenewsItems (cards_of checked.now) next (option_copied entry.entry) items.old.rows changes.now items.new.rows }
    ensures ascends { Ascends first changes.now }
{
    let _ = items.as_slice();
    for change in changes.as_slice() {
        let item = changed_item(checked, items, next, entry, change);
        renew_item(items, change.0, item);
    }
}

// The node has that item from now on, or none. Takes no memory.
fn renew_item(items: &mut Items, node: u32, item: Option<Item>)
    requires room { 0 < items.old.spare }
    requires node { IsOfNode node item }
    ensures rows { items.new.rows ≡ change_row node item items.old.rows }
    ensures spare { items.old.spare ≤ items.new.spare + 1 }
{
    match item {
        Some(item) => items.put(item),
        None => items.take(node),
    }
}

// The work item of a node whose mark changes, where the trail gets that entry at the next position, or none.
fn changed_item(
    checked: &Checked,
    old: &Items,
    next: u32,
    entry: Option<&Entry>,
    change: &(u32, Option<Mark>),
) -> Option<Item>
    ensures { result ≡ item_then (cards_of checked.now) next (option_copied entry.entry) (item_at change.now.0 old.now.rows) change.now.0 change.now.1 }
{
    let held = old.get(change.0);
    item_then(checked, next, entry, held, change.0, change.1.as_ref())
}

// The work item of a node with that mark, where somebody held it before or nobody.
fn item_then(
    checked: &Checked,
    next: u32,
    entry: Option<&Entry>,
    held: Option<&Item>,
    node: u32,
    mark: Option<&Mark>,
) -> Option<Item>
    ensures { result ≡ item_then (cards_of checked.now) next (option_copied entry.entry) (option_copied held.entry) node (option_copied mark.entry) }
{
    let user = user_then(next, entry, held, started(mark));
    item_by(checked.flat().card(node), node, mark, user)
}

fn started(mark: Option<&Mark>) -> Option<u32>
    ensures { result ≡ (mark_or (option_copied mark.entry)).started }
{
    match mark {
        None => None,
        Some(mark) => mark.started,
    }
}

// Who holds a node that was started at that position: who comes next, or who held it before.
fn user_then(next: u32, entry: Option<&Entry>, held: Option<&Item>, position: Option<u32>) -> u32
    ensures { result ≡ user_then next (option_copied entry.entry) (option_copied held.entry) position }
{
    match position {
        None => 0,
        Some(position) => user_from(next, entry, held, position),
    }
}

fn user_from(next: u32, entry: Option<&Entry>, held: Option<&Item>, position: u32) -> u32
    ensures { result ≡ user_from next (option_copied entry.entry) (option_copied held.entry) position }
{
    match entry {
        None => user_in(held),
        Some(entry) => {
            if position == next {
                user_of(entry)
            } else {
                user_in(held)
            }
        }
    }
}

fn user_in(item: Option<&Item>) -> u32
    ensures { result ≡ user_in (option_copied item.entry) }
{
    match item {
        Some(Item::Held { user, .. }) => *user,
        Some(Item::Offered { .. }) | None => 0,
    }
}

// The work item of a node, by its card and its mark, where the user started it.
fn item_by(card: Option<&Card>, node: u32, mark: Option<&Mark>, user: u32) -> Option<Item>
    ensures { result ≡ item_by (option_copied card.entry) node (mark_or (option_copied mark.entry)) user }
{
    let card = card?;
    if !is_worked_on(card.kind) {
        return None;
    }
    work_item(node, card.role, spot_by(card.kind, node, mark).state, user)
}

fn work_item(node: u32, role: u32, state: State, user: u32) -> Option<Item>
    ensures { result ≡ work_item node role state user }
{
    match state {
        State::Activated => Some(Item::Offered { node, role }),
        State::Running => Some(Item::Held { node, user }),
        State::NotActivated | State::Completed | State::Skipped => None,
    }
}
