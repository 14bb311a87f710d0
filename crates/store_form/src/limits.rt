// Which calls have a payload.
ghost use Rattle.std.specs.Prelude.{◌≡◌, ◌^◌, nat_lt};
ghost use Rattle.wsm_schema.specs.{Sound.{part_depth, parts_depth, lanes_depth}, Tree.lanes, TreeOf.{part_of, parts_of, lanes_of}};
ghost use Rattle.store_form.specs.Stored.{few_branches, few_in_edges, few_in_event, few_in_part, few_in_schema, few_in_tables, few_items, has_short_lists, is_shallow};

use crate::stored::Stored;
use case_core::Event;
use wsm_schema::{Block, Branch, Schema};

// A schema whose blocks stand deeper one inside another has no payload.
pub(crate) const MAX_DEPTH: u32 = 64;

/// Whether the blocks of a new type stand at most 64 deep one inside another.
pub fn is_shallow(event: &Stored) -> bool
    ensures { result ≡ is_shallow event.now }
{
    match event {
        Stored::Define(_, schema) => !are_deeper(&schema.body, MAX_DEPTH),
        _ => true,
    }
}

// Whether blocks stand in one another more than `depth` deep. A deeper one is not looked into.
#[cycle(depth)]
fn are_deeper(items: &[Block], depth: u32) -> bool
    ensures { result ≡ nat_lt depth (parts_depth (parts_of items.now)) }
{
    for i in 0..items.len() {
        if is_deeper(&items[i], depth) {
            return true;
        }
    }
    false
}

#[cycle(depth)]
fn is_deeper(block: &Block, depth: u32) -> bool
    ensures { result ≡ nat_lt depth (part_depth (part_of block.now)) }
{
    match block {
        Block::Act(_) => false,
        Block::And { branches, .. } => depth == 0 || have_deeper(branches, depth - 1),
        Block::Xor { branches, .. } => depth == 0 || have_deeper(branches, depth - 1),
        Block::Loop { body, .. } => depth == 0 || are_deeper(body, depth - 1),
    }
}

#[cycle(depth)]
fn have_deeper(branches: &[Branch], depth: u32) -> bool
    ensures { result ≡ nat_lt depth (lanes_depth (lanes (lanes_of branches.now))) }
{
    for i in 0..branches.len() {
        if are_deeper(&branches[i].items, depth) {
            return true;
        }
    }
    false
}

/// Whether each list of the event has fewer than 2^32 items.
pub fn has_short_lists(event: &Stored) -> bool
    ensures { result ≡ has_short_lists event.now }
{
    match event {
        Stored::Define(_, schema) => has_few_rows(schema),
        Stored::Install(_, ops) => is_short(ops.len()),
        Stored::Newest(_) | Stored::Create(..) | Stored::Migrate(..) => true,
        Stored::Case(_, event) => has_few_items(event),
    }
}

fn is_short(len: usize) -> bool
    ensures { result ≡ nat_lt len (2 ^ 32) }
{
    len <= u32::MAX as usize
}

fn has_few_items(event: &Event) -> bool
    ensures { result ≡ few_in_event event.now }
{
    match event {
        Event::Create(_) | Event::Withdraw { .. } | Event::Migrate(_) => true,
        Event::Start { roles, .. } => is_short(roles.len()),
        Event::End { writes, .. } => is_short(writes.len()),
        Event::Change(ops) => is_short(ops.len()),
    }
}

fn has_few_rows(schema: &Schema) -> bool
    ensures { result ≡ few_in_schema schema.now }
{
    are_few(&schema.body) && has_few_in_tables(schema)
}

fn has_few_in_tables(schema: &Schema) -> bool
    ensures { result ≡ few_in_tables schema.now }
{
    is_short(schema.syncs.len()) && is_short(schema.elements.len()) && has_few_in_edges(schema)
}

fn has_few_in_edges(schema: &Schema) -> bool
    ensures { result ≡ few_in_edges schema.now }
{
    is_short(schema.reads.len()) && is_short(schema.writes.len()) && is_short(schema.roles.len())
}

// Whether so few items stand in each row of a tree.
#[cycle(few)]
fn are_few(items: &[Block]) -> bool
    ensures { result ≡ few_items (parts_of items.now) }
{
    if !is_short(items.len()) {
        return false;
    }
    for i in 0..items.len() {
        if !has_few(&items[i]) {
            return false;
        }
    }
    true
}

#[cycle(few)]
fn has_few(block: &Block) -> bool
    ensures { result ≡ few_in_part (part_of block.now) }
{
    match block {
        Block::Act(_) => true,
        Block::And { branches, .. } => have_few(branches),
        Block::Xor { branches, .. } => have_few(branches),
        Block::Loop { body, .. } => are_few(body),
    }
}

#[cycle(few)]
fn have_few(branches: &[Branch]) -> bool
    ensures { result ≡ few_branches (lanes (lanes_of branches.now)) }
{
    if !is_short(branches.len()) {
        return false;
    }
    for i in 0..branches.len() {
        if !are_few(&branches[i].items) {
            return false;
        }
    }
    true
}
