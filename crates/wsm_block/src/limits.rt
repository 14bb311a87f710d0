// The limits on the size of a schema.
ghost use Rattle.std.specs.{Prelude.{◌≡◌, ◌≤◌, ◌==◌, nat_lt, true, map, take, length, IsTrue}, List.list_any, Option.{option_or, option_and_then}};
ghost use Rattle.wsm_schema.specs.{Flat.cards_of, Sound.{over_limit, part_depth, parts_depth, lanes_depth, too_many, when}, Sizes.{part_size, parts_size, lanes_size}, Tree.lanes, TreeOf.{part_of, parts_of, lanes_of}};
ghost use Rattle.wsm_block.specs.Sizes.{room_behind};
ghost use Rattle.wsm_schema.specs.declared.faults.BlockFault.TheVariants.{Limit};
ghost use Rattle.wsm_schema.specs.declared.faults.LimitKind.TheVariants as limit;

use wsm_schema::{Block, BlockFault, Branch, Keys, LimitKind, Reads, Schema, Table, WriteEdges};

const MOST_NODES: u32 = 1024;

// The start and the finish.
const OUTER_NODES: u32 = 2;

const MOST_SYNCS: usize = 1024;

const MOST_ELEMENTS: usize = 1024;

const MOST_ROWS: usize = 16;

const DEEPEST: u32 = 64;

/// The first limit that is exceeded, found in the tree itself.
pub fn over_limit(schema: &Schema) -> Option<BlockFault>
    ensures { result ≡ over_limit schema.now }
{
    if has_many_nodes(schema) {
        return Some(BlockFault::Limit(LimitKind::Nodes));
    }
    if are_deeper(&schema.body, DEEPEST) {
        return Some(BlockFault::Limit(LimitKind::Depth));
    }
    if schema.syncs.len() > MOST_SYNCS {
        return Some(BlockFault::Limit(LimitKind::Syncs));
    }
    if schema.elements.len() > MOST_ELEMENTS {
        return Some(BlockFault::Limit(LimitKind::Elements));
    }
    rows_limit(&schema.reads, &schema.writes)
}

// Whether a schema has more nodes than the limit. The tree is left where they are too many.
fn has_many_nodes(schema: &Schema) -> bool
    ensures { result ≡ nat_lt 1024 (length (cards_of schema.now)) }
{
    room_behind(&schema.body, MOST_NODES - OUTER_NODES).is_none()
}

// What is left of the room for nodes behind these items, if that is enough for them.
#[cycle(room)]
fn room_behind(items: &[Block], room: u32) -> Option<u32>
    ensures { result ≡ room_behind (parts_size (parts_of items.now)) room }
{
    let mut left = room;
    for i in 0..items.len() {
        match room_behind_block(&items[i], left) {
            None => return None,
            Some(less) => left = less,
        }
    }
    Some(left)
}

#[cycle(room)]
fn room_behind_block(block: &Block, room: u32) -> Option<u32>
    ensures { result ≡ room_behind (part_size (part_of block.now)) room }
{
    match block {
        Block::Act(_) => room_for(1, Some(room)),
        Block::And { branches, .. } => room_for(2, room_behind_branches(branches, room)),
        Block::Xor { branches, .. } => room_for(2, room_behind_branches(branches, room)),
        Block::Loop { body, .. } => room_for(2, room_behind(body, room)),
    }
}

#[cycle(room)]
fn room_behind_branches(branches: &[Branch], room: u32) -> Option<u32>
    ensures { result ≡ room_behind (lanes_size (lanes (lanes_of branches.now))) room }
{
    let mut left = room;
    for i in 0..branches.len() {
        match room_behind(&branches[i].items, left) {
            None => return None,
            Some(less) => left = less,
        }
    }
    Some(left)
}

// What is left of the room, if there is any, behind so many nodes.
fn room_for(nodes: u32, room: Option<u32>) -> Option<u32>
    ensures { result ≡ option_and_then (λ r. room_behind nodes r) room }
{
    match room {
        None => None,
        Some(room) => room.checked_sub(nodes),
    }
}

// The same of the rows of each node.
fn rows_limit(reads: &Reads, writes: &WriteEdges) -> Option<BlockFault>
    ensures { result ≡ option_or (when (too_many (map (λ r. r.0) reads.now)) (Limit limit.Reads)) (when (too_many (map (λ w. w.0) writes.now)) (Limit limit.Writes)) }
{
    if has_many(reads) {
        return Some(BlockFault::Limit(LimitKind::Reads));
    }
    if has_many(writes) {
        return Some(BlockFault::Limit(LimitKind::Writes));
    }
    None
}

// Whether a node has more rows than the limit. Each node is asked once, at its first row.
fn has_many<K: Keys>(table: &Table<K>) -> bool
    ensures { result ≡ too_many (map (λ r. (K.key_of r).0) table.now) }
{
    let rows = table.as_slice();
    for i in 0..rows.len() {
        let node = K::key(&rows[i]).0;
        if !follows_own::<K>(rows, i, node) && table.rows_of(node).len() > MOST_ROWS {
            return true;
        }
    }
    false
}

// Whether the row before a place is the node's.
fn follows_own<K: Keys>(rows: &[K::Row], place: usize, node: u32) -> bool
    requires { place ≤ length rows.now }
    ensures { IsTrue result → list_any (λ r. (K.key_of r).0 == node) (take place rows.now) ≡ true }
{
    place > 0 && K::key(&rows[place - 1]).0 == node
}

// Whether blocks stand in one another more than `depth` deep. A deeper one is not looked into.
#[cycle(depth)]
fn are_deeper(items: &[Block], depth: u32) -> bool
    ensures { result ≡ nat_lt depth (parts_depth (parts_of items.now)) }
{
    for i in 0..items.len() {
        if is_deeper(&items[i], depth) {
            return true;
        }
    }
    false
}

#[cycle(depth)]
fn is_deeper(block: &Block, depth: u32) -> bool
    ensures { result ≡ nat_lt depth (part_depth (part_of block.now)) }
{
    match block {
        Block::Act(_) => false,
        Block::And { branches, .. } => depth == 0 || have_deeper(branches, depth - 1),
        Block::Xor { branches, .. } => depth == 0 || have_deeper(branches, depth - 1),
        Block::Loop { body, .. } => depth == 0 || are_deeper(body, depth - 1),
    }
}

#[cycle(depth)]
fn have_deeper(branches: &[Branch], depth: u32) -> bool
    ensures { result ≡ nat_lt depth (lanes_depth (lanes (lanes_of branches.now))) }
{
    for i in 0..branches.len() {
        if are_deeper(&branches[i].items, depth) {
            return true;
        }
    }
    false
}
