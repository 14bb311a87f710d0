// The longest front of the sync edges that has an order, by a binary search.
ghost use Rattle.std.specs.{Prelude.{◌≡◌, ◌≤◌, IfOk, IfSome, IsTrue, length, take, nat_lt, ◌&&◌}, List.list_all};
ghost use Rattle.wsm_schema.specs.{Sound.{nodes_of, control_edges}, Trail.is_one_of};
ghost use Rattle.wsm_block.specs.{Heights.height_in, Order.{IsOrder, SameNodes, onto_seen}};

use crate::heights::{Heights, number_twice};
use crate::sorting::sorted;
use std::alloc::Global;
use wsm_schema::{Card, Flat, NoMemory};

// So many sync edges, and an order with them.
#[derive(Drop)]
pub struct Front {
    pub count: usize,
    pub nodes: Vec<u32>,
}

// All sync edges, where an order is found for them, else a front for which one is found and behind which one more is not:
// with a right search, that one closes a cycle. No more is promised than that the order is one.
pub fn longest_front(
    alloc: Global,
    flat: &Flat,
    nodes: Vec<u32>,
    control: &[(u32, u32)],
    syncs: &[(u32, u32)],
) -> Result<Front, NoMemory>
    requires order { IsOrder control.now nodes.items }
    requires nodes { nodes.items ≡ nodes_of flat.now.cards }
    ensures count { IfOk result (λ front. front.count ≤ length syncs.now) }
    ensures order { IfOk result (λ front. IsOrder (onto_seen (take front.count syncs.now) control.now) front.nodes.items) }
    ensures same { IfOk result (λ front. SameNodes front.nodes.items (nodes_of flat.now.cards)) }
{
    let mut front = Front { count: 0, nodes };
    let mut cyclic = syncs.len() + 1;
    let mut next = syncs.len();
    'halves: while front.count < next {
        match order_with(alloc, flat, control, &syncs[..next])? {
            Some(nodes) => front = Front { count: next, nodes },
            None => cyclic = next,
        }
        next = front.count + (cyclic - front.count) / 2;
    }
    Ok(front)
}

// An order with these sync edges too, where one is found.
fn order_with(
    alloc: Global,
    flat: &Flat,
    control: &[(u32, u32)],
    front: &[(u32, u32)],
) -> Result<Option<Vec<u32>>, NoMemory>
    ensures order { IfOk result (λ r. IfSome r (λ new. IsOrder (onto_seen front.now control.now) new.items)) }
    ensures same { IfOk result (λ r. IfSome r (λ new. SameNodes new.items (nodes_of flat.now.cards))) }
{
    let order = Heights::of(alloc, sorted(alloc, flat, control, front)?)?;
    if has_same(&order, flat) && is_upward(&order, control, front) {
        return Ok(Some(order.into_vec()));
    }
    Ok(None)
}

// Whether these are found to be as many numbers as there are cards, and the same as their nodes.
fn has_same(order: &Heights, flat: &Flat) -> bool
    ensures { IsTrue result → SameNodes order.now (nodes_of flat.now.cards) }
{
    if order.numbers().len() != flat.cards().len() {
        return false;
    }
    are_nodes(order.numbers(), flat) && has_nodes(order, flat.cards())
}

// Whether all these numbers are nodes.
fn are_nodes(numbers: &[u32], flat: &Flat) -> bool
    ensures { result ≡ list_all (λ n. is_one_of n (nodes_of flat.now.cards)) numbers.now }
{
    numbers.iter().all(|number| is_node(flat, *number))
}

fn is_node(flat: &Flat, number: u32) -> bool
    ensures { result ≡ is_one_of number (nodes_of flat.now.cards) }
{
    flat.place(number).is_some()
}

// Whether all nodes are there.
fn has_nodes(order: &Heights, cards: &[Card]) -> bool
    ensures { result ≡ list_all (λ c. is_one_of c.node order.now) cards.now }
{
    cards.iter().all(|card| order.has(card.node))
}

// Whether each number stands once, and each edge is found to lead upwards.
fn is_upward(order: &Heights, control: &[(u32, u32)], front: &[(u32, u32)]) -> bool
    ensures { IsTrue result → IsOrder (onto_seen front.now control.now) order.now }
{
    if number_twice(order).is_some() {
        return false;
    }
    go_up(control, order) && go_up(front, order)
}

// Whether each edge leads upwards, to a number that is there.
fn go_up(edges: &[(u32, u32)], order: &Heights) -> bool
    ensures { result ≡ list_all (λ e. nat_lt (height_in order.now e.0) (height_in order.now e.1) && is_one_of e.1 order.now) edges.now }
{
    edges.iter().all(|edge| order.height(edge.0) < order.height(edge.1) && order.has(edge.1))
}
