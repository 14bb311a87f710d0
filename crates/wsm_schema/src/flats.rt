// The flat form of a schema: a card for each node, in document order.
ghost use Rattle.std.specs.{Prelude.{◌≡◌, ℕ, [], ◌∷◌, ◌++◌, true, Some, IfOk, IfSome, OnOk, map, option_map, slice_get, ◌==◌}, List.position_from, Option.option_copied};
ghost use Rattle.wsm_schema.specs.{TreeOf.{part_of, parts_of, lanes_of}, Tree.lanes, Places.{part_places, parts_places, lanes_places}, Groups.{SameGroups, numbered, rows_with}, CardPlaces.EachFirst, Flat.{card_of, flat_of, cards_of}};
ghost use Rattle.wsm_schema.specs.Flat.{card_at, kind_in, loop_nodes, loop_start, up_to_node, from_node};

use crate::blocks::{Block, Branch, first_node, nodes_in};
use crate::card_lists::Lists;
use crate::cards::{Card, End, NodeKind};
use crate::groups::Groups;
use crate::places::{
    Place, activity_place, finish_place, join_place, loop_end_place, loop_start_place, split_place,
    start_place,
};
use crate::ranks::Rank;
use crate::schemas::Schema;
use std::alloc::Global;
use std::marker::Model;
use std::sync::Arc;
use wsm_lists::{ElementKind, Elements, NoMemory, Nodes};

/// The cards of a schema's nodes in document order, and its elements.
#[derive(Drop)]
pub struct Flat {
    cards: Vec<Card>,
    index: Arc<Groups<u32>>,
    // Whether each card is known to be the first of its node.
    apart: bool,
    elements: Elements,
}

impl Model for Flat {
    ghost use Rattle.wsm_schema.specs.Flat.{FlatModel};

    ghost Value = { FlatModel };

    ghost use Rattle.wsm_schema.specs.CardPlaces.{IsIndexed};

    ghost view = { λ a. record { cards = a.cards.items; elements = a.elements } };

    ghost invariant = { λ a. IsIndexed a.cards.items a.index.value a.apart };
}

impl Flat {
    /// The flat form of the schema.
    pub fn of(alloc: Global, schema: &Schema) -> Result<Flat, NoMemory>
        ensures { IfOk result (λ flat. flat ≡ flat_of schema.now) }
    {
        let elements = schema.elements.copy(alloc)?;
        let cards = all_cards(alloc, schema)?;
        let index = Groups::of(numbered(alloc, &cards)?)?;
        let apart = are_apart(&cards, &index);
        Ok(Flat {
            cards,
            index: Arc::new(alloc, index)?,
            apart,
            elements,
        })
    }

    /// All cards, in document order.
    pub fn cards(&self) -> &[Card]
        ensures { result.now ≡ self.now.cards }
    {
        &self.cards
    }

    /// The place of the node's first card in document order, by a binary search.
    pub fn place(&self, node: u32) -> Option<usize>
        ensures { result ≡ position_from (λ c. c.node == node) 0 self.now.cards }
    {
        place_in(&self.index, node)
    }

    /// The nodes in document order, as a rank: whoever asks for it knows that they are one. The places of nodes are those of
    /// their cards, which the rank shares with the flat form.
    pub fn document_rank(&self, alloc: Global) -> Result<Rank, NoMemory>
        ensures { IfOk result (λ rank. rank ≡ map (λ c. c.node) self.now.cards) }
    {
        let index = Arc::try_clone(&self.index)?;
        let nodes = nodes_of(alloc, &self.cards)?;
        Ok(Rank::with_places(nodes, index))
    }

    /// The first card of the node.
    pub fn card(&self, node: u32) -> Option<&Card>
        ensures { option_copied result ≡ card_at node self.now.cards }
    {
        match self.place(node) {
            Some(place) => card_in(&self.cards, place),
            None => None,
        }
    }

    /// The first card of the node, as `card` gives it. It is looked for at two places before any other, for who goes along the
    /// cards of two schemas of which one was made of the other.
    pub fn card_near(&self, node: u32, one: usize, other: usize) -> Option<&Card>
        ensures { option_copied result ≡ card_at node self.now.cards }
    {
        match self.card_there(node, one) {
            Some(card) => Some(card),
            None => match self.card_there(node, other) {
                Some(card) => Some(card),
                None => self.card(node),
            },
        }
    }

    // The card at a place, where it is known to be the first of the node.
    fn card_there(&self, node: u32, place: usize) -> Option<&Card>
        ensures { IfSome result (λ card. card_at node self.now.cards ≡ Some card.now) }
    {
        let card = card_in(&self.cards, place)?;
        if self.apart && card.node == node {
            Some(card)
        } else {
            None
        }
    }

    /// The kind of the element, where it is listed.
    pub fn kind(&self, element: u32) -> Option<ElementKind>
        ensures { result ≡ kind_in element self.now.elements }
    {
        match self.elements.find((element, 0)) {
            Some(row) => Some(row.1),
            None => None,
        }
    }

    /// The nodes of the loop that ends there, both ends included, in document order. Empty where no loop ends there.
    pub fn loop_body(&self, alloc: Global, end: u32) -> Result<Nodes, NoMemory>
        ensures { IfOk result (λ nodes. nodes ≡ loop_nodes self.now.cards end) }
    {
        match self.loop_start(end) {
            None => Ok(Nodes::new(alloc)),
            Some(start) => Ok(Nodes::from_vec(nodes_up_to(alloc, self.cards_from(start), end)?)),
        }
    }

    // The cards from the node's first one on, in document order.
    fn cards_from(&self, node: u32) -> &[Card]
        ensures { map (λ c. c.node) result.now ≡ from_node node (map (λ c. c.node) self.now.cards) }
    {
        match self.place(node) {
            None => &[],
            Some(place) => &self.cards[place..],
        }
    }

    // The start of the loop that ends there.
    fn loop_start(&self, end: u32) -> Option<u32>
        ensures { result ≡ loop_start (card_at end self.now.cards) }
    {
        match self.card(end) {
            Some(card) => {
                if card.kind == NodeKind::LoopEnd {
                    card.partner
                } else {
                    None
                }
            }
            None => None,
        }
    }
}

// The place of the node's first card, by the places of all cards.
fn place_in(index: &Groups<u32>, node: u32) -> Option<usize>
    ensures { result ≡ option_map (λ (row : ℕ × ℕ). row.1) (slice_get (rows_with node index.now) 0) }
{
    match index.first_with(node) {
        Some(row) => Some(row.1 as usize),
        None => None,
    }
}

// Whether each card is the first of its node, by the places of all cards.
fn are_apart(cards: &[Card], index: &Groups<u32>) -> bool
    requires { SameGroups (numbered 0 cards.now) index.now }
    ensures { result ≡ true → EachFirst cards.now }
{
    for (place, card) in cards.iter().enumerate() {
        if place_in(index, card.node) != Some(place) {
            return false;
        }
    }
    true
}

// The card at a place.
fn card_in(cards: &[Card], place: usize) -> Option<&Card>
    ensures { option_copied result ≡ slice_get cards.now place }
{
    cards.get(place)
}

// The nodes of the cards.
fn nodes_of(alloc: Global, cards: &[Card]) -> Result<Vec<u32>, NoMemory>
    ensures { IfOk result (λ nodes. nodes.items ≡ map (λ c. c.node) cards.now) }
{
    let mut nodes = Vec::with_capacity(alloc, cards.len())?;
    for card in cards {
        nodes.push(card.node)?;
    }
    Ok(nodes)
}

// The nodes of the cards, each with the card's place. So many cards that their places do not fit would not fit into memory.
fn numbered(alloc: Global, cards: &[Card]) -> Result<Vec<(u32, u32)>, NoMemory>
    ensures { IfOk result (λ new. new.items ≡ numbered 0 cards.now) }
{
    if cards.len() > u32::MAX as usize {
        return Err(NoMemory);
    }
    let mut all = Vec::with_capacity(alloc, cards.len())?;
    for (place, card) in cards.iter().enumerate() {
        all.push((card.node, place as u32))?;
    }
    Ok(all)
}

// The nodes of the cards up to the first `end`.
fn nodes_up_to(alloc: Global, cards: &[Card], end: u32) -> Result<Vec<u32>, NoMemory>
    ensures { IfOk result (λ new. new.items ≡ up_to_node end (map (λ c. c.node) cards.now)) }
{
    let mut all = Vec::with_capacity(alloc, count_up_to(cards, end))?;
    for c in cards {
        all.push(c.node)?;
        if c.node == end {
            return Ok(all);
        }
    }
    Ok(all)
}

// How many cards stand up to the first of the node.
fn count_up_to(cards: &[Card], node: u32) -> usize {
    match cards.iter().position(|card| card.node == node) {
        None => cards.len(),
        Some(place) => place + 1,
    }
}

// The cards of all nodes.
fn all_cards(alloc: Global, schema: &Schema) -> Result<Vec<Card>, NoMemory>
    ensures { IfOk result (λ all. all.items ≡ cards_of schema.now) }
{
    let lists = Lists::of(alloc, schema)?;
    cards_by(alloc, schema, &lists)
}

// The cards, by the lists of the same schema.
fn cards_by(alloc: Global, schema: &Schema, lists: &Lists) -> Result<Vec<Card>, NoMemory>
    requires { lists.now ≡ schema.now }
    ensures { IfOk result (λ all. all.items ≡ cards_of schema.now) }
{
    let mut all = Vec::with_capacity(alloc, nodes_in(&schema.body).saturating_add(2))?;
    let start = start_place(schema.start, &schema.body, schema.finish);
    put(alloc, &mut all, lists, start)?;
    let from = End::plain(schema.start);
    put_items(alloc, &mut all, lists, &schema.body, from, schema.finish)?;
    let finish = finish_place(schema.start, &schema.body, schema.finish);
    put(alloc, &mut all, lists, finish)?;
    Ok(all)
}

// One more card.
fn put(alloc: Global, all: &mut Vec<Card>, lists: &Lists, place: Place) -> Result<(), NoMemory>
    ensures { OnOk result (all.new.items ≡ all.old.items ++ card_of lists.now place ∷ []) }
{
    all.push(lists.card(alloc, place)?)?;
    Ok(())
}

// The cards of items, which the edge from `from` enters and which one to `to` leaves.
#[cycle(flatten)]
fn put_items(
    alloc: Global,
    all: &mut Vec<Card>,
    lists: &Lists,
    items: &[Block],
    from: End,
    to: u32,
) -> Result<(), NoMemory>
    ensures { OnOk result (all.new.items ≡ all.old.items ++ map (card_of lists.now) (parts_places (parts_of items.now) from to)) }
{
    let mut last = from;
    for i in 0..items.len() {
        let next = first_node(&items[i + 1..], to);
        put_block(alloc, all, lists, &items[i], last, next)?;
        last = End::plain(items[i].last());
    }
    Ok(())
}

// The cards of a block with branches.
#[cycle(flatten)]
fn put_gate(
    alloc: Global,
    all: &mut Vec<Card>,
    lists: &Lists,
    opening: Place,
    branches: &[Branch],
    closing: Place,
) -> Result<(), NoMemory>
    ensures { OnOk result (all.new.items ≡ all.old.items ++ map (card_of lists.now) (opening ∷ (lanes_places (lanes (lanes_of branches.now)) opening.node closing.node ++ closing ∷ []))) }
{
    let split = opening.node;
    put(alloc, all, lists, opening)?;
    for i in 0..branches.len() {
        let from = End::labelled(split, branches[i].code);
        put_items(alloc, all, lists, &branches[i].items, from, closing.node)?;
    }
    put(alloc, all, lists, closing)
}

// The cards of a block.
#[cycle(flatten)]
fn put_block(
    alloc: Global,
    all: &mut Vec<Card>,
    lists: &Lists,
    block: &Block,
    from: End,
    to: u32,
) -> Result<(), NoMemory>
    ensures { OnOk result (all.new.items ≡ all.old.items ++ map (card_of lists.now) (part_places (part_of block.now) from to)) }
{
    match block {
        Block::Act(node) => {
            let activity = activity_place(*node, from, to);
            put(alloc, all, lists, activity)
        }
        Block::And {
            split,
            join,
            branches,
        } => {
            let opening = split_place(alloc, NodeKind::AndSplit, *split, *join, branches, from)?;
            let closing = join_place(alloc, NodeKind::AndJoin, *split, *join, branches, to)?;
            put_gate(alloc, all, lists, opening, branches, closing)
        }
        Block::Xor {
            split,
            join,
            branches,
        } => {
            let opening = split_place(alloc, NodeKind::XorSplit, *split, *join, branches, from)?;
            let closing = join_place(alloc, NodeKind::XorJoin, *split, *join, branches, to)?;
            put_gate(alloc, all, lists, opening, branches, closing)
        }
        Block::Loop { start, end, body } => {
            let opening = loop_start_place(*start, *end, body, from);
            put(alloc, all, lists, opening)?;
            put_items(alloc, all, lists, body, End::plain(*start), *end)?;
            let closing = loop_end_place(*start, *end, body, to);
            put(alloc, all, lists, closing)
        }
    }
}
