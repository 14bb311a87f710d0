// What speaks against an operation.
ghost use Rattle.std.specs.Prelude.{◌≡◌, ◌||◌, ◌&&◌, is_some};
ghost use Rattle.wsm_schema.specs.{Kinds.is_activity, Sound.when, Flat.{cards_of, card_at}};
ghost use Rattle.wsm_ops.specs.{Refusals.{unless_activity, unless_worked_on, move_refusal, sync_refusal, one_taken, takes_behind, is_split, has_code, gap_refusal, wrong_unless, begins_item, ends_item, item_refusal}, Apply.refusal};
ghost use Rattle.wsm_ops.specs.declared.faults.OpWhy.TheVariants.{NodeThere};

use crate::drafts::Draft;
use crate::faults::OpWhy;
use crate::operations::{Gap, Op};
use wsm_rules::is_worked_on;
use wsm_schema::NodeKind;

/// The first thing that speaks against the operation, if anything does.
pub fn refusal(draft: &Draft, op: &Op) -> Option<OpWhy>
    ensures { result ≡ refusal draft.now op.now }
{
    match *op {
        Op::InsertSerial { node, gap, .. } => {
            taken(draft, node, false).or(gap_refusal(draft, gap))
        }
        Op::InsertParallel {
            node,
            split,
            join,
            first,
            last,
            ..
        } => one_taken(draft, node, split, join).or(item_refusal(draft, first, last)),
        Op::InsertConditional {
            node,
            split,
            join,
            gap,
            ..
        } => one_taken(draft, node, split, join).or(gap_refusal(draft, gap)),
        Op::DeleteActivity { node } => unless_activity(draft, node),
        Op::MoveActivity { node, gap } => move_refusal(draft, node, gap),
        Op::InsertSync { source, target } => sync_refusal(draft, source, target),
        Op::DeleteSync { source, target } => {
            when(!draft.syncs.has((source, target)), OpWhy::NoSync)
        }
        Op::AddElement { element, .. } => {
            when(draft.elements.has((element, 0)), OpWhy::ElementThere)
        }
        Op::AddRead { node, element, .. } => {
            let there = draft.reads.has((node, element));
            unless_worked_on(draft, node).or(when(there, OpWhy::EdgeThere))
        }
        Op::RemoveRead { node, element } => {
            when(!draft.reads.has((node, element)), OpWhy::NoEdge)
        }
        Op::AddWrite { node, element } => {
            let there = draft.writes.has((node, element));
            unless_worked_on(draft, node).or(when(there, OpWhy::EdgeThere))
        }
        Op::RemoveWrite { node, element } => {
            when(!draft.writes.has((node, element)), OpWhy::NoEdge)
        }
        Op::SetRole { node, .. } => unless_worked_on(draft, node),
    }
}

// A move, of which the node is an activity and not the gap's own.
fn move_refusal(draft: &Draft, node: u32, gap: Gap) -> Option<OpWhy>
    ensures { result ≡ move_refusal (cards_of draft.now) node gap }
{
    let own = when(gap.is_behind(node), OpWhy::SelfTarget(node));
    unless_activity(draft, node)
        .or(own)
        .or(gap_refusal(draft, gap))
}

// A new sync edge, whose ends are activities.
fn sync_refusal(draft: &Draft, source: u32, target: u32) -> Option<OpWhy>
    ensures { result ≡ sync_refusal (cards_of draft.now) draft.now.syncs source target }
{
    let there = when(draft.syncs.has((source, target)), OpWhy::SyncThere);
    unless_activity(draft, source)
        .or(unless_activity(draft, target))
        .or(there)
}

// The reason, where a test holds.
fn when(test: bool, why: OpWhy) -> Option<OpWhy>
    ensures { result ≡ when test why }
{
    if test { Some(why) } else { None }
}

// A node that must be an activity.
fn unless_activity(draft: &Draft, node: u32) -> Option<OpWhy>
    ensures { result ≡ unless_activity (cards_of draft.now) node }
{
    match draft.seat(node) {
        None => Some(OpWhy::NoNode(node)),
        Some(seat) => when(!is_activity(seat.kind), OpWhy::WrongKind(node)),
    }
}

// A node that an actor must start and end.
fn unless_worked_on(draft: &Draft, node: u32) -> Option<OpWhy>
    ensures { result ≡ unless_worked_on (cards_of draft.now) node }
{
    match draft.seat(node) {
        None => Some(OpWhy::NoNode(node)),
        Some(seat) => when(!is_worked_on(seat.kind), OpWhy::WrongKind(node)),
    }
}

// A new node, where `again` says whether an earlier one of the same operation has its number.
fn taken(draft: &Draft, node: u32, again: bool) -> Option<OpWhy>
    ensures { result ≡ when (is_some (card_at node (cards_of draft.now)) || again) (NodeThere node) }
{
    when(draft.seat(node).is_some() || again, OpWhy::NodeThere(node))
}

// The three new nodes of a block.
fn one_taken(draft: &Draft, node: u32, split: u32, join: u32) -> Option<OpWhy>
    ensures { result ≡ one_taken (cards_of draft.now) node split join }
{
    taken(draft, node, false)
        .or(taken(draft, split, node == split))
        .or(taken(draft, join, node == join || split == join))
}

// A gap.
fn gap_refusal(draft: &Draft, gap: Gap) -> Option<OpWhy>
    ensures { result ≡ gap_refusal (cards_of draft.now) gap }
{
    match gap {
        Gap::After(node) => after_refusal(draft, node),
        Gap::Head(split, code) => head_refusal(draft, split, code),
    }
}

// A node behind which something is to stand.
fn after_refusal(draft: &Draft, node: u32) -> Option<OpWhy>
    ensures { result ≡ wrong_unless (λ c. takes_behind c.kind) (cards_of draft.now) node }
{
    match draft.seat(node) {
        None => Some(OpWhy::NoNode(node)),
        Some(seat) => when(!takes_behind(seat.kind), OpWhy::WrongKind(node)),
    }
}

// A split in whose branch something is to stand.
fn head_refusal(draft: &Draft, split: u32, code: u16) -> Option<OpWhy>
    ensures { result ≡ wrong_unless (λ c. is_split c.kind && has_code code c.outs) (cards_of draft.now) split }
{
    match draft.seat(split) {
        None => Some(OpWhy::NoNode(split)),
        Some(_) => when(!draft.has_branch(split, code), OpWhy::WrongKind(split)),
    }
}

fn is_activity(kind: NodeKind) -> bool
    ensures { result ≡ is_activity kind }
{
    kind == NodeKind::Activity
}

fn is_split(kind: NodeKind) -> bool
    ensures { result ≡ is_split kind }
{
    kind == NodeKind::AndSplit || kind == NodeKind::XorSplit
}

fn takes_behind(kind: NodeKind) -> bool
    ensures { result ≡ takes_behind kind }
{
    kind != NodeKind::Finish && !is_split(kind)
}

fn begins_item(kind: NodeKind) -> bool
    ensures { result ≡ begins_item kind }
{
    kind == NodeKind::Activity || kind == NodeKind::LoopStart || is_split(kind)
}

// An item, by its first and its last node.
fn item_refusal(draft: &Draft, first: u32, last: u32) -> Option<OpWhy>
    ensures { result ≡ item_refusal (cards_of draft.now) first last }
{
    match draft.seat(first) {
        None => Some(OpWhy::NoNode(first)),
        Some(seat) => {
            let wrong = when(!begins_item(seat.kind), OpWhy::WrongKind(first));
            wrong.or(last_refusal(draft, seat.ends_with(first, last), last))
        }
    }
}

// The last node of an item, where `fits` says whether the item ends with it.
fn last_refusal(draft: &Draft, fits: bool, last: u32) -> Option<OpWhy>
    ensures { result ≡ wrong_unless (λ _. fits) (cards_of draft.now) last }
{
    match draft.seat(last) {
        None => Some(OpWhy::NoNode(last)),
        Some(_) => when(!fits, OpWhy::WrongKind(last)),
    }
}
