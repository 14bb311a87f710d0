// How a case ended.
ghost use Rattle.std.specs.Prelude.{◌≡◌, ℕ, ◌++◌, flat_map, codes};
ghost use Rattle.adept_io.specs.Written.{Gives};
ghost use Rattle.wsm_items.specs.declared.work_items.Item.TheVariants as item;
ghost use Rattle.case_core.specs.Shown.{is_finished};
ghost use Rattle.report_text.specs.Ends.{end_text, item_text, items_line, live_text, mark_text, marking_line, progress, state_line, value_now_text, values_line};
ghost use Rattle.wsm_schema.specs.Flat.{cards_of};

use adept_io::{Sink, put, put_pieces};
use case_core::{Item, LiveCase};
use file_model::File;
use itoa::Buffer;
use report_words::{caller_word, letter, put_assigned, put_node, role_word};
use wsm_schema::{Card, ElementKind, State};

/// The lines that say how a case ended: one where it was not created, and else four.
pub fn put_end<K: Sink>(sink: &mut K, ok: bool, file: &File, live: Option<LiveCase<'_>>) -> bool
    ensures { Gives K.written K.faults ok result sink.old sink.new (end_text file.now live.entry) }
{
    match live {
        None => put(sink, ok, b"state none\n"),
        Some(live) => put_live(sink, ok, file, &live),
    }
}

fn put_live<K: Sink>(sink: &mut K, ok: bool, file: &File, live: &LiveCase<'_>) -> bool
    ensures { Gives K.written K.faults ok result sink.old sink.new (live_text file.now live.now) }
{
    let ok = put_state_line(sink, ok, live);
    let ok = put_marking_line(sink, ok, file, live);
    let ok = put_values_line(sink, ok, file, live);
    put_items_line(sink, ok, file, live)
}

fn put_state_line<K: Sink>(sink: &mut K, ok: bool, live: &LiveCase<'_>) -> bool
    ensures { Gives K.written K.faults ok result sink.old sink.new (state_line live.now) }
{
    let mut number = Buffer::new();
    let mut own = Buffer::new();
    put_pieces(
        sink,
        ok,
        &[
            b"state ",
            number.format(live.base().number()).as_bytes(),
            progress(live.is_finished()),
            b" own=",
            own.format(live.own().len()).as_bytes(),
            b"\n",
        ],
    )
}

fn progress(finished: bool) -> &'static [u8]
    ensures { result.now ≡ progress finished }
{
    if finished { b" finished" } else { b" running" }
}

fn put_marking_line<K: Sink>(sink: &mut K, ok: bool, file: &File, live: &LiveCase<'_>) -> bool
    ensures { Gives K.written K.faults ok result sink.old sink.new (marking_line file.now live.now) }
{
    let ok = put(sink, ok, b"marking");
    let ok = put_marks(sink, ok, file, live, live.checked().flat().cards());
    put(sink, ok, b"\n")
}

fn put_marks<K: Sink>(
    sink: &mut K,
    ok: bool,
    file: &File,
    live: &LiveCase<'_>,
    cards: &[Card],
) -> bool
    ensures { Gives K.written K.faults ok result sink.old sink.new (flat_map (mark_text file.now live.now) cards.now) }
{
    let mut well = ok;
    for card in cards {
        well = put_mark(sink, well, file, live, card);
    }
    well
}

#[tactic(auto, using(adept_io::proofs::Sent::gives_then))]
fn put_mark<K: Sink>(sink: &mut K, ok: bool, file: &File, live: &LiveCase<'_>, card: &Card) -> bool
    ensures { Gives K.written K.faults ok result sink.old sink.new (mark_text file.now live.now card.now) }
{
    let ok = put_node(sink, ok, file, card.node, b"=");
    put(sink, ok, letter(live.state(card.node)))
}

fn put_values_line<K: Sink>(sink: &mut K, ok: bool, file: &File, live: &LiveCase<'_>) -> bool
    ensures { Gives K.written K.faults ok result sink.old sink.new (values_line file.now live.now) }
{
    let ok = put(sink, ok, b"values");
    let elements = live.checked().schema().elements.as_slice();
    let ok = put_values(sink, ok, file, live, elements);
    put(sink, ok, b"\n")
}

fn put_values<K: Sink>(
    sink: &mut K,
    ok: bool,
    file: &File,
    live: &LiveCase<'_>,
    elements: &[(u32, ElementKind)],
) -> bool
    ensures { Gives K.written K.faults ok result sink.old sink.new (flat_map (value_now_text file.now live.now) elements.now) }
{
    let mut well = ok;
    for element in elements {
        well = put_value_now(sink, well, file, live, element);
    }
    well
}

#[tactic(auto, using(adept_io::proofs::Sent::gives_nothing))]
fn put_value_now<K: Sink>(
    sink: &mut K,
    ok: bool,
    file: &File,
    live: &LiveCase<'_>,
    element: &(u32, ElementKind),
) -> bool
    ensures { Gives K.written K.faults ok result sink.old sink.new (value_now_text file.now live.now element.now) }
{
    match live.value(element.0) {
        None => ok,
        Some(value) => put_assigned(sink, ok, file, element.0, value),
    }
}

fn put_items_line<K: Sink>(sink: &mut K, ok: bool, file: &File, live: &LiveCase<'_>) -> bool
    ensures { Gives K.written K.faults ok result sink.old sink.new (items_line file.now live.now) }
{
    let ok = put(sink, ok, b"items");
    let ok = put_items(sink, ok, file, live.items().as_slice());
    put(sink, ok, b"\n")
}

fn put_items<K: Sink>(sink: &mut K, ok: bool, file: &File, items: &[(u32, Item)]) -> bool
    ensures { Gives K.written K.faults ok result sink.old sink.new (flat_map (λ r. item_text file.now r.1) items.now) }
{
    let mut well = ok;
    for row in items {
        well = put_item(sink, well, file, row.1);
    }
    well
}

/// A work item, behind a space.
pub fn put_item<K: Sink>(sink: &mut K, ok: bool, file: &File, item: Item) -> bool
    ensures { Gives K.written K.faults ok result sink.old sink.new (item_text file.now item) }
{
    match item {
        Item::Offered { node, role } => put_offered(sink, ok, file, node, role),
        Item::Held { node, user } => put_held(sink, ok, file, node, user),
    }
}

#[tactic(auto, using(adept_io::proofs::Sent::gives_then))]
fn put_offered<K: Sink>(sink: &mut K, ok: bool, file: &File, node: u32, role: u32) -> bool
    ensures { Gives K.written K.faults ok result sink.old sink.new (item_text file.now (item.Offered node role)) }
{
    let mut buffer = Buffer::new();
    let ok = put_node(sink, ok, file, node, b"@");
    put(sink, ok, role_word(file, role, &mut buffer))
}

#[tactic(auto, using(adept_io::proofs::Sent::gives_then))]
fn put_held<K: Sink>(sink: &mut K, ok: bool, file: &File, node: u32, user: u32) -> bool
    ensures { Gives K.written K.faults ok result sink.old sink.new (item_text file.now (item.Held node user)) }
{
    let mut buffer = Buffer::new();
    let ok = put_node(sink, ok, file, node, b":");
    put(sink, ok, caller_word(file, user, &mut buffer))
}
