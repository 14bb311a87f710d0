// The items of cases.
ghost use Rattle.std.specs.Prelude.{◌≡◌, flat_map, None, Some};
ghost use Rattle.adept_io.specs.Written.{Gives};
ghost use Rattle.case_core.specs.{CaseModel.CaseModel, Kept.KeptIn};
ghost use Rattle.report_text.specs.Report.{side_by_side};
ghost use Rattle.talk_answers.specs.{Offers.{HoldsEnds, IsPromised, OffersStarts}, Standings.{case_items, concerns, has_role, item_line, item_lines, items, line_if_concerned}};

use adept_io::{Sink, put};
use case_core::{Item, LiveCase};
use file_model::{CaseDecl, File};
use line_calls::roles_of;
use report_text::{ClosedCase, put_item};
use unit_run::UnitRun;

/// The items of each case.
pub fn put_all_items<K: Sink>(sink: &mut K, ok: bool, file: &File, run: &UnitRun) -> bool
    ensures lines { Gives K.written K.faults ok result sink.old sink.new (items file.now None run.now) }

    // A case is never stuck, and what is offered there has its values.
    ensures promised { (s : CaseModel) → KeptIn s.live → IsPromised s }
{
    put_items(sink, ok, file, None, file.cases.as_slice(), run.cases())
}

/// The items of each case that are offered to an actor or held by it.
pub fn put_items_for<K: Sink>(
    sink: &mut K,
    ok: bool,
    file: &File,
    run: &UnitRun,
    actor: u32,
) -> bool
    ensures lines { Gives K.written K.faults ok result sink.old sink.new (items file.now (Some actor) run.now) }

    // The actor may start exactly the nodes that it is offered, and end exactly those that it holds.
    ensures starts { (s : CaseModel) → KeptIn s.live → OffersStarts file.now actor s }
    ensures ends { (s : CaseModel) → KeptIn s.live → HoldsEnds actor s }
{
    put_items(
        sink,
        ok,
        file,
        Some(actor),
        file.cases.as_slice(),
        run.cases(),
    )
}

// The items of cases that are offered to an actor or held by it; where no actor is asked for, all.
fn put_items<K: Sink>(
    sink: &mut K,
    ok: bool,
    file: &File,
    actor: Option<u32>,
    decls: &[CaseDecl],
    cases: &[ClosedCase],
) -> bool
    ensures { Gives K.written K.faults ok result sink.old sink.new (side_by_side (case_items file.now actor) decls.now cases.now) }
{
    let mut well = ok;
    for (decl, case) in decls.iter().zip(cases) {
        well = put_case_items(sink, well, file, actor, decl, case);
    }
    well
}

fn put_case_items<K: Sink>(
    sink: &mut K,
    ok: bool,
    file: &File,
    actor: Option<u32>,
    decl: &CaseDecl,
    case: &ClosedCase,
) -> bool
    ensures { Gives K.written K.faults ok result sink.old sink.new (case_items file.now actor decl.now case.now) }
{
    put_items_of(sink, ok, file, actor, decl, case.machine.live())
}

// The items of a case, where it was created.
#[tactic(auto, using(adept_io::proofs::Sent::gives_nothing))]
fn put_items_of<K: Sink>(
    sink: &mut K,
    ok: bool,
    file: &File,
    actor: Option<u32>,
    decl: &CaseDecl,
    live: Option<LiveCase<'_>>,
) -> bool
    ensures { Gives K.written K.faults ok result sink.old sink.new (item_lines file.now actor decl.now live.entry) }
{
    match live {
        None => ok,
        Some(live) => put_item_lines(sink, ok, file, actor, decl, live.items().as_slice()),
    }
}

fn put_item_lines<K: Sink>(
    sink: &mut K,
    ok: bool,
    file: &File,
    actor: Option<u32>,
    decl: &CaseDecl,
    items: &[(u32, Item)],
) -> bool
    ensures { Gives K.written K.faults ok result sink.old sink.new (flat_map (λ r. line_if_concerned file.now actor decl.now r.1) items.now) }
{
    let mut well = ok;
    for row in items {
        well = put_if_concerned(sink, well, file, actor, decl, row.1);
    }
    well
}

// An item, where it concerns the actor.
#[tactic(auto, using(adept_io::proofs::Sent::gives_nothing))]
fn put_if_concerned<K: Sink>(
    sink: &mut K,
    ok: bool,
    file: &File,
    actor: Option<u32>,
    decl: &CaseDecl,
    item: Item,
) -> bool
    ensures { Gives K.written K.faults ok result sink.old sink.new (line_if_concerned file.now actor decl.now item) }
{
    if concerns(file, actor, item) {
        put_item_line(sink, ok, file, decl, item)
    } else {
        ok
    }
}

// Whether an item is offered to an actor or held by it; where no actor is asked for, each is meant.
fn concerns(file: &File, actor: Option<u32>, item: Item) -> bool
    ensures { result ≡ concerns file.now actor item }
{
    match actor {
        None => true,
        Some(actor) => match item {
            Item::Offered { role, .. } => role == 0 || has_role(file, actor, role),
            Item::Held { user, .. } => user == actor,
        },
    }
}

// Whether an actor has a role.
fn has_role(file: &File, actor: u32, role: u32) -> bool
    ensures { result ≡ has_role file.now actor role }
{
    roles_of(file, actor).iter().any(|own| *own == role)
}

#[tactic(auto, using(adept_io::proofs::Sent::gives_then))]
fn put_item_line<K: Sink>(sink: &mut K, ok: bool, file: &File, decl: &CaseDecl, item: Item) -> bool
    ensures { Gives K.written K.faults ok result sink.old sink.new (item_line file.now decl.now item) }
{
    let ok = put(sink, ok, b"item ");
    let ok = put(sink, ok, decl.name.bytes());
    let ok = put_item(sink, ok, file, item);
    put(sink, ok, b"\n")
}
