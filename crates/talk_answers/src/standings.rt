// How cases stand.
ghost use Rattle.std.specs.Prelude.{◌≡◌, Some};
ghost use Rattle.adept_io.specs.Written.{Gives};
ghost use Rattle.report_text.specs.{Ends.progress, Report.side_by_side};
ghost use Rattle.talk_answers.specs.Standings.{all_standings, standing, standing_at, standing_of, standings_of};

use adept_io::{Sink, put, put_pieces};
use case_core::LiveCase;
use file_model::{CaseDecl, File};
use itoa::Buffer;
use report_text::ClosedCase;
use report_words::put_type;
use unit_run::UnitRun;

/// How each case stands.
pub fn put_all_standings<K: Sink>(sink: &mut K, ok: bool, file: &File, run: &UnitRun) -> bool
    ensures { Gives K.written K.faults ok result sink.old sink.new (all_standings file.now run.now) }
{
    put_standings(sink, ok, file, file.cases.as_slice(), run.cases())
}

/// How each case of a type stands.
pub fn put_standings_of<K: Sink>(
    sink: &mut K,
    ok: bool,
    file: &File,
    run: &UnitRun,
    type_no: u32,
) -> bool
    ensures { Gives K.written K.faults ok result sink.old sink.new (standings_of file.now run.now type_no) }
{
    let mut well = ok;
    for place in run.places().of_kind(type_no) {
        well = put_standing_at(sink, well, file, run, *place);
    }
    well
}

// How the case stands that was declared at a place.
#[tactic(auto, using(adept_io::proofs::Sent::gives_nothing))]
fn put_standing_at<K: Sink>(sink: &mut K, ok: bool, file: &File, run: &UnitRun, place: u32) -> bool
    ensures { Gives K.written K.faults ok result sink.old sink.new (standing_at file.now run.now place) }
{
    let index = place as usize;
    match (file.cases.get(index), run.cases().get(index)) {
        (Some(decl), Some(case)) => put_standing(sink, ok, file, decl, case),
        _ => ok,
    }
}

fn put_standings<K: Sink>(
    sink: &mut K,
    ok: bool,
    file: &File,
    decls: &[CaseDecl],
    cases: &[ClosedCase],
) -> bool
    ensures { Gives K.written K.faults ok result sink.old sink.new (side_by_side (standing file.now) decls.now cases.now) }
{
    let mut well = ok;
    for (decl, case) in decls.iter().zip(cases) {
        well = put_standing(sink, well, file, decl, case);
    }
    well
}

// How a case stands.
#[tactic(auto, using(adept_io::proofs::Sent::gives_then))]
fn put_standing<K: Sink>(
    sink: &mut K,
    ok: bool,
    file: &File,
    decl: &CaseDecl,
    case: &ClosedCase,
) -> bool
    ensures { Gives K.written K.faults ok result sink.old sink.new (standing file.now decl.now case.now) }
{
    let ok = put(sink, ok, b"case ");
    let ok = put(sink, ok, decl.name.bytes());
    let ok = put_type(sink, ok, b" ", file, decl.id.type_no);
    put_standing_of(sink, ok, case.machine.live())
}

fn put_standing_of<K: Sink>(sink: &mut K, ok: bool, live: Option<LiveCase<'_>>) -> bool
    ensures { Gives K.written K.faults ok result sink.old sink.new (standing_of live.entry) }
{
    match live {
        None => put(sink, ok, b" none\n"),
        Some(live) => put_progress(sink, ok, &live),
    }
}

// On which version a case stands, whether it is finished, and how many operations of its own it has.
fn put_progress<K: Sink>(sink: &mut K, ok: bool, live: &LiveCase<'_>) -> bool
    ensures { Gives K.written K.faults ok result sink.old sink.new (standing_of (Some live.now)) }
{
    let mut number = Buffer::new();
    let mut own = Buffer::new();
    put_pieces(
        sink,
        ok,
        &[
            b" ",
            number.format(live.base().number()).as_bytes(),
            progress(live.is_finished()),
            b" own=",
            own.format(live.own().len()).as_bytes(),
            b"\n",
        ],
    )
}

fn progress(finished: bool) -> &'static [u8]
    ensures { result.now ≡ progress finished }
{
    if finished { b" finished" } else { b" running" }
}
