// The lines of a unit.
ghost use Rattle.std.specs.Prelude.{◌≡◌, ◌≢◌, ◌+◌, ◌*◌, ◌≤◌, ◌<◌, ◌^◌, length, Ok, IfOk, IfErr, OnOk};
ghost use Rattle.file_words.specs.Shown.{shown};
ghost use Rattle.file_model.specs.{Outcomes.Stops, Reading.at_line, Room.{HasRoom, count_of_names}, Steps.at_place};
ghost use Rattle.file_units.specs.{Facts.IsHeld, Growing.{Grows, cut, marks_of}, Taking.{SaysSome, Tells}, Units.{has_ended, said_line, settled, unit_end, unit_read, unit_step}};

use file_model::{Contents, Counts, FileRefusal, Line, Phases, Section, Stop, Why};
use file_state::refusal;
use file_words::{first_line, is_skipped, without_return};
use line_words::LineWords;
use process_text::step_in;
use std::alloc::Global;

// Whether a unit has ended behind so many of its lines.
fn has_ended(before: u32, place: &Section) -> bool
    ensures { result ≡ has_ended before place.now }
{
    match place {
        Section::Outside => 0 < before,
        Section::Head(_) | Section::InType(_) | Section::InGroup(_) => false,
    }
}

// The place behind a line of a unit, of which so many stand before.
fn unit_step(
    contents: &mut Contents,
    alloc: Global,
    before: u32,
    line: &[u8],
    words: &[&[u8]],
    place: Section,
) -> Result<Section, Stop>
    requires room { HasRoom (length words.now + 6) contents.old }
    requires few { before + 1 < 2 ^ 32 }
    ensures ok { IfOk result (λ next. unit_step before place line.now (shown words.now) contents.old ≡ Ok (at_place next contents.new)) }
    ensures refused { IfErr result (λ stop. Stops (unit_step before place line.now (shown words.now) contents.old) contents.new stop) }
{
    if has_ended(before, &place) {
        return Err(Stop::Refused(Why::Form));
    }
    step_in(contents, alloc, before + 1, line, words, place)
}

// The end of a unit behind so many lines.
fn end_unit(
    contents: &Contents,
    alloc: Global,
    lines: u32,
    place: &Section,
) -> Result<(), FileRefusal>
    ensures ok { OnOk result (place.now ≡ Section.Outside) }
    ensures refused { IfErr result (λ refusal. Tells (at_line lines (unit_end place.now contents.now)) refusal) }
{
    match place {
        Section::Outside => Ok(()),
        Section::Head(_) | Section::InType(_) | Section::InGroup(_) => Err(refusal(
            contents,
            alloc,
            lines,
            Why::Unended,
        )),
    }
}

// What the lines of a unit make of the contents, or its first refusal, whose line is counted among those that say something.
pub(crate) fn read_unit(
    contents: &mut Contents,
    alloc: Global,
    unit: &[u8],
) -> Result<(), FileRefusal>
    requires held { IsHeld contents.old }
    requires room { HasRoom (length unit.now + 6) contents.old }
    ensures read { OnOk result (unit_read contents.old unit.now ≡ Ok contents.new) }
    ensures held { OnOk result (IsHeld (settled contents.new)) }
    ensures says { OnOk result (SaysSome (2 * length unit.now) contents.old contents.new) }
    ensures names { OnOk result (count_of_names contents.new ≤ count_of_names contents.old + length unit.now) }
    ensures more { OnOk result (Grows contents.old contents.new) }
    ensures refused { IfErr result (λ refusal. Tells (unit_read contents.old unit.now) refusal) }
    ensures grows { IfErr result (λ refusal. refusal ≢ FileRefusal.NoMemory → Grows contents.old contents.new) }
{
    let mut place = Section::Outside;
    let mut at = 0;
    let mut rest = unit;
    let mut listed = LineWords::new(alloc);
    while let Some((line, more)) = first_line(rest) {
        let line = without_return(line);
        if listed.read(line).is_err() {
            return Err(FileRefusal::NoMemory);
        }
        let words = listed.as_slice();
        if !is_skipped(words) {
            match unit_step(contents, alloc, at, line, words, place) {
                Ok(next) => place = next,
                Err(Stop::Refused(why)) => return Err(refusal(contents, alloc, at + 1, why)),
                Err(Stop::NoMemory) => return Err(FileRefusal::NoMemory),
            }
            at += 1;
        }
        rest = more;
    }
    end_unit(contents, alloc, at, &place)
}

/// How much was named and declared so far.
#[derive(Clone, Copy)]
pub struct Marks {
    pub(crate) nodes: usize,
    pub(crate) elements: usize,
    pub(crate) roles: usize,
    pub(crate) types: usize,
    pub(crate) actors: usize,
    pub(crate) cases: usize,
}

impl Marks {
    pub(crate) fn of(contents: &Contents) -> Marks
        ensures { result ≡ marks_of contents.now }
    {
        Marks {
            nodes: contents.nodes.len(),
            elements: contents.elements.len(),
            roles: contents.roles.len(),
            types: contents.types.items.len(),
            actors: contents.actors.items.len(),
            cases: contents.cases.items().len(),
        }
    }
}

// Takes back what was named and declared behind the marks.
#[inline(never)]
pub(crate) fn cut_back(contents: &mut Contents, alloc: Global, marks: Marks)
    ensures { contents.new ≡ cut marks contents.old }
{
    contents.nodes.truncate(marks.nodes);
    contents.elements.truncate(marks.elements);
    contents.roles.truncate(marks.roles);
    contents.types.truncate(alloc, marks.types);
    contents.actors.truncate(alloc, marks.actors);
    contents.cases.truncate(alloc, marks.cases);
    let _ = settle(contents, alloc);
}

// Between two units no phase is open and nothing is counted. The line that was read goes on to who works it.
pub(crate) fn settle(contents: &mut Contents, alloc: Global) -> Option<Line>
    ensures settled { contents.new ≡ settled contents.old }
    ensures line { result ≡ said_line contents.old }
{
    contents.phases = Phases::new(alloc);
    contents.counts = Counts {
        lines: 0,
        installs: 0,
        migrations: 0,
    };
    let lines = contents.current.take()?;
    lines.into_vec().pop()
}
