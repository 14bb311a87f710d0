// A line, by where it stands.
ghost use Rattle.std.specs.{Prelude.{◌≡◌, ◌≤◌, ◌+◌, length, Ok, IfOk, IfErr}, Option.option_map};
ghost use Rattle.file_words.specs.Shown.{shown};
ghost use Rattle.file_forms.specs.{Shown.{shown_declaration, shown_type_line, shown_script_line, shown_operation}, NamesInForms.{roles_in, writes_in}, DeclarationForms.declaration_line, TypeForms.type_line, ScriptForms.script_line};
ghost use Rattle.file_forms.specs.OperationForms.{operation_line};
ghost use Rattle.file_model.specs.{Outcomes.Stops, Room.HasRoom, ShortForms.{IsShortDeclaration, IsShortOperation, IsShortScriptLine, IsShortTypeLine}, Steps.at_place, Reading.{why_long, fitting, declares, step_outside, step_in}};
ghost use Rattle.process_text.specs.Forms.{HasForm, IsFormed, IsNotFormed, LacksForm, declaration_step, script_step};

use file_drafts::Draft;
use file_forms::{
    Declaration, OperationLine, ScriptLine, TypeLine, begins_reserved, declaration_line,
    operation_line, script_line, type_line,
};
use file_model::{Contents, FileLimit, Group, Section, Stop, Why};
use file_state::{declared, fits_in, headed, operated, scripted, typed};
use file_words::{TooLong, first_long, is_text};
use std::alloc::Global;

fn why_long(long: TooLong) -> Why
    ensures { result ≡ why_long long }
{
    match long {
        TooLong::Name => Why::Limit(FileLimit::Name),
        TooLong::Text => Why::Limit(FileLimit::Text),
    }
}

// The form of a line of a type, where such a line may stand.
fn fitting_line<'a>(format: u32, draft: &Draft, words: &[&'a [u8]]) -> Option<TypeLine<'a>>
    ensures { option_map shown_type_line result ≡ fitting draft.now (type_line format (shown words.now)) }
{
    let line = type_line(format, words)?;
    if fits_in(draft.around(), line) {
        Some(line)
    } else {
        None
    }
}

// The form of a line of a type. It is made before what was read so far is taken up, so a line that has none lets a small
// value go, and no draft.
#[tactic(auto, using(crate::proofs::ShortLines::short_type_line))]
fn type_form<'a>(
    format: u32,
    draft: &Draft,
    line: &[u8],
    words: &[&'a [u8]],
) -> Result<TypeLine<'a>, Stop>
    ensures ok { IfOk result (λ form. HasForm line.now (shown words.now) (fitting draft.now (type_line format (shown words.now))) (shown_type_line form)) }
    ensures refused { IfErr result (λ stop. LacksForm line.now (shown words.now) (fitting draft.now (type_line format (shown words.now))) stop) }
    ensures short { IfOk result (λ form. IsShortTypeLine (shown_type_line form)) }
{
    if !is_text(line) {
        return Err(Stop::Refused(Why::NotText));
    }
    match fitting_line(format, draft, words) {
        None => Err(Stop::Refused(Why::Form)),
        Some(form) => match first_long(words) {
            Some(long) => Err(Stop::Refused(why_long(long))),
            None => Ok(form),
        },
    }
}

#[tactic(auto, using(crate::proofs::ShortLines::short_declaration, crate::proofs::ShortLines::few_roles))]
fn declaration_form<'a>(
    alloc: Global,
    format: u32,
    words: &[&'a [u8]],
) -> Result<Declaration<'a>, Stop>
    ensures ok { IfOk result (λ form. IsFormed (shown words.now) (declaration_line format (shown words.now)) (shown_declaration form)) }
    ensures refused { IfErr result (λ stop. IsNotFormed (shown words.now) (declaration_line format (shown words.now)) stop) }
    ensures short { IfOk result (λ form. IsShortDeclaration (shown_declaration form)) }
    ensures few { IfOk result (λ form. roles_in (shown_declaration form) ≤ length words.now) }
{
    match declaration_line(alloc, format, words)? {
        None => Err(Stop::Refused(Why::Form)),
        Some(form) => match first_long(words) {
            Some(long) => Err(Stop::Refused(why_long(long))),
            None => Ok(form),
        },
    }
}

#[tactic(auto, using(crate::proofs::ShortLines::short_script_line, crate::proofs::ShortLines::few_writes))]
fn script_form<'a>(alloc: Global, format: u32, words: &[&'a [u8]]) -> Result<ScriptLine<'a>, Stop>
    ensures ok { IfOk result (λ form. IsFormed (shown words.now) (script_line format (shown words.now)) (shown_script_line form)) }
    ensures refused { IfErr result (λ stop. IsNotFormed (shown words.now) (script_line format (shown words.now)) stop) }
    ensures short { IfOk result (λ form. IsShortScriptLine (shown_script_line form)) }
    ensures few { IfOk result (λ form. writes_in (shown_script_line form) ≤ length words.now) }
{
    match script_line(alloc, format, words)? {
        None => Err(Stop::Refused(Why::Form)),
        Some(form) => match first_long(words) {
            Some(long) => Err(Stop::Refused(why_long(long))),
            None => Ok(form),
        },
    }
}

#[tactic(auto, using(crate::proofs::ShortLines::short_operation))]
fn operation_form<'a>(
    format: u32,
    line: &[u8],
    words: &[&'a [u8]],
) -> Result<OperationLine<'a>, Stop>
    ensures ok { IfOk result (λ form. HasForm line.now (shown words.now) (operation_line format (shown words.now)) (shown_operation form)) }
    ensures refused { IfErr result (λ stop. LacksForm line.now (shown words.now) (operation_line format (shown words.now)) stop) }
    ensures short { IfOk result (λ form. IsShortOperation (shown_operation form)) }
{
    if !is_text(line) {
        return Err(Stop::Refused(Why::NotText));
    }
    match operation_line(format, words) {
        None => Err(Stop::Refused(Why::Form)),
        Some(form) => match first_long(words) {
            Some(long) => Err(Stop::Refused(why_long(long))),
            None => Ok(form),
        },
    }
}

/// The place behind a line that says something.
pub fn step_in(
    contents: &mut Contents,
    alloc: Global,
    at: u32,
    line: &[u8],
    words: &[&[u8]],
    place: Section,
) -> Result<Section, Stop>
    requires { HasRoom (length words.now + 6) contents.old }
    ensures ok { IfOk result (λ next. step_in place at line.now (shown words.now) contents.old ≡ Ok (at_place next contents.new)) }
    ensures refused { IfErr result (λ stop. Stops (step_in place at line.now (shown words.now) contents.old) contents.new stop) }
{
    match place {
        Section::Head(newest) => headed(contents, newest, words),
        Section::Outside => text_step(contents, alloc, at, line, words),
        Section::InType(draft) => type_step(contents, alloc, at, line, words, draft),
        Section::InGroup(group) => operation_step(contents, alloc, at, line, words, group),
    }
}

fn text_step(
    contents: &mut Contents,
    alloc: Global,
    at: u32,
    line: &[u8],
    words: &[&[u8]],
) -> Result<Section, Stop>
    requires { HasRoom (length words.now + 6) contents.old }
    ensures ok { IfOk result (λ place. step_in Section.Outside at line.now (shown words.now) contents.old ≡ Ok (at_place place contents.new)) }
    ensures refused { IfErr result (λ stop. Stops (step_in Section.Outside at line.now (shown words.now) contents.old) contents.new stop) }
{
    if !is_text(line) {
        return Err(Stop::Refused(Why::NotText));
    }
    outside_step(contents, alloc, at, words)
}

// Whether a line outside of types and groups is no script line.
fn declares(contents: &Contents, words: &[&[u8]]) -> bool
    ensures { result ≡ declares (shown words.now) contents.now }
{
    if contents.format == 3 {
        begins_reserved(words)
    } else {
        contents.current.is_none()
    }
}

fn outside_step(
    contents: &mut Contents,
    alloc: Global,
    at: u32,
    words: &[&[u8]],
) -> Result<Section, Stop>
    requires { HasRoom (length words.now + 6) contents.old }
    ensures ok { IfOk result (λ place. step_outside at (shown words.now) contents.old ≡ Ok (at_place place contents.new)) }
    ensures refused { IfErr result (λ stop. Stops (step_outside at (shown words.now) contents.old) contents.new stop) }
{
    if declares(contents, words) {
        declaration_step(contents, alloc, words)
    } else {
        script_step(contents, alloc, at, words)
    }
}

fn declaration_step(
    contents: &mut Contents,
    alloc: Global,
    words: &[&[u8]],
) -> Result<Section, Stop>
    requires { HasRoom (length words.now + 6) contents.old }
    ensures ok { IfOk result (λ place. declaration_step (shown words.now) contents.old ≡ Ok (at_place place contents.new)) }
    ensures refused { IfErr result (λ stop. Stops (declaration_step (shown words.now) contents.old) contents.new stop) }
{
    match declaration_form(alloc, contents.format, words) {
        Ok(form) => declared(contents, alloc, form),
        Err(stop) => Err(stop),
    }
}

fn script_step(
    contents: &mut Contents,
    alloc: Global,
    at: u32,
    words: &[&[u8]],
) -> Result<Section, Stop>
    requires { HasRoom (length words.now + 6) contents.old }
    ensures ok { IfOk result (λ place. script_step at (shown words.now) contents.old ≡ Ok (at_place place contents.new)) }
    ensures refused { IfErr result (λ stop. Stops (script_step at (shown words.now) contents.old) contents.new stop) }
{
    match script_form(alloc, contents.format, words) {
        Ok(form) => scripted(contents, alloc, at, form),
        Err(stop) => Err(stop),
    }
}

fn type_step(
    contents: &mut Contents,
    alloc: Global,
    at: u32,
    line: &[u8],
    words: &[&[u8]],
    draft: Draft,
) -> Result<Section, Stop>
    requires { HasRoom (length words.now + 6) contents.old }
    ensures ok { IfOk result (λ place. step_in (Section.InType draft) at line.now (shown words.now) contents.old ≡ Ok (at_place place contents.new)) }
    ensures refused { IfErr result (λ stop. Stops (step_in (Section.InType draft) at line.now (shown words.now) contents.old) contents.new stop) }
{
    match type_form(contents.format, &draft, line, words) {
        Ok(form) => typed(contents, alloc, draft, form),
        Err(stop) => Err(stop),
    }
}

fn operation_step(
    contents: &mut Contents,
    alloc: Global,
    at: u32,
    line: &[u8],
    words: &[&[u8]],
    group: Group,
) -> Result<Section, Stop>
    requires { HasRoom (length words.now + 6) contents.old }
    ensures ok { IfOk result (λ place. step_in (Section.InGroup group) at line.now (shown words.now) contents.old ≡ Ok (at_place place contents.new)) }
    ensures refused { IfErr result (λ stop. Stops (step_in (Section.InGroup group) at line.now (shown words.now) contents.old) contents.new stop) }
{
    match operation_form(contents.format, line, words) {
        Ok(form) => operated(contents, alloc, group, form),
        Err(stop) => Err(stop),
    }
}
