// The pieces of a report that are followed whole.
ghost use Rattle.std.specs.Prelude.{IfOk, Some};
ghost use Rattle.case_audit.specs.Common.{defined_line, FollowedBy, Gives, piece_text};

use file_model::{CaseDecl, File, TypeDecl};
use report_text::{
    put_case_head, put_case_line, put_end, put_first_line, put_kind_line, put_type_head,
};
use report_words::{put_case_totals, put_migration_totals};
use script_run::{CaseEntry, ClosedCase, ClosedKind, KindEntry};
use std::alloc::{AllocError, Global};
use text_follower::{Follower, GrowingSink};
use wsm_lists::NoMemory;

/// A piece of a report.
#[derive(Clone, Copy)]
pub enum Piece<'a> {
    FirstLine,
    /// The line of a type, and that of its definition.
    TypeFront(&'a TypeDecl, &'a ClosedKind),
    /// A line of a type's journal, by its number there.
    KindLine(u64, &'a KindEntry),
    CaseHead(&'a CaseDecl),
    /// A line of a case's journal, by its number there.
    CaseLine(u64, &'a CaseEntry),
    CaseEnd(&'a ClosedCase),
    Totals(&'a [ClosedCase]),
}

/// Goes along the piece. Whether all of it stands there.
pub fn follow(
    alloc: Global,
    file: &File,
    piece: Piece<'_>,
    report: &mut Follower<'_>,
) -> Result<bool, NoMemory>
    ensures { IfOk result (FollowedBy (piece_text file.now piece.entry) report.old report.new) }
{
    let mut lines = GrowingSink::new(alloc);
    if !put_piece(&mut lines, true, file, piece) {
        return Err(AllocError);
    }
    Ok(report.follow(lines.as_slice()))
}

#[tactic(auto, using(adept_io::proofs::Sent::gives_then))]
fn put_piece(lines: &mut GrowingSink, ok: bool, file: &File, piece: Piece<'_>) -> bool
    ensures { Gives (λ s. Some s.bytes) (λ s. s.faults) ok result lines.old lines.new (piece_text file.now piece.entry) }
{
    match piece {
        Piece::FirstLine => put_first_line(lines, ok, file),
        Piece::TypeFront(decl, kind) => {
            let ok = put_type_head(lines, ok, decl);
            put_definition(lines, ok, file, kind)
        }
        Piece::KindLine(place, entry) => put_kind_line(lines, ok, file, place, entry),
        Piece::CaseHead(decl) => put_case_head(lines, ok, file, decl),
        Piece::CaseLine(place, entry) => put_case_line(lines, ok, file, place, entry),
        Piece::CaseEnd(case) => put_end(lines, ok, file, case.machine.live()),
        Piece::Totals(cases) => {
            let ok = put_case_totals(lines, ok, cases);
            put_migration_totals(lines, ok, cases)
        }
    }
}

#[tactic(auto, using(adept_io::proofs::Sent::gives_nothing))]
fn put_definition(lines: &mut GrowingSink, ok: bool, file: &File, kind: &ClosedKind) -> bool
    ensures { Gives (λ s. Some s.bytes) (λ s. s.faults) ok result lines.old lines.new (defined_line file.now kind.now) }
{
    match kind.journal.get(0) {
        None => ok,
        Some(entry) => put_kind_line(lines, ok, file, 1, entry),
    }
}
