// Which cells a phase calls.
ghost use Rattle.std.specs.Prelude.{◌≡◌, false};
ghost use Rattle.adept_actor.specs.Others.{IsUnnamedCase, IsUnnamedKind, names_case, names_kind};
ghost use Rattle.adept_server.specs.Noting.{IsCalmCase, IsCalmKind, rows_of};

use adept_server::CallFlags;
use file_model::{Act, Lines};
use line_calls::{Cells, cells_of};

/// Notes each cell that one of these lines names, and forgets all others.
pub fn note_lines(called: &mut CallFlags, lines: &Lines)
    ensures rows { rows_of called.new ≡ rows_of called.old }
    ensures kinds { (t : _) → IsCalmKind called.new t → IsUnnamedKind lines.now t }
    ensures cases { (c : _) → IsCalmCase called.new c → IsUnnamedCase lines.now c }
{
    called.forget();
    for line in lines.as_slice() {
        note_act(called, &line.act);
    }
}

fn note_act(called: &mut CallFlags, act: &Act)
    ensures rows { rows_of called.new ≡ rows_of called.old }
    ensures kinds { (t : _) → IsCalmKind called.new t → IsCalmKind called.old t × (names_kind t act.now ≡ false) }
    ensures cases { (c : _) → IsCalmCase called.new c → IsCalmCase called.old c × (names_case c act.now ≡ false) }
{
    match cells_of(act) {
        Cells::Kind(type_no) => called.note_kind(type_no),
        Cells::Case(id) => called.note_case(id),
        Cells::KindAndCase(type_no, id) => {
            called.note_kind(type_no);
            called.note_case(id);
        }
        Cells::KindAndEach(type_no, _) => {
            called.note_kind(type_no);
            called.note_cases(type_no);
        }
    }
}
