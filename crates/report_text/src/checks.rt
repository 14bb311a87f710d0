// What is told of a file that is checked alone.
ghost use Rattle.std.specs.{Prelude.{◌≡◌, ◌++◌, codes, flat_map, OnErr, OnOk}, Io.KnownBytes.Appends};
ghost use Rattle.adept_io.specs.{Counts.Rose, Written.{AppendsPrefix, Gives}};
ghost use Rattle.report_text.specs.Check.{check_text, sound_line, verdict_head, verdict_line};

use crate::kind_lines::put_kind_reply;
use adept_io::{Failed, Sink, Text, put, put_number, put_pieces, write_gathered};
use file_model::{File, TypeDecl};
use report_words::put_type;
use script_run::{Verdict, Verdicts};

// What is told of a file that is checked alone.
#[derive(Drop)]
struct Check<'a> {
    file: &'a File,
    verdicts: &'a Verdicts,
}

impl Text for Check<'_> {
    ghost bytes = { λ check. check_text check.file.now check.verdicts.now };

    fn put<K: Sink>(&self, sink: &mut K, ok: bool) -> bool {
        put_check(sink, ok, self.file, self.verdicts)
    }
}

/// Writes a line for each type of the file, which is sound where the file was read, and a line for each verdict. Where a
/// write fails, the first bytes of these may have been written.
pub fn write_verdicts<K: Sink>(file: &File, verdicts: &Verdicts, sink: &mut K) -> Result<(), Failed>
    ensures all { OnOk result (Appends (K.written sink.old) (K.written sink.new) (check_text file.now verdicts.now)) }
    ensures part { OnErr result (AppendsPrefix (K.written sink.old) (K.written sink.new) (check_text file.now verdicts.now)) }
    ensures rose { OnErr result (Rose (K.faults sink.old) (K.faults sink.new)) }
{
    write_gathered(sink, &Check { file, verdicts })
}

fn put_check<K: Sink>(sink: &mut K, ok: bool, file: &File, verdicts: &Verdicts) -> bool
    ensures { Gives K.written K.faults ok result sink.old sink.new (check_text file.now verdicts.now) }
{
    let ok = put_sound_types(sink, ok, file.types.as_slice());
    put_verdicts(sink, ok, file, verdicts.as_slice())
}

fn put_sound_types<K: Sink>(sink: &mut K, ok: bool, types: &[TypeDecl]) -> bool
    ensures { Gives K.written K.faults ok result sink.old sink.new (flat_map sound_line types.now) }
{
    let mut well = ok;
    for decl in types {
        well = put_sound(sink, well, decl);
    }
    well
}

fn put_sound<K: Sink>(sink: &mut K, ok: bool, decl: &TypeDecl) -> bool
    ensures { Gives K.written K.faults ok result sink.old sink.new (sound_line decl.now) }
{
    put_pieces(sink, ok, &[b"type ", decl.name.bytes(), b" 1 sound\n"])
}

fn put_verdicts<K: Sink>(sink: &mut K, ok: bool, file: &File, verdicts: &[Verdict]) -> bool
    ensures { Gives K.written K.faults ok result sink.old sink.new (flat_map (verdict_line file.now) verdicts.now) }
{
    let mut well = ok;
    for verdict in verdicts {
        well = put_verdict(sink, well, file, verdict);
    }
    well
}

fn put_verdict<K: Sink>(sink: &mut K, ok: bool, file: &File, verdict: &Verdict) -> bool
    ensures { Gives K.written K.faults ok result sink.old sink.new (verdict_line file.now verdict.now) }
{
    let ok = put_verdict_head(sink, ok, file, verdict);
    let ok = put_kind_reply(sink, ok, file, &verdict.reply);
    put(sink, ok, b"\n")
}

// The line of the file and the type, behind which the reply stands.
fn put_verdict_head<K: Sink>(sink: &mut K, ok: bool, file: &File, verdict: &Verdict) -> bool
    ensures { Gives K.written K.faults ok result sink.old sink.new (verdict_head file.now verdict.now) }
{
    let ok = put(sink, ok, b"line ");
    let ok = put_number(sink, ok, u64::from(verdict.at));
    let ok = put_type(sink, ok, b" ", file, verdict.type_no);
    put(sink, ok, b" ")
}
