// The lines of a type's journal.
ghost use Rattle.std.specs.Prelude.{◌≡◌, ◌++◌, codes, decimal};
ghost use Rattle.adept_io.specs.Written.{Gives};
ghost use Rattle.fault_words.specs.FaultWords.{fault_text};
ghost use Rattle.report_text.specs.Journals.{line_start, kind_event_text, kind_reply_text, kind_line, numbered};

use adept_io::{Sink, put, put_number, put_pieces};
use file_model::File;
use itoa::Buffer;
use report_words::{caller_word, put_fault};
use script_run::KindEntry;
use type_core::{KindEvent, KindReply};
use wsm_sound::Fault;

/// The lines of the journal, numbered from 1.
pub fn put_kind_journal<K: Sink>(sink: &mut K, ok: bool, file: &File, journal: &[KindEntry]) -> bool
    ensures { Gives K.written K.faults ok result sink.old sink.new (numbered (kind_line file.now) 1 journal.now) }
{
    let mut well = ok;
    for (i, entry) in journal.iter().enumerate() {
        well = put_kind_line(sink, well, file, i as u64 + 1, entry);
    }
    well
}

/// A line of the journal: its place in it, its caller, its event, and the reply.
pub fn put_kind_line<K: Sink>(
    sink: &mut K,
    ok: bool,
    file: &File,
    place: u64,
    entry: &KindEntry,
) -> bool
    ensures { Gives K.written K.faults ok result sink.old sink.new (kind_line file.now place entry.now) }
{
    let ok = put_line_start(sink, ok, file, place, entry.caller);
    let ok = put_kind_event(sink, ok, &entry.event);
    let ok = put(sink, ok, b" -> ");
    let ok = put_kind_reply(sink, ok, file, &entry.reply);
    put(sink, ok, b"\n")
}

/// The place of an entry in its journal and its caller, each with a space behind it.
#[tactic(auto, using(adept_io::proofs::Sent::gives_then))]
pub fn put_line_start<K: Sink>(sink: &mut K, ok: bool, file: &File, place: u64, caller: u32) -> bool
    ensures { Gives K.written K.faults ok result sink.old sink.new (line_start file.now place caller) }
{
    let mut buffer = Buffer::new();
    let ok = put_number(sink, ok, place);
    put_pieces(
        sink,
        ok,
        &[b" ", caller_word(file, caller, &mut buffer), b" "],
    )
}

fn put_kind_event<K: Sink>(sink: &mut K, ok: bool, event: &KindEvent) -> bool
    ensures { Gives K.written K.faults ok result sink.old sink.new (kind_event_text event.now) }
{
    let mut number = Buffer::new();
    match event {
        KindEvent::Define(_) => put(sink, ok, b"define"),
        KindEvent::Install(ops) => {
            put_pieces(
                sink,
                ok,
                &[b"install ", number.format(ops.len()).as_bytes()],
            )
        }
        KindEvent::Newest => put(sink, ok, b"newest"),
    }
}

/// What a type answers.
pub fn put_kind_reply<K: Sink>(sink: &mut K, ok: bool, file: &File, reply: &KindReply) -> bool
    ensures { Gives K.written K.faults ok result sink.old sink.new (kind_reply_text file.now reply.now) }
{
    let mut number = Buffer::new();
    match reply {
        KindReply::Defined => put(sink, ok, b"defined"),
        KindReply::Installed(version) => {
            put_pieces(
                sink,
                ok,
                &[b"installed ", number.format(*version).as_bytes()],
            )
        }
        KindReply::Is(version) => {
            put_pieces(
                sink,
                ok,
                &[b"is ", number.format(version.number()).as_bytes()],
            )
        }
        KindReply::Already => put(sink, ok, b"already"),
        KindReply::NoType => put(sink, ok, b"no-type"),
        KindReply::VersionLimit => put(sink, ok, b"version-limit"),
        KindReply::Unsound(fault) => put_unsound(sink, ok, file, *fault),
    }
}

#[tactic(auto, using(adept_io::proofs::Sent::gives_then))]
fn put_unsound<K: Sink>(sink: &mut K, ok: bool, file: &File, fault: Fault) -> bool
    ensures { Gives K.written K.faults ok result sink.old sink.new (codes "unsound" ++ fault_text file.now.nodes file.now.elements fault) }
{
    let ok = put(sink, ok, b"unsound");
    put_fault(sink, ok, file, fault)
}
