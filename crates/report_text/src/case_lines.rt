// The lines of a case's journal.
ghost use Rattle.std.specs.Prelude.{◌≡◌, ◌++◌, flat_map, codes, decimal};
ghost use Rattle.adept_io.specs.Written.{Gives};
ghost use Rattle.report_text.specs.Journals.{blocked_text, case_line, choice_text, end_event_text, entry_text, event_text, numbered, position_text, reply_rest, reply_text, reply_word, wrong_choice};
ghost use Rattle.report_words.specs.{Names.name_text, Words.{caller_text, letter, listed_element, role_text}};

use crate::kind_lines::put_line_start;
use adept_io::{Sink, put, put_pieces};
use case_core::{Event, Reply};
use file_model::File;
use itoa::Buffer;
use report_words::{
    caller_word, letter, put_element, put_fault, put_name, put_of_node, put_reads, put_spaced,
    put_writes, role_word,
};
use script_run::CaseEntry;
use wsm_foot::Name;
use wsm_schema::{Entry, State, Writes};

/// The lines of the journal, numbered from 1.
pub fn put_case_journal<K: Sink>(sink: &mut K, ok: bool, file: &File, journal: &[CaseEntry]) -> bool
    ensures { Gives K.written K.faults ok result sink.old sink.new (numbered (case_line file.now) 1 journal.now) }
{
    let mut well = ok;
    for (i, entry) in journal.iter().enumerate() {
        well = put_case_line(sink, well, file, i as u64 + 1, entry);
    }
    well
}

/// A line of the journal: its place in it, its caller, its event, and the reply.
pub fn put_case_line<K: Sink>(
    sink: &mut K,
    ok: bool,
    file: &File,
    place: u64,
    entry: &CaseEntry,
) -> bool
    ensures { Gives K.written K.faults ok result sink.old sink.new (case_line file.now place entry.now) }
{
    let ok = put_line_start(sink, ok, file, place, entry.caller);
    let ok = put_event(sink, ok, file, &entry.event);
    let ok = put(sink, ok, b" -> ");
    let ok = put_reply(sink, ok, file, &entry.reply);
    put(sink, ok, b"\n")
}

fn put_event<K: Sink>(sink: &mut K, ok: bool, file: &File, event: &Event) -> bool
    ensures { Gives K.written K.faults ok result sink.old sink.new (event_text file.now event.now) }
{
    let mut number = Buffer::new();
    match event {
        Event::Create(version) => {
            put_pieces(
                sink,
                ok,
                &[b"create ", number.format(version.number()).as_bytes()],
            )
        }
        Event::Start { node, .. } => put_of_node(sink, ok, b"start ", file, *node),
        Event::Withdraw { node, .. } => put_of_node(sink, ok, b"withdraw ", file, *node),
        Event::End {
            node,
            writes,
            choice,
            ..
        } => put_end(sink, ok, file, *node, writes, *choice),
        Event::Change(ops) => {
            put_pieces(sink, ok, &[b"change ", number.format(ops.len()).as_bytes()])
        }
        Event::Migrate(version) => {
            put_pieces(
                sink,
                ok,
                &[b"migrate ", number.format(version.number()).as_bytes()],
            )
        }
    }
}

fn put_end<K: Sink>(
    sink: &mut K,
    ok: bool,
    file: &File,
    node: u32,
    writes: &Writes,
    choice: Option<u16>,
) -> bool
    ensures { Gives K.written K.faults ok result sink.old sink.new (end_event_text file.now node writes.now choice) }
{
    let ok = put_of_node(sink, ok, b"end ", file, node);
    let ok = put_choice(sink, ok, choice);
    put_writes(sink, ok, file, writes.as_slice())
}

#[tactic(auto, using(adept_io::proofs::Sent::gives_nothing))]
fn put_choice<K: Sink>(sink: &mut K, ok: bool, choice: Option<u16>) -> bool
    ensures { Gives K.written K.faults ok result sink.old sink.new (choice_text choice) }
{
    let mut number = Buffer::new();
    match choice {
        None => ok,
        Some(code) => put_pieces(sink, ok, &[b" choice ", number.format(code).as_bytes()]),
    }
}

/// What a case answered, as the journal says it.
#[tactic(auto, using(adept_io::proofs::Sent::gives_then))]
pub fn put_reply<K: Sink>(sink: &mut K, ok: bool, file: &File, reply: &Reply) -> bool
    ensures { Gives K.written K.faults ok result sink.old sink.new (reply_text file.now reply.now) }
{
    let ok = put(sink, ok, reply_word(reply));
    put_reply_rest(sink, ok, file, reply)
}

fn reply_word(reply: &Reply) -> &'static [u8]
    ensures { result.now ≡ reply_word reply.now }
{
    match reply {
        Reply::Created => b"created",
        Reply::Started(_) => b"started",
        Reply::Ended => b"ended",
        Reply::Repeated => b"repeated",
        Reply::Withdrawn => b"withdrawn",
        Reply::Already => b"already",
        Reply::NoCase => b"no-case",
        Reply::NoNode => b"no-node",
        Reply::NotReady(_) => b"not-ready",
        Reply::NotAllowed(_) => b"not-allowed",
        Reply::NotRunning(_) => b"not-running",
        Reply::NotHolder(_) => b"not-holder",
        Reply::WrongWrites(_) => b"wrong-writes",
        Reply::NoBranch(_) => b"no-branch",
        Reply::OtherType => b"other-type",
        Reply::Changed => b"changed",
        Reply::Migrated(_) => b"migrated",
        Reply::Finished => b"finished",
        Reply::Unsound(_) => b"unsound",
        Reply::Blocked(..) => b"blocked",
        Reply::NotNewer(_) => b"not-newer",
        Reply::Overlap(_) => b"overlap",
    }
}

// What stands behind the word.
#[tactic(auto, using(adept_io::proofs::Sent::gives_nothing))]
fn put_reply_rest<K: Sink>(sink: &mut K, ok: bool, file: &File, reply: &Reply) -> bool
    ensures { Gives K.written K.faults ok result sink.old sink.new (reply_rest file.now reply.now) }
{
    match reply {
        Reply::Started(reads) => put_reads(sink, ok, file, reads.as_slice()),
        Reply::NotReady(state) => put_state(sink, ok, *state),
        Reply::NotRunning(state) => put_state(sink, ok, *state),
        Reply::NotAllowed(role) => put_role(sink, ok, file, *role),
        Reply::Migrated(number) => put_spaced(sink, ok, *number),
        Reply::NotNewer(number) => put_spaced(sink, ok, *number),
        Reply::NotHolder(user) => put_user(sink, ok, file, *user),
        Reply::WrongWrites(elements) => put_elements(sink, ok, file, elements.as_slice()),
        Reply::NoBranch(choice) => put_wrong_choice(sink, ok, *choice),
        Reply::Unsound(fault) => put_fault(sink, ok, file, *fault),
        Reply::Blocked(position, entry) => put_blocked(sink, ok, file, *position, entry.as_entry()),
        Reply::Overlap(name) => put_overlap(sink, ok, file, *name),
        Reply::Created
        | Reply::Ended
        | Reply::Repeated
        | Reply::Withdrawn
        | Reply::Already
        | Reply::NoCase
        | Reply::NoNode
        | Reply::OtherType
        | Reply::Changed
        | Reply::Finished => ok,
    }
}

fn put_role<K: Sink>(sink: &mut K, ok: bool, file: &File, role: u32) -> bool
    ensures { Gives K.written K.faults ok result sink.old sink.new (codes " " ++ role_text file.now role) }
{
    let mut buffer = Buffer::new();
    put_pieces(sink, ok, &[b" ", role_word(file, role, &mut buffer)])
}

fn put_state<K: Sink>(sink: &mut K, ok: bool, state: State) -> bool
    ensures { Gives K.written K.faults ok result sink.old sink.new (codes " " ++ letter state) }
{
    put_pieces(sink, ok, &[b" ", letter(state)])
}

fn put_user<K: Sink>(sink: &mut K, ok: bool, file: &File, user: u32) -> bool
    ensures { Gives K.written K.faults ok result sink.old sink.new (codes " " ++ caller_text file.now user) }
{
    let mut buffer = Buffer::new();
    put_pieces(sink, ok, &[b" ", caller_word(file, user, &mut buffer)])
}

fn put_wrong_choice<K: Sink>(sink: &mut K, ok: bool, choice: Option<u16>) -> bool
    ensures { Gives K.written K.faults ok result sink.old sink.new (wrong_choice choice) }
{
    let mut number = Buffer::new();
    match choice {
        None => put(sink, ok, b" -"),
        Some(code) => put_pieces(sink, ok, &[b" ", number.format(code).as_bytes()]),
    }
}

fn put_elements<K: Sink>(sink: &mut K, ok: bool, file: &File, elements: &[u32]) -> bool
    ensures { Gives K.written K.faults ok result sink.old sink.new (flat_map (listed_element file.now) elements.now) }
{
    let mut well = ok;
    for element in elements {
        well = put_element(sink, well, file, *element);
    }
    well
}

#[tactic(auto, using(adept_io::proofs::Sent::gives_then))]
fn put_overlap<K: Sink>(sink: &mut K, ok: bool, file: &File, name: Name) -> bool
    ensures { Gives K.written K.faults ok result sink.old sink.new (codes " " ++ name_text file.now name) }
{
    let ok = put(sink, ok, b" ");
    put_name(sink, ok, file, name)
}

// The first entry that fails on the other schema, behind its position.
#[tactic(auto, using(adept_io::proofs::Sent::gives_then))]
fn put_blocked<K: Sink>(sink: &mut K, ok: bool, file: &File, position: u32, entry: &Entry) -> bool
    ensures { Gives K.written K.faults ok result sink.old sink.new (blocked_text file.now position entry.now) }
{
    let ok = put_position(sink, ok, position);
    put_entry(sink, ok, file, entry)
}

fn put_position<K: Sink>(sink: &mut K, ok: bool, position: u32) -> bool
    ensures { Gives K.written K.faults ok result sink.old sink.new (position_text position) }
{
    let mut number = Buffer::new();
    put_pieces(sink, ok, &[b" ", number.format(position).as_bytes(), b" "])
}

fn put_entry<K: Sink>(sink: &mut K, ok: bool, file: &File, entry: &Entry) -> bool
    ensures { Gives K.written K.faults ok result sink.old sink.new (entry_text file.now entry.now) }
{
    match entry {
        Entry::Start { node, .. } => put_of_node(sink, ok, b"start ", file, *node),
        Entry::End { node, .. } => put_of_node(sink, ok, b"end ", file, *node),
        Entry::Again { node, .. } => put_of_node(sink, ok, b"again ", file, *node),
        Entry::Wrote { .. } => put(sink, ok, b"wrote"),
    }
}
