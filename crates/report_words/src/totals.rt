// The totals of a report.
ghost use Rattle.std.specs.{Prelude.{◌≡◌, if◌then◌else◌}, List.{count_by, sum_by}};
ghost use Rattle.adept_io.specs.Written.{Gives};
ghost use Rattle.report_words.specs.{Migrations.{has_fate, is_migration, says, says_blocked, says_migrated, says_overlap, with_fate}, Totals.{calls_of, case_totals, is_done, migration_totals}};
ghost use Rattle.report_words.specs.declared.totals.Fate.TheVariants as fate;

use adept_io::{Sink, put_pieces};
use case_core::{Event, Reply};
use itoa::Buffer;
use script_run::{CaseEntry, ClosedCase};

/// What a migration may come to.
#[derive(Clone, Copy)]
pub enum Fate {
    Migrated,
    Blocked,
    Overlap,
}

/// How many cases there are, how many of them are finished, and how many calls were made of them.
pub fn put_case_totals<K: Sink>(sink: &mut K, ok: bool, cases: &[ClosedCase]) -> bool
    ensures { Gives K.written K.faults ok result sink.old sink.new (case_totals cases.now) }
{
    let mut all = Buffer::new();
    let mut finished = Buffer::new();
    let mut entries = Buffer::new();
    put_pieces(
        sink,
        ok,
        &[
            b"summary cases=",
            all.format(cases.len()).as_bytes(),
            b" finished=",
            finished.format(count_done(cases)).as_bytes(),
            b" entries=",
            entries.format(count_calls(cases)).as_bytes(),
            b" ",
        ],
    )
}

fn count_done(cases: &[ClosedCase]) -> usize
    ensures { result ≡ count_by is_done cases.now }
{
    let mut count = 0;
    for case in cases {
        count += one_if(is_done(case));
    }
    count
}

// Whether the case is finished.
fn is_done(case: &ClosedCase) -> bool
    ensures { result ≡ is_done case.now }
{
    match case.machine.live() {
        None => false,
        Some(live) => live.is_finished(),
    }
}

fn count_calls(cases: &[ClosedCase]) -> u128
    ensures { result ≡ sum_by calls_of cases.now }
{
    let mut count = 0;
    for case in cases {
        count += case.journal.len() as u128;
    }
    count
}

/// How many migrations moved a case, were blocked, and overlapped with a case's own operations.
pub fn put_migration_totals<K: Sink>(sink: &mut K, ok: bool, cases: &[ClosedCase]) -> bool
    ensures { Gives K.written K.faults ok result sink.old sink.new (migration_totals cases.now) }
{
    let totals = migrations_of(cases);
    let mut migrated = Buffer::new();
    let mut blocked = Buffer::new();
    let mut overlap = Buffer::new();
    put_pieces(
        sink,
        ok,
        &[
            b"migrated=",
            migrated.format(totals.migrated).as_bytes(),
            b" blocked=",
            blocked.format(totals.blocked).as_bytes(),
            b" overlap=",
            overlap.format(totals.overlap).as_bytes(),
            b"\n",
        ],
    )
}

// How many migrations had each fate.
#[derive(Clone, Copy)]
struct Migrations {
    migrated: u128,
    blocked: u128,
    overlap: u128,
}

// What became of the migrations of all cases. Each journal is gone through while it is near.
fn migrations_of(cases: &[ClosedCase]) -> Migrations
    ensures migrated { result.migrated ≡ sum_by (with_fate fate.Migrated) cases.now }
    ensures blocked { result.blocked ≡ sum_by (with_fate fate.Blocked) cases.now }
    ensures overlap { result.overlap ≡ sum_by (with_fate fate.Overlap) cases.now }
{
    let mut migrated = 0;
    let mut blocked = 0;
    let mut overlap = 0;
    for case in cases {
        migrated += with_fate(case, Fate::Migrated) as u128;
        blocked += with_fate(case, Fate::Blocked) as u128;
        overlap += with_fate(case, Fate::Overlap) as u128;
    }
    Migrations {
        migrated,
        blocked,
        overlap,
    }
}

fn with_fate(case: &ClosedCase, fate: Fate) -> usize
    ensures { result ≡ with_fate fate case.now }
{
    count(case.journal.as_slice(), fate)
}

// How many migrations of a case had that fate.
fn count(journal: &[CaseEntry], fate: Fate) -> usize
    ensures { result ≡ count_by (has_fate fate) journal.now }
{
    let mut count = 0;
    for entry in journal {
        count += one_if(has_fate(entry, fate));
    }
    count
}

fn one_if(there: bool) -> usize
    ensures { result ≡ (if there then 1 else 0) }
{
    if there { 1 } else { 0 }
}

#[tactic(auto, unfolding(crate::specs::Migrations::has_fate))]
fn has_fate(entry: &CaseEntry, fate: Fate) -> bool
    ensures { result ≡ has_fate fate entry.now }
{
    is_migration(&entry.event) && says(&entry.reply, fate)
}

fn says(reply: &Reply, fate: Fate) -> bool
    ensures { result ≡ says fate reply.now }
{
    match fate {
        Fate::Migrated => says_migrated(reply),
        Fate::Blocked => says_blocked(reply),
        Fate::Overlap => says_overlap(reply),
    }
}

// A change may be blocked, too, and is no migration.
fn is_migration(event: &Event) -> bool
    ensures { result ≡ is_migration event.now }
{
    matches!(event, Event::Migrate(_))
}

fn says_migrated(reply: &Reply) -> bool
    ensures { result ≡ says_migrated reply.now }
{
    matches!(reply, Reply::Migrated(_))
}

fn says_blocked(reply: &Reply) -> bool
    ensures { result ≡ says_blocked reply.now }
{
    matches!(reply, Reply::Blocked(..))
}

fn says_overlap(reply: &Reply) -> bool
    ensures { result ≡ says_overlap reply.now }
{
    matches!(reply, Reply::Overlap(_))
}
