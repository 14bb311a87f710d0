// Writing how far cases go.
ghost use Rattle.std.specs.{Prelude.{◌≡◌, ◌++◌, codes, decimal, flat_map, Ok}, Option.option_copied};
ghost use Rattle.adept_io.specs.Written.{Gives};
ghost use Rattle.log_fit.specs.{Endings.IsAnswered, Table.{answer_text, fit_line, holder, next_text, table}};

use crate::fits::{CaseFit, Fits};
use crate::unfit::Unfit;
use adept_io::{Sink, Text, put, put_number, write_gathered};
use case_core::Reply;
use file_model::File;
use report_text::put_reply;

// The table of the fits of a log.
#[derive(Drop)]
struct Table<'a> {
    file: &'a File,
    fits: &'a Fits,
}

impl Text for Table<'_> {
    ghost bytes = { λ all. table all.file.now all.fits.now };

    fn put<K: Sink>(&self, sink: &mut K, ok: bool) -> bool {
        let ok = put(sink, ok, b"case,events,fits,next\n");
        put_fits(sink, ok, self.file, self.fits.as_slice())
    }
}

/// Writes a row for each case. Takes no memory.
pub(crate) fn write_fits<K: Sink>(file: &File, fits: &Fits, sink: &mut K) -> Result<(), Unfit>
    ensures { IsAnswered K.written K.faults (Ok (table file.now fits.now)) sink.old sink.new result }
{
    match write_gathered(sink, &Table { file, fits }) {
        Ok(()) => Ok(()),
        Err(_) => Err(Unfit::Unwritten),
    }
}

fn put_fits<K: Sink>(sink: &mut K, ok: bool, file: &File, fits: &[CaseFit]) -> bool
    ensures { Gives K.written K.faults ok result sink.old sink.new (flat_map (fit_line file.now) fits.now) }
{
    let mut well = ok;
    for fit in fits {
        well = put_fit(sink, well, file, fit);
    }
    well
}

fn put_fit<K: Sink>(sink: &mut K, ok: bool, file: &File, fit: &CaseFit) -> bool
    ensures { Gives K.written K.faults ok result sink.old sink.new (fit_line file.now fit.now) }
{
    let ok = put(sink, ok, fit.case.bytes());
    let ok = put(sink, ok, b",");
    let ok = put_number(sink, ok, u64::from(fit.events));
    let ok = put(sink, ok, b",");
    let ok = put_number(sink, ok, u64::from(fit.fits));
    let ok = put(sink, ok, b",");
    let ok = put_next(sink, ok, file, fit.next.as_ref());
    put(sink, ok, b"\n")
}

#[tactic(auto, using(adept_io::proofs::Sent::gives_nothing))]
fn put_next<K: Sink>(sink: &mut K, ok: bool, file: &File, next: Option<&Reply>) -> bool
    ensures { Gives K.written K.faults ok result sink.old sink.new (next_text file.now (option_copied next.entry)) }
{
    match next {
        None => ok,
        Some(reply) => put_answer(sink, ok, file, reply),
    }
}

fn put_answer<K: Sink>(sink: &mut K, ok: bool, file: &File, reply: &Reply) -> bool
    ensures { Gives K.written K.faults ok result sink.old sink.new (answer_text file.now reply.now) }
{
    match holder(reply) {
        Some(user) => put_holder(sink, ok, user),
        None => put_reply(sink, ok, file, reply),
    }
}

// The user who holds what the event was on, where the answer tells that it is another.
fn holder(reply: &Reply) -> Option<u32>
    ensures { result ≡ holder reply.now }
{
    match reply {
        Reply::NotHolder(user) => Some(*user),
        _ => None,
    }
}

fn put_holder<K: Sink>(sink: &mut K, ok: bool, user: u32) -> bool
    ensures { Gives K.written K.faults ok result sink.old sink.new (codes "not-holder " ++ decimal user) }
{
    let ok = put(sink, ok, b"not-holder ");
    put_number(sink, ok, u64::from(user))
}
