// How far the cases of a log go.
ghost use Rattle.std.specs.Prelude.{◌≡◌, ◌≤◌, [], Ok, length, IfOk, IfErr};
ghost use Rattle.file_model.specs.Sizes.{HasNumbers};
ghost use Rattle.log_fit.specs.{Fit.{fit, fits_told}, Outcomes.Tells};
ghost use Rattle.log_fit.specs.declared.fits.FitRefusal.TheVariants as refusal;
ghost use Rattle.log_records.specs.Told.{told_from};

use crate::fits::{FitRefusal, Fits};
use crate::tables::CaseTable;
use csv::ByteRecord;
use file_model::File;
use log_records::{LogReader, NamePlaces, RecordFault, WrongRecord, is_head, record_of};
use std::alloc::Global;
use wsm_sound::Version;

fn wrong(index: u32, why: RecordFault) -> FitRefusal
    ensures { result ≡ refusal.Wrong (record { index = index; why = why }) }
{
    FitRefusal::Wrong(WrongRecord { index, why })
}

// How far the cases go that the records behind the first name.
fn fit_behind(
    alloc: Global,
    version: &Version,
    nodes: &NamePlaces<'_>,
    elements: &NamePlaces<'_>,
    mut reader: LogReader<'_>,
) -> Result<Fits, FitRefusal>
    requires { length reader ≤ 33554433 }
    ensures ok { IfOk result (λ fits. fits_told version.now (told_from nodes.now elements.now 2 [] reader.entry) ≡ Ok fits) }
    ensures bad { IfErr result (λ refusal. Tells (fits_told version.now (told_from nodes.now elements.now 2 [] reader.entry)) refusal) }
{
    let mut table = CaseTable::new(alloc);
    let mut row = ByteRecord::new(alloc);
    let mut index = 2;
    while reader.next(&mut row)? {
        let Some(record) = record_of(alloc, nodes, elements, &row)? else {
            return Err(wrong(index, RecordFault::Form));
        };
        if !table.take(alloc, version, record)? {
            return Err(wrong(index, RecordFault::Cases));
        }
        index += 1;
    }
    Ok(table.into_fits(alloc)?)
}

/// How far the cases of a log go on a version, where nodes and elements have the names of the file. A log is CSV; its first
/// record names the fields, and each other is an event of a case. The first record that is not of the form, or that is of
/// the 4,097th case, is told; so is 1 where the log has none.
pub fn fit(alloc: Global, version: &Version, file: &File, log: &[u8]) -> Result<Fits, FitRefusal>
    requires numbers { HasNumbers file.now }
    requires log { length log.now ≤ 33554432 }
    ensures ok { IfOk result (λ fits. fit version.now file.now log.now ≡ Ok fits) }
    ensures bad { IfErr result (λ refusal. Tells (fit version.now file.now log.now) refusal) }
{
    let nodes = NamePlaces::new(alloc, &file.nodes)?;
    let elements = NamePlaces::new(alloc, &file.elements)?;
    let mut reader = LogReader::new(alloc, log);
    let mut row = ByteRecord::new(alloc);
    if !reader.next(&mut row)? {
        return Err(wrong(1, RecordFault::Head));
    }
    if !is_head(&row) {
        return Err(wrong(1, RecordFault::Head));
    }
    fit_behind(alloc, version, &nodes, &elements, reader)
}
