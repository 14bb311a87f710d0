// The cases of a log while its records are taken.
ghost use Rattle.std.specs.Prelude.{◌≡◌, [], ◌≤◌, true, not, length, map, IfOk, OnOk};
ghost use Rattle.file_limits.specs.declared.TheConstants.{MAX_CASES};
ghost use Rattle.file_names.specs.Names.{noted};
ghost use Rattle.log_fit.specs.{Progress.fit_of, Rows.{AreFew, TakesRecord, rows_with}};
ghost use Rattle.log_records.specs.Told.{are_too_many};

use crate::fits::{CaseFit, Fits};
use crate::progress::Progress;
use file_limits::MAX_CASES;
use file_model::Name64;
use file_names::NameTable;
use log_records::LogRecord;
use std::alloc::Global;
use wsm_lists::NoMemory;
use wsm_sound::Version;

/// The cases in the order of their first records, found by their names.
#[derive(Drop)]
pub(crate) struct CaseTable {
    names: NameTable,
    rows: Vec<Progress>,
}

// The rows with one for the case at this place, which is there or comes last.
fn add_row(
    rows: &mut Vec<Progress>,
    alloc: Global,
    version: &Version,
    place: usize,
    name: Name64,
) -> Result<(), NoMemory>
    ensures { OnOk result (rows.new.items ≡ rows_with version.now rows.old.items place name) }
{
    if place < rows.len() {
        return Ok(());
    }
    rows.push(Progress::new(alloc, version, name)?)?;
    Ok(())
}

impl CaseTable {
    /// No cases.
    pub(crate) fn new(alloc: Global) -> CaseTable
        ensures names { result.names ≡ [] }
        ensures rows { result.rows.items ≡ [] }
    {
        CaseTable {
            names: NameTable::new(alloc),
            rows: Vec::new(alloc),
        }
    }

    /// One record more, and whether it is not of one case too many.
    pub(crate) fn take(
        &mut self,
        alloc: Global,
        version: &Version,
        logged: LogRecord,
    ) -> Result<bool, NoMemory>
        requires names { length self.old.names ≤ MAX_CASES }
        requires table { AreFew version.now self.old.names self.old.rows.items }
        ensures room { IfOk result (λ ok. are_too_many (noted self.old.names logged.case) ≡ not ok) }
        ensures names { IfOk result (λ ok. ok ≡ true → self.new.names ≡ noted self.old.names logged.case) }
        ensures rows { IfOk result (λ ok. ok ≡ true → TakesRecord version.now logged self.old.names self.old.rows.items self.new.names self.new.rows.items) }
    {
        let place = self.names.note(alloc, logged.case.word())? as usize;
        if self.names.len() > MAX_CASES {
            return Ok(false);
        }
        let LogRecord { case, event } = logged;
        add_row(&mut self.rows, alloc, version, place, case)?;
        self.rows[place].take(alloc, version, event)?;
        Ok(true)
    }

    /// How far each case went.
    pub(crate) fn into_fits(self, alloc: Global) -> Result<Fits, NoMemory>
        ensures { IfOk result (λ fits. fits ≡ map fit_of self.rows.items) }
    {
        let fits: Vec<CaseFit> = self
            .rows
            .into_iter()
            .map(Progress::into_fit)
            .collect(alloc)?;
        Ok(Fits::from_vec(fits))
    }
}
