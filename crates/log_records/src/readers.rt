// Reading the records of a log.
ghost use Rattle.std.specs.Prelude.{◌≡◌, true, false, [], ◌∷◌, IfOk};
ghost use Rattle.csv.specs.Records.{fields_of};
ghost use Rattle.log_records.specs.Records.{records_of};

use crate::NoMemory;
use csv::{ByteRecord, Reader, ReaderBuilder};
use std::alloc::{AllocError, Global};
use std::marker::Model;

/// The records of a log that are left to read, as `csv` reads them: of any length, and none of them a header.
#[derive(Drop)]
pub struct LogReader<'a> {
    reader: Option<Reader<&'a [u8]>>,
}

impl<'a> Model for LogReader<'a> {
    ghost use Rattle.std.specs.Prelude.{ℕ, List, IfSome};
    ghost use Rattle.log_records.specs.Records.{IsGoing, all_left};

    ghost Value = { List (List (List ℕ)) };

    ghost view = { λ a. all_left a.reader };

    ghost invariant = { λ a. IfSome a.reader IsGoing };
}

impl<'a> LogReader<'a> {
    /// A reader of all records of the log.
    pub fn new(alloc: Global, log: &'a [u8]) -> LogReader<'a>
        ensures { result ≡ records_of log.now }
    {
        let reader = ReaderBuilder::new()
            .has_headers(false)
            .flexible(true)
            .from_reader(alloc, log);
        LogReader {
            reader: Some(reader),
        }
    }

    /// Reads the next record into `row`, and answers whether there was one. After an error there are no more.
    pub fn next(&mut self, row: &mut ByteRecord) -> Result<bool, NoMemory>
        ensures found { IfOk result (λ found. found ≡ true → self.old ≡ fields_of row.new ∷ self.new) }
        ensures ended { IfOk result (λ found. found ≡ false → self.old ≡ []) }
    {
        let Some(reader) = &mut self.reader else {
            return Ok(false);
        };
        if let Ok(found) = reader.read_byte_record(row) {
            return Ok(found);
        }
        self.reader = None;
        Err(AllocError)
    }
}
