// What is wrong with a log.

/// What is wrong with a record of a log.
#[derive(Clone, Copy, PartialEq, Eq, Debug)]
pub enum RecordFault {
    /// It is the first, and does not name the fields; or there is none.
    Head,
    /// It is not of the form.
    Form,
    /// It brings one case too many.
    Cases,
}

/// The first wrong record of a log.
#[derive(Clone, Copy, PartialEq, Eq, Debug)]
pub struct WrongRecord {
    /// Its place, from 1 with the record that names the fields.
    pub index: u32,
    pub why: RecordFault,
}
