// What a record of a log says.
use file_names::Name64;
use wsm_lists::Writes;

/// What was done to a node of a case. None stands for a node that the file does not name.
#[derive(Drop)]
pub enum LogEvent {
    /// A user started it.
    Start {
        node: Option<u32>,
        user: u32,
    },
    /// A user ended it, with writes in the order given and with a choice.
    End {
        node: Option<u32>,
        user: u32,
        writes: Writes,
        choice: Option<u16>,
    },
}

/// A record of a log.
#[derive(Drop)]
pub struct LogRecord {
    pub case: Name64,
    pub event: LogEvent,
}
