// Timed marks.

/// At which positions of a trail the facts of a node first hold; position 0 is before all entries. `choice` is that of its end.
#[derive(Clone, Copy, PartialEq, Eq, Debug)]
pub struct Mark {
    pub ready_at: Option<u32>,
    pub skipped_at: Option<u32>,
    pub started: Option<u32>,
    pub ended: Option<u32>,
    pub choice: Option<u16>,
    pub again: Option<u32>,
}
