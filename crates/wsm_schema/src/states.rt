// States of nodes.
ghost use Rattle.wsm_schema.specs.Rules.{by_node};

use wsm_lists::{Keys, Table};

/// The states of a node.
#[derive(Clone, Copy, PartialEq, Eq, Debug)]
pub enum State {
    NotActivated,
    Activated,
    Running,
    Completed,
    Skipped,
}

/// What an edge signals: true or false.
#[derive(Clone, Copy, PartialEq, Eq, Debug)]
pub enum Flow {
    Yes,
    No,
}

/// What the signals of its edges make of a node.
#[derive(Clone, Copy, PartialEq, Eq, Debug)]
pub enum Verdict {
    Waiting,
    Ready,
    Skipped,
}

/// The state of a node, and the choice of its end.
#[derive(Clone, Copy, PartialEq, Eq, Debug)]
pub struct Spot {
    pub node: u32,
    pub state: State,
    pub choice: Option<u16>,
}

/// Spots by their node.
pub struct BySpot;

impl Keys for BySpot {
    type Row = Spot;

    ghost key_of = { by_node };

    fn key(row: &Spot) -> (u32, u32) {
        (row.node, 0)
    }
}

/// The spots of nodes, ascending by node.
pub type Marking = Table<BySpot>;
