// Room for the journals of a server.
use std::alloc::Global;

/// How many entries the journals of types, and of the cases of each type, have room for at first. It is none for those that are
/// not named.
#[derive(Drop)]
pub struct Rooms {
    pub kinds: Vec<usize>,
    pub cases: Vec<Vec<usize>>,
}

impl Rooms {
    /// No room. It takes no memory.
    pub fn none(alloc: Global) -> Rooms {
        Rooms {
            kinds: Vec::new(alloc),
            cases: Vec::new(alloc),
        }
    }

    // Those of a type's cases, by place.
    pub(crate) fn of_cases(&self, type_no: usize) -> &[usize] {
        match self.cases.get(type_no) {
            None => &[],
            Some(rooms) => rooms,
        }
    }
}
