// The keys by which tables order their rows.
ghost use Rattle.std.specs.Prelude.{◌≡◌, ℕ};
ghost use Rattle.wsm_lists.specs.Keys.{both, first, first_two};

use crate::values::ElementKind;
use std::marker::PhantomData;

/// What orders the rows of a table: a key of two numbers, by the first and then by the second.
pub trait Keys {
    type Row: Drop;

    ghost key_of: { Self.Row → ℕ × ℕ };

    fn key(row: &Self::Row) -> (u32, u32)
        ensures { result ≡ key_of row.now };
}

/// Edges by both of their ends.
pub struct ByEdge;

impl Keys for ByEdge {
    type Row = (u32, u32);

    ghost key_of = { both };

    fn key(row: &(u32, u32)) -> (u32, u32) {
        *row
    }
}

/// Rows of a node and another number, by the node.
pub struct ByNode;

impl Keys for ByNode {
    type Row = (u32, u32);

    ghost key_of = { first };

    fn key(row: &(u32, u32)) -> (u32, u32) {
        (row.0, 0)
    }
}

/// Elements by their number.
pub struct ByElement;

impl Keys for ByElement {
    type Row = (u32, ElementKind);

    ghost key_of = { first };

    fn key(row: &(u32, ElementKind)) -> (u32, u32) {
        (row.0, 0)
    }
}

/// Reads by node and element.
pub struct ByRead;

impl Keys for ByRead {
    type Row = (u32, u32, bool);

    ghost key_of = { first_two };

    fn key(row: &(u32, u32, bool)) -> (u32, u32) {
        (row.0, row.1)
    }
}

/// Rows with a number in front, by that number.
pub struct ByFirst<T> {
    of: PhantomData<T>,
}

impl<T: Drop> Keys for ByFirst<T> {
    type Row = (u32, T);

    ghost key_of = { first };

    fn key(row: &(u32, T)) -> (u32, u32) {
        (row.0, 0)
    }
}
