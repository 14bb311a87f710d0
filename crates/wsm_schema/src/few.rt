// Lists of which most have one item or none.
ghost use Rattle.std.specs.{Prelude.{◌≡◌, [], ◌∷◌, IfOk, IsTrue, ◌↔◌}, Cmp.Lexicographic.pointwise, Slice.Iter.iter_rest};

use std::alloc::Global;
use std::marker::Model;
use std::slice;
use wsm_lists::NoMemory;

/// Items in order. One item or none takes no memory, and more of them are kept behind one pointer, so that a list without items is small.
#[derive(Drop)]
pub struct Few<T: Drop> {
    held: Held<T>,
}

#[derive(Drop)]
enum Held<T: Drop> {
    Empty,
    One([T; 1]),
    Many(Box<Vec<T>>),
}

impl<T: Drop> Model for Few<T> {
    ghost use Rattle.std.specs.Prelude.{List};

    ghost Value = { List T };

    ghost use Rattle.wsm_schema.specs.Few.{items_of};

    ghost view = { λ a. items_of a.held };
}

impl<T: Drop> Few<T> {
    /// The list without items.
    pub fn new() -> Self
        ensures { result ≡ [] }
    {
        Few { held: Held::Empty }
    }

    /// The list of one item.
    pub fn of_one(item: T) -> Self
        ensures { result ≡ item ∷ [] }
    {
        Few {
            held: Held::One([item]),
        }
    }

    /// The items of a vector, which takes memory for the pointer to it alone.
    pub fn from_vec(alloc: Global, items: Vec<T>) -> Result<Self, NoMemory>
        ensures { IfOk result (λ new. new ≡ items.items) }
    {
        Ok(Few {
            held: Held::Many(Box::new(alloc, items)?),
        })
    }

    /// Whether there are no items.
    pub fn is_empty(&self) -> bool
        ensures { IsTrue result ↔ (self.now ≡ []) }
    {
        self.as_slice().is_empty()
    }

    /// All items.
    pub fn as_slice(&self) -> &[T]
        ensures { result.now ≡ self.now }
    {
        match &self.held {
            Held::Empty => &[],
            Held::One(item) => item,
            Held::Many(items) => items.as_slice(),
        }
    }

    /// The items one after another.
    pub fn iter(&self) -> slice::Iter<'_, T>
        ensures { iter_rest result ≡ self.now }
    {
        self.as_slice().iter()
    }
}

impl<T: PartialEq + Drop> Few<T> {
    /// Whether two lists have equal items.
    pub fn is_same(&self, other: &Few<T>) -> bool
        ensures { result ≡ pointwise T.eq self.now other.now }
    {
        match (&self.held, &other.held) {
            (Held::Empty, Held::Empty) => true,
            (Held::One([one]), Held::One([other])) => one == other,
            _ => *self.as_slice() == *other.as_slice(),
        }
    }
}
