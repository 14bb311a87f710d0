// Words, before the names of nodes and elements are looked up.

/// A word of a fault.
#[derive(Clone, Copy)]
pub enum FaultWord {
    /// What is wrong, or which limit.
    Said(&'static [u8]),
    /// A number.
    Number(u32),
    /// The name of a node.
    Node(u32),
    /// The name of an element.
    Element(u32),
}

/// The words of a fault, of which there are at most four.
#[derive(Clone, Copy)]
pub struct FaultWords {
    pub first: FaultWord,
    pub second: Option<FaultWord>,
    pub third: Option<FaultWord>,
    pub fourth: Option<FaultWord>,
}
