// What operations change or use.
ghost use Rattle.std.specs.{Prelude.◌≡◌, Cmp.partial_order_from_own_ties, Cmp.Rules.comparing, Ordering.as_partial_cmp};
ghost use Rattle.std.proofs.Common.{rules};
ghost use Rattle.wsm_foot.specs.Order.{name_kind, first_number, second_number, name_cmp};

use std::cmp::Ordering;

/// Something of a schema that an operation changes or uses. Names are in the order of their kinds as they stand here, and those
/// of one kind in the order of their numbers.
#[derive(Clone, Copy, PartialEq, Eq, Debug)]
pub enum Name {
    Node(u32),
    /// The gap directly behind a node.
    GapAfter(u32),
    /// The gap at the head of a split's branch.
    GapHead(u32, u16),
    /// A sync edge from a node to another.
    Sync(u32, u32),
    /// A node's read of an element.
    Read(u32, u32),
    /// A node's write of an element.
    Write(u32, u32),
    Element(u32),
    /// The role of a node.
    Role(u32),
}

impl Name {
    // The place of its kind.
    fn kind(&self) -> u8
        ensures { result ≡ name_kind self.now }
    {
        match self {
            Name::Node(_) => 0,
            Name::GapAfter(_) => 1,
            Name::GapHead(..) => 2,
            Name::Sync(..) => 3,
            Name::Read(..) => 4,
            Name::Write(..) => 5,
            Name::Element(_) => 6,
            Name::Role(_) => 7,
        }
    }

    // Its first number.
    fn first(&self) -> u32
        ensures { result ≡ first_number self.now }
    {
        match self {
            Name::Node(node) | Name::GapAfter(node) | Name::Role(node) => *node,
            Name::GapHead(split, _) => *split,
            Name::Sync(source, _) => *source,
            Name::Read(node, _) | Name::Write(node, _) => *node,
            Name::Element(element) => *element,
        }
    }

    // Its second number, or 0 where it has none.
    fn second(&self) -> u32
        ensures { result ≡ second_number self.now }
    {
        match self {
            Name::Node(_) | Name::GapAfter(_) | Name::Element(_) | Name::Role(_) => 0,
            Name::GapHead(_, code) => u32::from(*code),
            Name::Sync(_, target) => *target,
            Name::Read(_, element) | Name::Write(_, element) => *element,
        }
    }
}

impl Ord for Name {
    ghost cmp = { name_cmp };

    ghost total = { Prim.search (comparing, rules) };

    ghost matches_partial_cmp = { Prim.search (comparing, rules) };

    ghost matches_eq = { Prim.search (comparing, rules) };

    fn cmp(&self, other: &Name) -> Ordering {
        let kinds = self.kind().cmp(&other.kind());
        let firsts = self.first().cmp(&other.first());
        kinds.then(firsts.then(self.second().cmp(&other.second())))
    }
}

impl PartialOrd for Name {
    ghost partial_cmp = { as_partial_cmp name_cmp };

    ghost laws = { partial_order_from_own_ties (Prim.search (comparing, rules)) (Prim.search (comparing, rules)) };

    fn partial_cmp(&self, other: &Name) -> Option<Ordering> {
        Some(self.cmp(other))
    }
}
