// Work items.
ghost use Rattle.std.specs.Prelude.{◌≡◌};
ghost use Rattle.wsm_items.specs.WorkItems.{is_held_by, is_offered_to, item_node};

use wsm_lists::Listing;

/// A node that waits for somebody.
#[derive(Clone, Copy, PartialEq, Eq, Debug)]
pub enum Item {
    /// The node may be started by who has the role; by everybody where the role is 0.
    Offered { node: u32, role: u32 },
    /// The node was started by this user, who may end it.
    Held { node: u32, user: u32 },
}

/// Work items in ascending order of their nodes.
pub type ItemList = Listing<Item>;

impl Item {
    /// The node that waits.
    pub fn node(&self) -> u32
        ensures { result ≡ item_node self.now }
    {
        match *self {
            Item::Offered { node, .. } => node,
            Item::Held { node, .. } => node,
        }
    }

    /// Whether it is offered to that role itself.
    pub fn is_offered_to(&self, role: u32) -> bool
        ensures { result ≡ is_offered_to role self.now }
    {
        match *self {
            Item::Offered { role: offered, .. } => offered == role,
            Item::Held { .. } => false,
        }
    }

    /// Whether that user holds it.
    pub fn is_held_by(&self, user: u32) -> bool
        ensures { result ≡ is_held_by user self.now }
    {
        match *self {
            Item::Offered { .. } => false,
            Item::Held { user: holder, .. } => holder == user,
        }
    }
}
