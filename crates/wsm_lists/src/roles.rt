// The roles of nodes.
ghost use Rattle.std.specs.{Prelude.{◌≡◌, ◌<◌, ℕ, [], length, slice_get, OnErr, OnOk, IfOk}, Option.option_copied, Slice.Iter.iter_rest};
ghost use Rattle.wsm_lists.specs.{Keys.{put_role, role_in, HasRoles}, Rows.AllRows};

use crate::NoMemory;
use crate::keys::ByNode;
use crate::tables::Table;
use std::alloc::Global;
use std::marker::Model;
use std::slice;

/// The nodes with a role, each with the role's number. Everybody may work on the others, which have role 0.
#[derive(Drop)]
pub struct Roles {
    rows: Table<ByNode>,
}

impl Model for Roles {
    ghost use Rattle.std.specs.Prelude.{ℕ, List, ◌<◌};
    ghost use Rattle.wsm_lists.specs.Rows.{AllRows};

    ghost Value = { List (ℕ × ℕ) };

    ghost view = { λ a. a.rows };

    ghost invariant = { λ a. AllRows (λ (r : ℕ × ℕ). 0 < r.1) a.rows };
}

impl Roles {
    /// No node has a role.
    pub fn new(alloc: Global) -> Roles
        ensures { result ≡ [] }
    {
        Roles {
            rows: Table::new(alloc),
        }
    }

    // The roles that these rows list.
    pub(crate) fn of_rows(rows: Table<ByNode>) -> Roles
        requires { AllRows (λ (r : ℕ × ℕ). 0 < r.1) rows }
        ensures { result ≡ rows }
    {
        Roles { rows }
    }

    /// The number of nodes with a role.
    pub fn len(&self) -> usize
        ensures { result ≡ length self.now }
    {
        self.rows.len()
    }

    /// The node at an index, with its role.
    pub fn get(&self, index: usize) -> Option<&(u32, u32)>
        ensures { option_copied result ≡ slice_get self.now index }
    {
        self.rows.get(index)
    }

    /// The nodes with a role one after another, each with it.
    pub fn iter(&self) -> slice::Iter<'_, (u32, u32)>
        ensures { iter_rest result ≡ self.now }
    {
        self.rows.iter()
    }

    /// All nodes with a role, ascending by node.
    pub fn as_slice(&self) -> &[(u32, u32)]
        ensures rows { result.now ≡ self.now }
        ensures roles { HasRoles result.now }
    {
        self.rows.as_slice()
    }

    /// The role of a node, which is 0 where none is listed.
    pub fn role(&self, node: u32) -> u32
        ensures { result ≡ role_in node self.now }
    {
        match self.rows.find((node, 0)) {
            Some(row) => row.1,
            None => 0,
        }
    }

    /// The role of the node is then `role`. Role 0 takes the node from the list.
    pub fn put(&mut self, node: u32, role: u32) -> Result<(), NoMemory>
        ensures ok { OnOk result (self.new ≡ put_role node role self.old) }
        ensures err { OnErr result (self.new ≡ self.old) }
    {
        if role == 0 {
            self.rows.remove((node, 0));
            return Ok(());
        }
        self.rows.set((node, role))
    }

    /// An equal list.
    pub fn copy(&self, alloc: Global) -> Result<Roles, NoMemory>
        ensures { IfOk result (λ new. new ≡ self.now) }
    {
        Ok(Roles {
            rows: self.rows.copy(alloc)?,
        })
    }
}
