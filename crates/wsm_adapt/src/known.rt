// The marks that are known while a change is walked.
ghost use Rattle.std.specs.{Prelude.{◌≡◌, ℕ, [], reverse, IfOk, OnOk}, Option.option_copied};
ghost use Rattle.wsm_adapt.specs.Border.{is_known};
ghost use Rattle.wsm_lists.specs.{ByNumber.item_at, Keys.first, Rows.put_row};

use std::alloc::Global;
use std::collections::HashMap;
use std::marker::Model;
use wsm_lists::NoMemory;
use wsm_rules::Mark;
use wsm_settle::MarkRows;

// So many rows are searched one by one, which costs less than a hash.
const FEW: usize = 8;

/// What is known of marks: that a node has a mark, or that it has none. A row is found in a time that does not grow with their number.
#[derive(Drop)]
pub struct Known {
    // The first that were told of, the last one last, while there are no others.
    few: Vec<(u32, Option<Mark>)>,
    others: HashMap<u32, Option<Mark>>,
}

impl Model for Known {
    ghost use Rattle.std.specs.Prelude.{ℕ, List, Option, ◌++◌, reverse};
    ghost use Rattle.wsm_schema.specs.declared.marks.Mark.{Mark};

    ghost Value = { List (ℕ × Option Mark) };

    ghost view = { λ a. a.others.entries ++ reverse a.few.items };
}

impl Known {
    /// Nothing is known, with room for so many nodes.
    pub fn with_room(alloc: Global, nodes: usize) -> Result<Known, NoMemory>
        ensures { IfOk result (λ known. known ≡ []) }
    {
        Ok(Known {
            few: Vec::with_capacity(alloc, FEW)?,
            others: HashMap::with_capacity(alloc, nodes.saturating_sub(FEW))?,
        })
    }

    /// Whether the node has a row.
    pub fn has(&self, node: u32) -> bool
        ensures { result ≡ is_known self.now node }
    {
        self.row(node).is_some()
    }

    /// That is known of the node from now on.
    pub fn set(&mut self, node: u32, mark: Option<Mark>) -> Result<(), NoMemory>
        ensures { OnOk result ((n : ℕ) → item_at n self.new ≡ item_at n (put_row first (node, mark) self.old)) }
    {
        if self.few.len() < FEW && self.others.is_empty() {
            self.few.push((node, mark))?;
        } else {
            self.others.insert(node, mark)?;
        }
        Ok(())
    }
}

impl MarkRows for Known {
    ghost rows = { λ rows. rows };

    fn row(&self, node: u32) -> Option<&Option<Mark>> {
        if self.others.is_empty() {
            return last_row(&self.few, node);
        }
        match self.others.get(&node) {
            None => last_row(&self.few, node),
            Some(mark) => Some(mark),
        }
    }
}

// What the last row of a node tells.
fn last_row(rows: &[(u32, Option<Mark>)], node: u32) -> Option<&Option<Mark>>
    ensures { option_copied result ≡ item_at node (reverse rows.now) }
{
    for place in (0..rows.len()).rev() {
        let row = &rows[place];
        if row.0 == node {
            return Some(&row.1);
        }
    }
    None
}
