// Which cells were called.
ghost use Rattle.std.specs.Prelude.{◌≡◌, true, length, slice_set, IfOk};
ghost use Rattle.adept_server.specs.{Noting.{AllCalled, IsCalledOf, NoneLowered}, Vecs.lists_of};

use crate::servers::Server;
use std::alloc::Global;
use turn_cell::NoMemory;
use wsm_sound::CaseId;

/// A flag for each cell of a server. Where it is lowered, no desk has called the cell since all have met.
#[derive(Drop)]
pub struct CallFlags {
    pub(crate) kinds: Vec<bool>,
    pub(crate) cases: Vec<Vec<bool>>,
}

impl CallFlags {
    ghost use Rattle.std.specs.Prelude.{◌≡◌, ◌≢◌};
    ghost use Rattle.adept_server.specs.Noting.{IsCalmCase, IsCalmKind, rows_of};

    /// No cell was called since.
    pub fn forget(&mut self)
        ensures { rows_of self.new ≡ rows_of self.old }
    {
        self.kinds.fill(false);
        for row in &mut self.cases {
            row.fill(false);
        }
    }

    /// A type was called.
    pub fn note_kind(&mut self, type_no: u32)
        ensures rows { rows_of self.new ≡ rows_of self.old }
        ensures kinds { (t : _) → IsCalmKind self.new t → IsCalmKind self.old t × (t ≢ type_no) }
        ensures cases { (c : _) → IsCalmCase self.new c → IsCalmCase self.old c }
    {
        raise(&mut self.kinds, type_no as usize);
    }

    /// A case was called.
    pub fn note_case(&mut self, id: CaseId)
        ensures rows { rows_of self.new ≡ rows_of self.old }
        ensures kinds { (t : _) → IsCalmKind self.new t → IsCalmKind self.old t }
        ensures cases { (c : _) → IsCalmCase self.new c → IsCalmCase self.old c × (c ≢ id) }
    {
        let index = id.type_no as usize;
        if index < self.cases.len() {
            raise(&mut self.cases[index], id.place as usize);
        }
    }

    /// All cases of a type were called.
    pub fn note_cases(&mut self, type_no: u32)
        ensures rows { rows_of self.new ≡ rows_of self.old }
        ensures kinds { (t : _) → IsCalmKind self.new t → IsCalmKind self.old t }
        ensures cases { (c : _) → IsCalmCase self.new c → IsCalmCase self.old c × (c.type_no ≢ type_no) }
    {
        let index = type_no as usize;
        if index < self.cases.len() {
            self.cases[index].fill(true);
        }
    }
}

// Raises the flag at a place.
fn raise(flags: &mut Vec<bool>, place: usize)
    ensures { flags.new.items ≡ slice_set flags.old.items place true }
{
    if place < flags.len() {
        flags[place] = true;
    }
}

// For each row a row of raised flags.
fn raised_rows<X>(alloc: Global, rows: &[Vec<X>]) -> Result<Vec<Vec<bool>>, NoMemory>
    ensures rows { IfOk result (λ flags. length flags.items ≡ length rows.now) }
    ensures raised { IfOk result (λ flags. NoneLowered (lists_of flags.items)) }
{
    let mut flags = Vec::with_capacity(alloc, rows.len())?;
    for row in rows {
        flags.push_reserved(vec![in alloc; true; row.len()]?);
    }
    Ok(flags)
}

impl Server {
    /// Flags for the cells of the server, all of them raised.
    pub fn all_called(&self, alloc: Global) -> Result<CallFlags, NoMemory>
        ensures rows { IfOk result (λ called. IsCalledOf self.now called) }
        ensures raised { IfOk result (λ called. AllCalled called) }
    {
        Ok(CallFlags {
            kinds: vec![in alloc; true; self.kinds.len()]?,
            cases: raised_rows(alloc, &self.cases)?,
        })
    }
}
