// Cases while they are declared.
ghost use Rattle.std.specs.Prelude.{◌≡◌, ◌<◌, ◌^◌, [], ◌∷◌, ◌++◌, ◌+◌, ℕ, length, take, slice_index, OnOk};
ghost use Rattle.file_names.specs.Names.{noted};
ghost use Rattle.file_model.specs.{CaseCounts.{cases_of_type, AreCounted}, ShortForms.IsShort};

use crate::files::{CaseDecl, CaseDecls};
use file_names::{DeclaredList, NameTable};
use file_words::NameWord;
use std::alloc::Global;
use std::marker::Model;
use wsm_lists::NoMemory;

/// Cases in order of declaration, found by their names and counted by their types.
#[derive(Drop)]
pub struct CaseTable {
    list: DeclaredList<CaseDecl>,
    counts: Vec<u32>,
}

impl Model for CaseTable {
    ghost use Rattle.file_names.specs.declared.declared.DeclaredList.{DeclaredList};
    ghost use Rattle.file_model.specs.declared.files.CaseDecl.{CaseDecl};
    ghost use Rattle.file_model.specs.CaseCounts.{AreCounted};

    ghost Value = { DeclaredList CaseDecl };

    ghost view = { λ a. a.list };

    ghost invariant = { λ a. AreCounted a.counts.items a.list.items };
}

// A count for the type with this number, and for each before it: what has no count yet gets 0.
#[tactic(auto, using(crate::proofs::CountedCases::zero_behind))]
fn count_up_to(counts: &mut Vec<u32>, type_no: u32) -> Result<(), NoMemory>
    ensures within { OnOk result (type_no < length counts.new.items) }
    ensures same { (t : ℕ) → slice_index counts.new.items t ≡ slice_index counts.old.items t }
{
    while counts.len() <= type_no as usize {
        counts.push(0)?;
    }
    Ok(())
}

// The counts without the cases behind the first so many.
fn uncount(counts: &mut Vec<u32>, cases: &[CaseDecl], len: usize)
    requires { AreCounted counts.old.items cases.now }
    ensures { AreCounted counts.new.items (take len cases.now) }
{
    let mut left = cases.len();
    while left > len {
        left -= 1;
        let type_no = cases[left].id.type_no as usize;
        counts[type_no] -= 1;
    }
}

impl CaseTable {
    /// No cases.
    pub fn new(alloc: Global) -> CaseTable
        ensures { result ≡ record { names = []; items = [] } }
    {
        CaseTable {
            list: DeclaredList::new(alloc),
            counts: Vec::new(alloc),
        }
    }

    /// The names of the cases.
    pub fn names(&self) -> &NameTable
        ensures { result.now ≡ self.now.names }
    {
        &self.list.names
    }

    /// The cases in order of declaration.
    pub fn items(&self) -> &CaseDecls
        ensures { result.now ≡ self.now.items }
    {
        &self.list.items
    }

    /// The cases in order of declaration.
    pub fn into_items(self) -> CaseDecls
        ensures { result ≡ self.items }
    {
        self.list.items
    }

    /// How many cases of a type were declared.
    pub fn count(&self, type_no: u32) -> u32
        ensures { result ≡ cases_of_type type_no self.now.items }
    {
        match self.counts.get(type_no as usize) {
            None => 0,
            Some(count) => *count,
        }
    }

    /// One more case.
    #[tactic(auto, using(crate::proofs::CountedCases::one_counted, crate::proofs::CountedCases::few_of_type))]
    pub fn push(
        &mut self,
        alloc: Global,
        name: NameWord<'_>,
        case: CaseDecl,
    ) -> Result<(), NoMemory>
        requires short { IsShort name.bytes.now }
        requires room { length self.old.names + 1 < 2 ^ 32 }
        requires cases { length self.old.items + 1 < 2 ^ 32 }
        ensures { OnOk result (self.new ≡ record { names = noted self.old.names name.entry.bytes.now; items = self.old.items ++ case ∷ [] }) }
    {
        let index = case.id.type_no as usize;
        count_up_to(&mut self.counts, case.id.type_no)?;
        let count = self.counts[index] + 1;
        self.list.names.note(alloc, name)?;
        self.list.items.push(case)?;
        self.counts[index] = count;
        Ok(())
    }

    /// Keeps the first so many cases alone.
    pub fn truncate(&mut self, alloc: Global, len: usize)
        ensures { self.new ≡ record { names = take len self.old.names; items = take len self.old.items } }
    {
        uncount(&mut self.counts, self.list.items.as_slice(), len);
        self.list.truncate(alloc, len);
    }
}
