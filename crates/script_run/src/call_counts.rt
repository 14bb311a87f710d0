// How many calls a file's lines make of its types and cases, so that a journal is made with the room that it takes.
use file_model::{Act, CaseDecl, File, Line, TypeDecl};
use line_calls::{Cells, cells_of};
use std::alloc::Global;
use wsm_lists::NoMemory;
use wsm_sound::CaseId;

/// The calls of each type and of each case.
#[derive(Drop)]
pub struct CallCounts {
    kinds: Vec<KindCounts>,
}

// The calls of a type, those of each of its cases by their places, and those that are made of all its cases.
#[derive(Drop)]
struct KindCounts {
    own: usize,
    cases: Vec<usize>,
    migrations: usize,
}

impl CallCounts {
    /// The calls that a file's lines make, with the definition of each type.
    pub fn of(alloc: Global, file: &File) -> Result<CallCounts, NoMemory> {
        let mut kinds = defined_once(alloc, file.types.as_slice())?;
        add_cases(file.cases.as_slice(), &mut kinds)?;
        let mut counts = CallCounts { kinds };
        for lines in file.phases.as_slice() {
            counts.note_phase(lines.as_slice());
        }
        Ok(counts)
    }

    /// How many calls are made of a type.
    pub fn of_kind(&self, type_no: u32) -> usize {
        match self.kinds.get(type_no as usize) {
            None => 0,
            Some(kind) => kind.own,
        }
    }

    /// How many calls are made of a case.
    pub fn of_case(&self, id: CaseId) -> usize {
        match self.kinds.get(id.type_no as usize) {
            None => 0,
            Some(kind) => match kind.cases.get(id.place as usize) {
                None => 0,
                Some(count) => count.saturating_add(kind.migrations),
            },
        }
    }

    fn note_phase(&mut self, lines: &[Line]) {
        for line in lines {
            self.note(&line.act);
        }
    }

    fn note(&mut self, act: &Act) {
        match cells_of(act) {
            Cells::Kind(type_no) => self.note_kind(type_no),
            Cells::Case(id) => self.note_case(id),
            Cells::KindAndCase(type_no, id) => {
                self.note_kind(type_no);
                self.note_case(id);
            }
            Cells::KindAndEach(type_no, _) => {
                self.note_kind(type_no);
                self.note_migration(type_no);
            }
        }
    }

    fn note_kind(&mut self, type_no: u32) {
        if let Some(kind) = self.kinds.get_mut(type_no as usize) {
            kind.own = kind.own.saturating_add(1);
        }
    }

    fn note_case(&mut self, id: CaseId) {
        if let Some(kind) = self.kinds.get_mut(id.type_no as usize) {
            if let Some(count) = kind.cases.get_mut(id.place as usize) {
                *count = count.saturating_add(1);
            }
        }
    }

    fn note_migration(&mut self, type_no: u32) {
        if let Some(kind) = self.kinds.get_mut(type_no as usize) {
            kind.migrations = kind.migrations.saturating_add(1);
        }
    }
}

// Each type is defined, and has no cases yet.
fn defined_once(alloc: Global, types: &[TypeDecl]) -> Result<Vec<KindCounts>, NoMemory> {
    let mut kinds = Vec::with_capacity(alloc, types.len())?;
    for _ in types {
        kinds.push(KindCounts {
            own: 1,
            cases: Vec::new(alloc),
            migrations: 0,
        })?;
    }
    Ok(kinds)
}

// The cases of each type, of which no call is counted yet.
fn add_cases(decls: &[CaseDecl], kinds: &mut [KindCounts]) -> Result<(), NoMemory> {
    for decl in decls {
        if let Some(kind) = kinds.get_mut(decl.id.type_no as usize) {
            kind.cases.push(0)?;
        }
    }
    Ok(())
}
