// How servers and desks begin.
ghost use Rattle.std.specs.Prelude.{◌≡◌, ◌+◌, ◌<◌, ◌≤◌, ◌^◌, length, sum, replicate, IfOk, OnErr, vec_len};
ghost use Rattle.adept_server.specs.{Desks.{IsDeskOf, desk_view}, Firsts.{AreFirstCases, AreFirstKinds, AreFirstsOf}, Opening.{IsFirstDesk, new_desk, parent_desk}, Vecs.{AreVecsOf, row_views}};
ghost use Rattle.turn_batch.specs.Batch.{AreOf};
ghost use Rattle.turn_rows.specs.Rows.{views};

use crate::all_rows::{empty_rows, split_all, split_row};
use crate::desks::Desk;
use crate::rooms::Rooms;
use crate::servers::Server;
use case_core::Case;
use std::alloc::Global;
use turn_cell::{Cell, NoMemory, Pass};
use turn_rows::open_row;
use type_core::Kind;

// The cells of so many types, with the labels from 0 on, and their first passes.
fn open_kinds(
    alloc: Global,
    count: u32,
    rooms: &[usize],
) -> Result<(Vec<Cell<Kind>>, Vec<Pass<Kind>>), NoMemory>
    ensures cells { IfOk result (λ r. AreOf r.0.items r.1.items) }
    ensures firsts { IfOk result (λ r. AreFirstKinds count (views r.1.items)) }
{
    let mut kinds = Vec::with_capacity(alloc, count as usize)?;
    for type_no in 0..count {
        kinds.push_reserved(Kind::new(alloc, type_no));
    }
    open_row(alloc, 0, kinds, rooms)
}

// The cells of so many cases of a type, with the labels from `label` on, and their first passes.
fn open_cases(
    alloc: Global,
    type_no: u32,
    count: u32,
    label: u32,
    rooms: &[usize],
) -> Result<(Vec<Cell<Case>>, Vec<Pass<Case>>), NoMemory>
    requires labels { label + count < 2 ^ 32 }
    ensures cells { IfOk result (λ r. AreOf r.0.items r.1.items) }
    ensures firsts { IfOk result (λ r. AreFirstCases type_no count (views r.1.items)) }
{
    let mut cases = Vec::with_capacity(alloc, count as usize)?;
    for _place in 0..count {
        cases.push_reserved(Case::new(alloc, type_no));
    }
    open_row(alloc, label, cases, rooms)
}

// The cells of the cases of all types, with the labels behind those of the types, and their first passes.
fn open_all_cases(
    alloc: Global,
    counts: &[u32],
    rooms: &Rooms,
) -> Result<(Vec<Vec<Cell<Case>>>, Vec<Vec<Pass<Case>>>), NoMemory>
    requires labels { length counts.now + sum counts.now < 2 ^ 32 }
    ensures cells { IfOk result (λ r. AreVecsOf r.0.items r.1.items) }
    ensures firsts { IfOk result (λ r. AreFirstsOf counts.now (row_views r.1.items)) }
{
    let mut cells = Vec::with_capacity(alloc, counts.len())?;
    let mut firsts = Vec::with_capacity(alloc, counts.len())?;
    let mut label = counts.len() as u32;
    for (type_no, count) in counts.iter().enumerate() {
        let (row, first_row) = open_cases(
            alloc,
            type_no as u32,
            *count,
            label,
            rooms.of_cases(type_no),
        )?;
        cells.push_reserved(row);
        firsts.push_reserved(first_row);
        label += *count;
    }
    Ok((cells, firsts))
}

impl Server {
    /// A server with a type for each item, and with so many cases of that type. The desk holds the first pass of every cell.
    /// Gates are told the cells by their labels from 0: the types in order, and then the cases by type and place.
    pub fn new(alloc: Global, cases: &[u32]) -> Result<(Server, Desk), NoMemory>
        requires { length cases.now + sum cases.now < 2 ^ 32 }
        ensures desk { IfOk result (λ r. IsDeskOf r.0 r.1) }
        ensures first { IfOk result (λ r. IsFirstDesk cases.now (desk_view r.1)) }
    {
        Server::with_rooms(alloc, cases, &Rooms::none(alloc))
    }

    /// The same, where each journal has the room that is told of it at first.
    pub fn with_rooms(
        alloc: Global,
        cases: &[u32],
        rooms: &Rooms,
    ) -> Result<(Server, Desk), NoMemory>
        requires { length cases.now + sum cases.now < 2 ^ 32 }
        ensures desk { IfOk result (λ r. IsDeskOf r.0 r.1) }
        ensures first { IfOk result (λ r. IsFirstDesk cases.now (desk_view r.1)) }
    {
        let (kinds, first_kinds) = open_kinds(alloc, cases.len() as u32, &rooms.kinds)?;
        let (rows, first_rows) = open_all_cases(alloc, cases, rooms)?;
        let closed_kinds = Vec::with_capacity(alloc, kinds.len())?;
        let closed_cases = empty_rows(alloc, &rows)?;
        let defined = vec![in alloc; false; cases.len()]?;
        let server = Server {
            kinds,
            cases: rows,
            closed_kinds,
            closed_cases,
        };
        let desk = Desk {
            number: 0,
            made: 1,
            taken: 0,
            defined,
            kinds: first_kinds,
            cases: first_rows,
        };
        Ok((server, desk))
    }

    /// A new desk with a number of its own, which has seen what the first desk has.
    pub fn desk(&self, alloc: Global, first: &mut Desk) -> Result<Desk, NoMemory>
        requires desk { IsDeskOf self.now first.old }
        requires first { (desk_view first.old).number ≡ 0 }
        requires few { (desk_view first.old).made < 33 }
        ensures desks { IfOk result (λ new. IsDeskOf self.now first.new × IsDeskOf self.now new) }
        ensures first { IfOk result (λ new. desk_view first.new ≡ parent_desk (desk_view first.old)) }
        ensures new { IfOk result (λ new. desk_view new ≡ new_desk (desk_view first.old)) }
        ensures err { OnErr result (first.new ≡ first.old) }
    {
        let defined = Vec::from_slice(alloc, &first.defined)?;
        let mut kinds = Vec::with_capacity(alloc, first.kinds.len())?;
        let mut cases = empty_rows(alloc, &first.cases)?;
        let number = first.made;
        first.made += 1;
        split_row(&self.kinds, &mut first.kinds, &mut kinds);
        split_all(&self.cases, &mut first.cases, &mut cases);
        Ok(Desk {
            number,
            made: 0,
            taken: 0,
            defined,
            kinds,
            cases,
        })
    }
}
