// Calls of many cases of a type.
ghost use Rattle.std.specs.{Prelude.{◌≡◌, ◌≤◌, take, drop, IfOk, OnErr}, Result.result_map_both};
ghost use Rattle.adept_server.specs.{Calling.{CallsCases, Migrates}, Desks.{IsDefinedFor, IsDeskOf, case_count, desk_view, has_kind}};
ghost use Rattle.case_core.specs.Ages.{weight};
ghost use Rattle.turn_batch.specs.Batch.{AreCalled, AreOf};

use crate::calls::answered_version;
use crate::desks::Desk;
use crate::servers::Server;
use case_core::{Case, Event};
use std::alloc::Global;
use std::sync::Wait;
use std::thread::Threads;
use turn_batch::{Answers, all};
use turn_cell::{CallFault, Cell, Gate, MAX_WEIGHT, Machine, NoMemory, Pass};

// One call of each of the first so many cells. Where there are fewer, each of them is called.
fn call_first<M: Machine, R: Threads + Wait + Sync, G: Gate + Sync>(
    rt: &R,
    alloc: Global,
    cells: &[Cell<M>],
    passes: &mut [Pass<M>],
    many: usize,
    event: &M::Event,
    gate: &G,
    line: u32,
) -> Result<Answers<M>, NoMemory>
    requires cells { AreOf cells.now passes.old }
    requires light { M.weight event.now ≤ MAX_WEIGHT }
    ensures cells { AreOf cells.now passes.new }
    ensures ok { IfOk result (λ a. AreCalled M.after M.reply event.now (take many passes.old) a.items.items (take many passes.new)) }
    ensures others { drop many passes.new ≡ drop many passes.old }
    ensures err { OnErr result (passes.new ≡ passes.old) }
{
    let first = many.min(cells.len());
    all(
        rt,
        alloc,
        &cells[..first],
        &mut passes[..first],
        event,
        gate,
        line,
    )
}

impl Server {
    // One call of each of the first so many cases of a type.
    fn call_cases<R: Threads + Wait + Sync, G: Gate + Sync>(
        &self,
        rt: &R,
        alloc: Global,
        desk: &mut Desk,
        type_no: u32,
        many: u32,
        event: &Event,
        gate: &G,
        line: u32,
    ) -> Result<Answers<Case>, NoMemory>
        requires desk { IsDeskOf self.now desk.old }
        requires there { has_kind (desk_view desk.old) type_no }
        requires light { weight event.now ≤ 60000 }
        ensures desk { IsDeskOf self.now desk.new }
        ensures ok { IfOk result (λ a. CallsCases event.now type_no many a.items.items (desk_view desk.old) (desk_view desk.new)) }
        ensures err { OnErr result (desk_view desk.new ≡ desk_view desk.old) }
    {
        let index = type_no as usize;
        let cells = &self.cases[index];
        let passes = &mut desk.cases[index];
        call_first(rt, alloc, cells, passes, many as usize, event, gate, line)
    }

    /// Asks the type for its newest version, and tells each of its first `many` cases to move to it; where it has fewer, each of
    /// them. The answers are in order of places.
    pub fn migrate_first<R: Threads + Wait + Sync, G: Gate + Sync>(
        &self,
        rt: &R,
        alloc: Global,
        desk: &mut Desk,
        type_no: u32,
        many: u32,
        gate: &G,
        line: u32,
    ) -> Result<Answers<Case>, CallFault>
        requires desk { IsDeskOf self.now desk.old }
        requires there { has_kind (desk_view desk.old) type_no }
        requires defined { IsDefinedFor (desk_view desk.old) type_no }
        ensures desk { IsDeskOf self.now desk.new }
        ensures called { Migrates type_no many (result_map_both (λ a. a.items.items) (λ f. f) result) (desk_view desk.old) (desk_view desk.new) }
    {
        let reply = self.newest(rt, alloc, desk, type_no, gate, line)?;
        let event = Event::Migrate(answered_version(reply));
        Ok(self.call_cases(rt, alloc, desk, type_no, many, &event, gate, line)?)
    }

    /// Asks the type for its newest version, and tells each case of the type to move to it. The answers are in order of places.
    pub fn migrate_all<R: Threads + Wait + Sync, G: Gate + Sync>(
        &self,
        rt: &R,
        alloc: Global,
        desk: &mut Desk,
        type_no: u32,
        gate: &G,
        line: u32,
    ) -> Result<Answers<Case>, CallFault>
        requires desk { IsDeskOf self.now desk.old }
        requires there { has_kind (desk_view desk.old) type_no }
        requires defined { IsDefinedFor (desk_view desk.old) type_no }
        ensures desk { IsDeskOf self.now desk.new }
        ensures called { Migrates type_no (case_count (desk_view desk.old) type_no) (result_map_both (λ a. a.items.items) (λ f. f) result) (desk_view desk.old) (desk_view desk.new) }
    {
        // No type has more cases.
        let many = u32::MAX;
        self.migrate_first(rt, alloc, desk, type_no, many, gate, line)
    }
}
