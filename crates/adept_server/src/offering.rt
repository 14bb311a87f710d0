// How work lists are made.
ghost use Rattle.std.specs.Prelude.{◌≡◌, ◌+◌, ◌^◌, ◌<◌, ◌++◌, length, IfOk, OnOk, Some, map};
ghost use Rattle.adept_server.specs.{Desks.{AreRowsOf, AreShort, IsDeskOf, desk_view}, Offering.{AllLooked, AllOpened, AllSeenWell, EachLooked, HasLooked, Looks, OpenedAs, all_offers, offer_of, offers_in, offers_of, row_offers, view_after}};
ghost use Rattle.case_core.specs.CaseModel.{not_created};
ghost use Rattle.turn_batch.specs.Batch.{AreOf};
ghost use Rattle.turn_cell.specs.Passes.{IsPassOf, view_of};

use crate::desks::Desk;
use crate::servers::Server;
use crate::worklists::{Offer, Offers};
use case_core::{Case, CaseId, Item, View};
use std::alloc::Global;
use std::sync::Wait;
use turn_cell::{Cell, NoMemory, Pass};

// One work item, where it is offered to that role.
fn offer_one(item: &Item, role: u32, case: CaseId, offers: &mut Offers) -> Result<(), NoMemory>
    ensures { OnOk result (offers.new ≡ offers.old ++ offer_of role case item.now) }
{
    match *item {
        Item::Offered { node, role: wanted } if wanted == role => offers.push(Offer { case, node }),
        _ => Ok(()),
    }
}

fn offer_each(items: &[Item], role: u32, case: CaseId, offers: &mut Offers) -> Result<(), NoMemory>
    ensures { OnOk result (offers.new ≡ offers.old ++ offers_of role case items.now) }
{
    let Some((item, rest)) = items.split_first() else {
        return Ok(());
    };
    offer_one(item, role, case, offers)?;
    offer_each(rest, role, case, offers)
}

// What a view offers to that role.
fn offer_all(view: &View, role: u32, case: CaseId, offers: &mut Offers) -> Result<(), NoMemory>
    ensures { OnOk result (offers.new ≡ offers.old ++ offers_in role case view.now) }
{
    match view {
        View::None => Ok(()),
        View::Live { items, .. } => offer_each(items.as_slice(), role, case, offers),
    }
}

// Looks at one case.
fn look_at<R: Wait>(
    rt: &R,
    alloc: Global,
    cell: &Cell<Case>,
    pass: &mut Pass<Case>,
    role: u32,
    case: CaseId,
    offers: &mut Offers,
) -> Result<(), NoMemory>
    requires cell { IsPassOf cell.now pass.old }
    requires opening { (view_of pass.old).opening ≡ Some (not_created case.type_no) }
    ensures cell { IsPassOf cell.now pass.new }
    ensures looked { HasLooked (view_of pass.old) (view_of pass.new) }
    ensures ok { OnOk result (offers.new ≡ offers.old ++ offers_in role case (view_after case.type_no (view_of pass.new))) }
{
    let view = cell.look(rt, alloc, pass)?;
    offer_all(&view, role, case, offers)
}

// Looks at each case of a row, from that place on.
fn look_row<R: Wait>(
    rt: &R,
    alloc: Global,
    cells: &[Cell<Case>],
    passes: &mut [Pass<Case>],
    role: u32,
    case: CaseId,
    offers: &mut Offers,
) -> Result<(), NoMemory>
    requires cells { AreOf cells.now passes.old }
    requires opening { OpenedAs case.type_no (map view_of passes.old) }
    requires few { case.place + length passes.old < 2 ^ 32 }
    ensures cells { AreOf cells.now passes.new }
    ensures looked { EachLooked (map view_of passes.old) (map view_of passes.new) }
    ensures ok { OnOk result (offers.new ≡ offers.old ++ row_offers role case.type_no case.place (map view_of passes.new)) }
{
    let Some((cell, cells)) = cells.split_first() else {
        return Ok(());
    };
    let Some((pass, passes)) = passes.split_first_mut() else {
        return Ok(());
    };
    look_at(rt, alloc, cell, pass, role, case, offers)?;
    let next = CaseId {
        type_no: case.type_no,
        place: case.place + 1,
    };
    look_row(rt, alloc, cells, passes, role, next, offers)
}

// Looks at each case of a type.
fn look_type<R: Wait>(
    rt: &R,
    alloc: Global,
    cells: &Vec<Cell<Case>>,
    passes: &mut Vec<Pass<Case>>,
    role: u32,
    type_no: u32,
    offers: &mut Offers,
) -> Result<(), NoMemory>
    requires cells { AreOf cells.now.items passes.old.items }
    requires opening { OpenedAs type_no (map view_of passes.old.items) }
    requires few { length passes.old.items < 2 ^ 32 }
    ensures cells { AreOf cells.now.items passes.new.items }
    ensures looked { EachLooked (map view_of passes.old.items) (map view_of passes.new.items) }
    ensures ok { OnOk result (offers.new ≡ offers.old ++ row_offers role type_no 0 (map view_of passes.new.items)) }
{
    let first = CaseId { type_no, place: 0 };
    look_row(rt, alloc, cells, passes, role, first, offers)
}

// Looks at each row, from that type on.
fn look_rows<R: Wait>(
    rt: &R,
    alloc: Global,
    cells: &[Vec<Cell<Case>>],
    passes: &mut [Vec<Pass<Case>>],
    role: u32,
    type_no: u32,
    offers: &mut Offers,
) -> Result<(), NoMemory>
    requires cells { AreRowsOf (map (λ row. row.items) cells.now) (map (λ row. row.items) passes.old) }
    requires opening { AllOpened type_no (map (λ row. map view_of row.items) passes.old) }
    requires few { type_no + length passes.old < 2 ^ 32 }
    requires short { AreShort (map (λ row. map view_of row.items) passes.old) }
    ensures cells { AreRowsOf (map (λ row. row.items) cells.now) (map (λ row. row.items) passes.new) }
    ensures looked { AllLooked (map (λ row. map view_of row.items) passes.old) (map (λ row. map view_of row.items) passes.new) }
    ensures ok { OnOk result (offers.new ≡ offers.old ++ all_offers role type_no (map (λ row. map view_of row.items) passes.new)) }
{
    let Some((row, cells)) = cells.split_first() else {
        return Ok(());
    };
    let Some((own, passes)) = passes.split_first_mut() else {
        return Ok(());
    };
    look_type(rt, alloc, row, own, role, type_no, offers)?;
    look_rows(rt, alloc, cells, passes, role, type_no + 1, offers)
}

impl Server {
    /// For each case in order its offered nodes of that role, each in the view after what the desk's pass has then seen.
    #[tactic(auto, using(crate::proofs::SeenWell::all_well))]
    pub fn worklist<R: Wait>(
        &self,
        rt: &R,
        alloc: Global,
        desk: &mut Desk,
        role: u32,
    ) -> Result<Offers, NoMemory>
        requires desk { IsDeskOf self.now desk.old }
        ensures desk { IsDeskOf self.now desk.new }
        ensures looked { Looks (desk_view desk.old) (desk_view desk.new) }
        ensures ok { IfOk result (λ offers. offers ≡ all_offers role 0 (desk_view desk.new).cases) }

        // Each of these views is never stuck, and finds its data.
        ensures well { AllSeenWell 0 (desk_view desk.new).cases }
    {
        let mut offers = Offers::new(alloc);
        look_rows(
            rt,
            alloc,
            &self.cases,
            &mut desk.cases,
            role,
            0,
            &mut offers,
        )?;
        Ok(offers)
    }
}
