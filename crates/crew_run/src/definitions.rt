// The definitions of types.
ghost use Rattle.std.specs.{Prelude.{◌≡◌, ◌<◌, ◌≤◌, ◌^◌, ℕ, true, length, IfErr, OnOk}, List.list_all};
ghost use Rattle.adept_server.specs.Desks.{IsDeskOf, desk_view};
ghost use Rattle.crew_run.specs.{Crew.{Defines, KnowsTypes, SeesMany}, Desks.IsIdle};
ghost use Rattle.file_facts.specs.Facts.{IsSound};
ghost use Rattle.file_model.specs.Sizes.{is_small};
ghost use Rattle.wsm_lists.specs.Rows.{AllRows};

use adept_server::{Desk, Server};
use file_model::TypeDecl;
use std::alloc::Global;
use std::sync::Wait;
use turn_cell::{CallFault, Gate};

/// The line that gates are told for a definition, which has none.
const NO_LINE: u32 = 0;

/// Defines the types, by their numbers. The desk then knows a version of each.
pub fn define_types<R: Wait, G: Gate>(
    rt: &R,
    alloc: Global,
    server: &Server,
    desk: &mut Desk,
    types: &[TypeDecl],
    gate: &G,
) -> Result<(), CallFault>
    requires desk { IsDeskOf server.now desk.old }
    requires there { length types.now ≤ length (desk_view desk.old).kinds }
    requires numbers { length types.now < 2 ^ 32 }
    requires number { (desk_view desk.old).number ≡ 0 }
    requires idle { IsIdle (desk_view desk.old) }
    requires small { list_all is_small types.now ≡ true }
    requires sound { AllRows IsSound types.now }
    ensures desk { IsDeskOf server.now desk.new }
    ensures defines { (done : ℕ) × Defines types.now done (desk_view desk.old) (desk_view desk.new) × OnOk result (done ≡ length types.now) }
    ensures full { IfErr result (λ fault. fault ≡ CallFault.Full → SeesMany (desk_view desk.new)) }
    ensures known { OnOk result (KnowsTypes (length types.now) (desk_view desk.new)) }
{
    for type_no in 0..types.len() {
        let schema = &types[type_no].schema;
        let _ = server.define(rt, alloc, desk, type_no as u32, schema, gate, NO_LINE)?;
    }
    Ok(())
}
