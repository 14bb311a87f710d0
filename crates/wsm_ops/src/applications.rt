// Operations one after another.
ghost use Rattle.std.specs.Prelude.{◌≡◌, ◌<◌, ◌^◌, [], ◌∷◌, length, IfOk, IfErr, None, Ok};
ghost use Rattle.wsm_schema.specs.{Flat.cards_of, Sound.{nodes_of, twice}};
ghost use Rattle.wsm_ops.specs.Apply.{applied, applied_from, IsOpFault};

use crate::drafts::Draft;
use crate::effects::effect;
use crate::faults::{ApplyRefusal, OpFault};
use crate::operations::{Op, Ops};
use crate::refusals::refusal;
use std::alloc::Global;
use wsm_schema::Schema;

/// The schema after all operations, each of which meets what the earlier ones made. The given schema stays as it is.
pub fn apply(alloc: Global, schema: &Schema, ops: &Ops) -> Result<Schema, ApplyRefusal>
    requires distinct { twice [] (nodes_of (cards_of schema.now)) ≡ None }
    requires length { length ops.now < 2 ^ 32 }
    ensures ok { IfOk result (λ new. applied schema.now ops.now ≡ Ok new) }
    ensures distinct { IfOk result (λ new. twice [] (nodes_of (cards_of new)) ≡ None) }
    ensures fault { IfErr result (λ refusal. IsOpFault (applied schema.now ops.now) refusal) }
{
    let mut draft = Draft::of(alloc, schema, ops.len())?;
    for (i, op) in ops.as_slice().iter().enumerate() {
        draft = after(alloc, draft, i as u32 + 1, op)?;
    }
    Ok(draft.into_schema(alloc)?)
}

// The draft after one operation, which stands at that index of its list.
fn after(alloc: Global, draft: Draft, index: u32, op: &Op) -> Result<Draft, ApplyRefusal>
    ensures ok { IfOk result (λ new. applied_from index draft (op.now ∷ []) ≡ Ok new) }
    ensures fault { IfErr result (λ refusal. IsOpFault (applied_from index draft (op.now ∷ [])) refusal) }
{
    match refusal(&draft, op) {
        Some(why) => Err(ApplyRefusal::Fault(OpFault { index, why })),
        None => Ok(effect(alloc, draft, op)?),
    }
}
