// What operations do that are not refused.
ghost use Rattle.std.specs.Prelude.{◌≡◌, ◌||◌, ◌==◌, not, IfOk, filter, None};
ghost use Rattle.wsm_schema.specs.Flat.{cards_of};
ghost use Rattle.wsm_ops.specs.{Edit.{new_part, without}, Refusals.unless_activity, Apply.{refusal, effect, put_at, with_role}, Putting.put_op};
ghost use Rattle.wsm_ops.specs.declared.operations.Op.TheVariants as op;

use crate::drafts::Draft;
use crate::insertions::New;
use crate::operations::{Gap, Op};
use crate::removals::{reads_without, syncs_without, writes_without};
use crate::wraps::Wrap;
use std::alloc::Global;
use wsm_schema::{ElementKind, NoMemory};

/// The draft after the operation, which is not refused.
pub fn effect(alloc: Global, draft: Draft, op: &Op) -> Result<Draft, NoMemory>
    requires { refusal draft op.now ≡ None }
    ensures { IfOk result (λ new. new ≡ effect draft op.now) }
{
    match *op {
        Op::InsertSerial { node, role, gap } => serial(draft, node, role, gap),
        Op::InsertParallel {
            node,
            role,
            split,
            join,
            first,
            last,
        } => {
            let wrap = Wrap {
                node,
                split,
                join,
                first,
                last,
            };
            parallel(draft, &wrap, role)
        }
        Op::InsertConditional {
            node,
            role,
            split,
            join,
            gap,
        } => conditional(draft, node, role, split, join, gap),
        Op::DeleteActivity { node } => deleted(alloc, draft, node),
        Op::MoveActivity { node, gap } => moved(draft, node, gap),
        Op::InsertSync { source, target } => with_sync(draft, source, target),
        Op::DeleteSync { source, target } => Ok(without_sync(draft, source, target)),
        Op::AddElement { element, kind } => with_element(draft, element, kind),
        Op::AddRead {
            node,
            element,
            mandatory,
        } => with_read(draft, node, element, mandatory),
        Op::RemoveRead { node, element } => Ok(without_read(draft, node, element)),
        Op::AddWrite { node, element } => with_write(draft, node, element),
        Op::RemoveWrite { node, element } => Ok(without_write(draft, node, element)),
        Op::SetRole { node, role } => with_role(draft, node, role),
    }
}

// Something new at the gap.
fn put_at(mut draft: Draft, gap: Gap, new: New) -> Result<Draft, NoMemory>
    requires { refusal draft (put_op new gap) ≡ None }
    ensures { IfOk result (λ s. s ≡ put_at gap (new_part new) draft) }
{
    draft.outline = new.put(draft.outline, gap)?;
    Ok(draft)
}

fn with_role(mut draft: Draft, node: u32, role: u32) -> Result<Draft, NoMemory>
    ensures { IfOk result (λ s. s ≡ with_role node role draft) }
{
    draft.roles.put(node, role)?;
    Ok(draft)
}

fn serial(draft: Draft, node: u32, role: u32, gap: Gap) -> Result<Draft, NoMemory>
    requires { refusal draft (op.InsertSerial node role gap) ≡ None }
    ensures { IfOk result (λ s. s ≡ effect draft (op.InsertSerial node role gap)) }
{
    let draft = put_at(draft, gap, New::Activity(node))?;
    with_role(draft, node, role)
}

fn parallel(mut draft: Draft, wrap: &Wrap, role: u32) -> Result<Draft, NoMemory>
    requires { refusal draft (op.InsertParallel wrap.now.node role wrap.now.split wrap.now.join wrap.now.first wrap.now.last) ≡ None }
    ensures { IfOk result (λ s. s ≡ effect draft (op.InsertParallel wrap.now.node role wrap.now.split wrap.now.join wrap.now.first wrap.now.last)) }
{
    draft.outline = wrap.put(draft.outline)?;
    with_role(draft, wrap.node, role)
}

fn conditional(
    draft: Draft,
    node: u32,
    role: u32,
    split: u32,
    join: u32,
    gap: Gap,
) -> Result<Draft, NoMemory>
    requires { refusal draft (op.InsertConditional node role split join gap) ≡ None }
    ensures { IfOk result (λ s. s ≡ effect draft (op.InsertConditional node role split join gap)) }
{
    let draft = put_at(draft, gap, New::Choice { node, split, join })?;
    let draft = with_role(draft, node, role)?;
    with_role(draft, split, role)
}

fn deleted(alloc: Global, draft: Draft, node: u32) -> Result<Draft, NoMemory>
    requires { refusal draft (op.DeleteActivity node) ≡ None }
    ensures { IfOk result (λ s. s ≡ effect draft (op.DeleteActivity node)) }
{
    let draft = without_activity(draft, node);
    let draft = without_syncs(alloc, draft, node)?;
    let draft = without_reads(alloc, draft, node)?;
    let draft = without_writes(alloc, draft, node)?;
    with_role(draft, node, 0)
}

fn without_activity(mut draft: Draft, node: u32) -> Draft
    requires { unless_activity (cards_of draft) node ≡ None }
    ensures { result ≡ record draft { body = without node draft.body } }
{
    draft.outline = draft.outline.without(node);
    draft
}

// The node then ends no sync edge, at either side.
fn without_syncs(alloc: Global, mut draft: Draft, node: u32) -> Result<Draft, NoMemory>
    ensures { IfOk result (λ s. s ≡ record draft { syncs = filter (λ e. not (e.0 == node || e.1 == node)) draft.syncs }) }
{
    draft.syncs = syncs_without(alloc, &draft.syncs, node)?;
    Ok(draft)
}

fn without_reads(alloc: Global, mut draft: Draft, node: u32) -> Result<Draft, NoMemory>
    ensures { IfOk result (λ s. s ≡ record draft { reads = filter (λ r. not (r.0 == node)) draft.reads }) }
{
    draft.reads = reads_without(alloc, &draft.reads, node)?;
    Ok(draft)
}

fn without_writes(alloc: Global, mut draft: Draft, node: u32) -> Result<Draft, NoMemory>
    ensures { IfOk result (λ s. s ≡ record draft { writes = filter (λ w. not (w.0 == node)) draft.writes }) }
{
    draft.writes = writes_without(alloc, &draft.writes, node)?;
    Ok(draft)
}

fn moved(mut draft: Draft, node: u32, gap: Gap) -> Result<Draft, NoMemory>
    requires { refusal draft (op.MoveActivity node gap) ≡ None }
    ensures { IfOk result (λ s. s ≡ effect draft (op.MoveActivity node gap)) }
{
    let rest = draft.outline.without(node);
    draft.outline = New::Activity(node).put(rest, gap)?;
    Ok(draft)
}

fn with_sync(mut draft: Draft, source: u32, target: u32) -> Result<Draft, NoMemory>
    ensures { IfOk result (λ s. s ≡ effect draft (op.InsertSync source target)) }
{
    draft.syncs.set((source, target))?;
    Ok(draft)
}

fn without_sync(mut draft: Draft, source: u32, target: u32) -> Draft
    ensures { result ≡ effect draft (op.DeleteSync source target) }
{
    draft.syncs.remove((source, target));
    draft
}

fn with_element(mut draft: Draft, element: u32, kind: ElementKind) -> Result<Draft, NoMemory>
    ensures { IfOk result (λ s. s ≡ effect draft (op.AddElement element kind)) }
{
    draft.elements.set((element, kind))?;
    Ok(draft)
}

fn with_read(mut draft: Draft, node: u32, element: u32, mandatory: bool) -> Result<Draft, NoMemory>
    ensures { IfOk result (λ s. s ≡ effect draft (op.AddRead node element mandatory)) }
{
    draft.reads.set((node, element, mandatory))?;
    Ok(draft)
}

fn without_read(mut draft: Draft, node: u32, element: u32) -> Draft
    ensures { result ≡ effect draft (op.RemoveRead node element) }
{
    draft.reads.remove((node, element));
    draft
}

fn with_write(mut draft: Draft, node: u32, element: u32) -> Result<Draft, NoMemory>
    ensures { IfOk result (λ s. s ≡ effect draft (op.AddWrite node element)) }
{
    draft.writes.set((node, element))?;
    Ok(draft)
}

fn without_write(mut draft: Draft, node: u32, element: u32) -> Draft
    ensures { result ≡ effect draft (op.RemoveWrite node element) }
{
    draft.writes.remove((node, element));
    draft
}
