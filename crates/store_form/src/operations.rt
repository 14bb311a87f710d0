// Operations in a payload.
ghost use Rattle.std.specs.Prelude.{◌≡◌, ◌≢◌, ◌≤◌, ◌∷◌, ◌++◌, OnOk};
ghost use Rattle.store_form.specs.{Given.Gives, Payload.{gap_bytes, op_bytes}, Reading.{gap_at, op_at, op_behind}, Shrinking.{gap_shrinks, op_shrinks}, Stored.{FitsGap, FitsOp}};

use crate::fields::{Part, ReadFault, put_tagged};
use adept_io::NoMemory;
use std::alloc::Global;
use wsm_ops::{Gap, Op};
use wsm_schema::ElementKind;

// A number, with what stands behind it.
type And<T> = (u32, T);

type Two = (u32, u32);

impl Part for Gap {
    ghost bytes = { gap_bytes };

    ghost reading = { gap_at };

    ghost fits = { FitsGap };

    fn put(&self, out: &mut Vec<u8>) -> Result<(), NoMemory> {
        match *self {
            Gap::After(node) => {
                false.put(out)?;
                node.put(out)
            }
            Gap::Head(split, code) => {
                true.put(out)?;
                (split, code).put(out)
            }
        }
    }

    fn read(alloc: Global, from: &[u8]) -> Result<(Gap, &[u8]), ReadFault> {
        let (is_head, rest) = bool::read(alloc, from)?;
        if is_head {
            let ((split, code), rest) = And::<u16>::read(alloc, rest)?;
            Ok((Gap::Head(split, code), rest))
        } else {
            let (node, rest) = u32::read(alloc, rest)?;
            Ok((Gap::After(node), rest))
        }
    }

    ghost shrinks = { gap_shrinks };
}

impl Part for Op {
    ghost bytes = { op_bytes };

    ghost reading = { op_at };

    ghost fits = { FitsOp };

    fn put(&self, out: &mut Vec<u8>) -> Result<(), NoMemory> {
        put_op(self, out)
    }

    #[tactic(auto, unfolding(crate::specs::Reading::op_at))]
    fn read(alloc: Global, from: &[u8]) -> Result<(Op, &[u8]), ReadFault> {
        let [row, rest @ ..] = from else {
            return Err(ReadFault::Malformed);
        };
        read_op(alloc, *row, rest)
    }

    ghost shrinks = { op_shrinks };
}

// Puts an operation: its row, and its fields as they stand there.
fn put_op(op: &Op, out: &mut Vec<u8>) -> Result<(), NoMemory>
    ensures bytes { OnOk result (out.new.items ≡ out.old.items ++ op_bytes op.now) }
    ensures fits { OnOk result (FitsOp op.now) }
{
    match *op {
        Op::InsertSerial { node, role, gap } => put_tagged(0, (node, (role, gap)), out),
        Op::InsertParallel {
            node,
            role,
            split,
            join,
            first,
            last,
        } => put_tagged(1, (node, (role, (split, (join, (first, last))))), out),
        Op::InsertConditional {
            node,
            role,
            split,
            join,
            gap,
        } => put_tagged(2, (node, (role, (split, (join, gap)))), out),
        Op::DeleteActivity { node } => put_tagged(3, node, out),
        Op::MoveActivity { node, gap } => put_tagged(4, (node, gap), out),
        Op::InsertSync { source, target } => put_tagged(5, (source, target), out),
        Op::DeleteSync { source, target } => put_tagged(6, (source, target), out),
        Op::AddElement { element, kind } => put_tagged(7, (element, kind), out),
        Op::AddRead {
            node,
            element,
            mandatory,
        } => put_tagged(8, (node, (element, mandatory)), out),
        Op::RemoveRead { node, element } => put_tagged(9, (node, element), out),
        Op::AddWrite { node, element } => put_tagged(10, (node, element), out),
        Op::RemoveWrite { node, element } => put_tagged(11, (node, element), out),
        Op::SetRole { node, role } => put_tagged(12, (node, role), out),
    }
}

// Reads the fields of the operation of a row.
fn read_op(alloc: Global, row: u8, from: &[u8]) -> Result<(Op, &[u8]), ReadFault>
    ensures { Gives (λ x. (x.0, x.1.now)) result (op_behind row from.now) }
{
    match row {
        0 => insert_serial(alloc, from),
        1 => insert_parallel(alloc, from),
        2 => insert_conditional(alloc, from),
        3 => delete_activity(alloc, from),
        4 => move_activity(alloc, from),
        7 => add_element(alloc, from),
        8 => add_read(alloc, from),
        _ => read_pair(alloc, row, from),
    }
}

// Reads an operation whose fields are two numbers.
fn read_pair(alloc: Global, row: u8, from: &[u8]) -> Result<(Op, &[u8]), ReadFault>
    requires low { 5 ≤ row }
    requires element { row ≢ 7 }
    requires read { row ≢ 8 }
    ensures { Gives (λ x. (x.0, x.1.now)) result (op_behind row from.now) }
{
    match row {
        5 => {
            let ((source, target), rest) = Two::read(alloc, from)?;
            Ok((Op::InsertSync { source, target }, rest))
        }
        6 => {
            let ((source, target), rest) = Two::read(alloc, from)?;
            Ok((Op::DeleteSync { source, target }, rest))
        }
        9 => {
            let ((node, element), rest) = Two::read(alloc, from)?;
            Ok((Op::RemoveRead { node, element }, rest))
        }
        10 => {
            let ((node, element), rest) = Two::read(alloc, from)?;
            Ok((Op::AddWrite { node, element }, rest))
        }
        11 => {
            let ((node, element), rest) = Two::read(alloc, from)?;
            Ok((Op::RemoveWrite { node, element }, rest))
        }
        12 => {
            let ((node, role), rest) = Two::read(alloc, from)?;
            Ok((Op::SetRole { node, role }, rest))
        }
        _ => Err(ReadFault::Malformed),
    }
}

fn insert_serial(alloc: Global, from: &[u8]) -> Result<(Op, &[u8]), ReadFault>
    ensures { Gives (λ x. (x.0, x.1.now)) result (op_behind 0 from.now) }
{
    let ((node, (role, gap)), rest) = And::<And<Gap>>::read(alloc, from)?;
    Ok((Op::InsertSerial { node, role, gap }, rest))
}

fn insert_parallel(alloc: Global, from: &[u8]) -> Result<(Op, &[u8]), ReadFault>
    ensures { Gives (λ x. (x.0, x.1.now)) result (op_behind 1 from.now) }
{
    let ((node, (role, (split, (join, (first, last))))), rest) = And::<And<And<And<Two>>>>::read(
        alloc, from,
    )?;
    let op = Op::InsertParallel {
        node,
        role,
        split,
        join,
        first,
        last,
    };
    Ok((op, rest))
}

fn insert_conditional(alloc: Global, from: &[u8]) -> Result<(Op, &[u8]), ReadFault>
    ensures { Gives (λ x. (x.0, x.1.now)) result (op_behind 2 from.now) }
{
    let ((node, (role, (split, (join, gap)))), rest) = And::<And<And<And<Gap>>>>::read(
        alloc, from,
    )?;
    let op = Op::InsertConditional {
        node,
        role,
        split,
        join,
        gap,
    };
    Ok((op, rest))
}

fn delete_activity(alloc: Global, from: &[u8]) -> Result<(Op, &[u8]), ReadFault>
    ensures { Gives (λ x. (x.0, x.1.now)) result (op_behind 3 from.now) }
{
    let (node, rest) = u32::read(alloc, from)?;
    Ok((Op::DeleteActivity { node }, rest))
}

fn move_activity(alloc: Global, from: &[u8]) -> Result<(Op, &[u8]), ReadFault>
    ensures { Gives (λ x. (x.0, x.1.now)) result (op_behind 4 from.now) }
{
    let ((node, gap), rest) = And::<Gap>::read(alloc, from)?;
    Ok((Op::MoveActivity { node, gap }, rest))
}

fn add_element(alloc: Global, from: &[u8]) -> Result<(Op, &[u8]), ReadFault>
    ensures { Gives (λ x. (x.0, x.1.now)) result (op_behind 7 from.now) }
{
    let ((element, kind), rest) = And::<ElementKind>::read(alloc, from)?;
    Ok((Op::AddElement { element, kind }, rest))
}

fn add_read(alloc: Global, from: &[u8]) -> Result<(Op, &[u8]), ReadFault>
    ensures { Gives (λ x. (x.0, x.1.now)) result (op_behind 8 from.now) }
{
    let ((node, (element, mandatory)), rest) = And::<And<bool>>::read(alloc, from)?;
    let op = Op::AddRead {
        node,
        element,
        mandatory,
    };
    Ok((op, rest))
}
