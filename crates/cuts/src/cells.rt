//! Cells: one cell of an object, a register or a key of a map, as a register of which some contents
//! are kept, and all others are one other value.

ghost use Rattle.std.specs.Prelude.{◌≡◌, IfOk};
ghost use Rattle.std.specs.List.{filter_map};
ghost use Rattle.events.specs.Operations.{calls_of};
ghost use Rattle.cuts.specs.Cells as spec;
ghost use Rattle.cuts.specs.Cuts.{keeps_value, keeps_number, IsPart};
ghost use Rattle.cuts.specs.CutOperations.{operation_at};
ghost use Rattle.cuts.specs.Kinds as kinds;

use crate::keeping::Values;
use crate::kinds::CellId;
use crate::kinds::register::{finding, replacing, setting};
use crate::touches::{Leave, Need, Touch};
use events::{End, ObjectHistory, Operation};
use seq_objects::{AnyOp, AnyReply, Kind};
use std::alloc::{AllocError, Global};
use std::collections::BTreeSet;

/// A cell, and the value in place of each content that is not kept.
#[derive(Clone, Copy)]
struct CellCut {
    place: CellId,
    other: i64,
}

/// Whether this content is kept. `keeps_none`: whether having no value is kept.
fn keeps(keeps_none: bool, values: &Values, content: Option<i64>) -> bool
    ensures { result ≡ spec.keeps_content keeps_none (keeps_value values.now) content }
{
    match content {
        Some(value) => values.has(value),
        None => keeps_none,
    }
}

/// The call that a touch becomes, if it leaves this content in the part. `own` is the call itself,
/// if it is a call of a register: it stays if all that it names is kept.
fn change(
    keeps_none: bool,
    values: &Values,
    own: Option<(AnyOp, AnyReply)>,
    need: Need,
    content: Option<i64>,
) -> (AnyOp, AnyReply)
    ensures { result ≡ spec.change (spec.keeps_content keeps_none (keeps_value values.now)) own
        need content }
{
    match (need, own) {
        (Need::Any, Some(call)) => call,
        (Need::Is(found), Some(call)) if keeps(keeps_none, values, found) => call,
        (Need::Is(found), None) if keeps(keeps_none, values, found) => replacing(found, content),
        _ => setting(content),
    }
}

/// What a touch becomes, as a call of a register, which the part may choose; `None`: the part
/// leaves it out.
fn cut_touch(
    keeps_none: bool,
    values: &Values,
    other: i64,
    kept: bool,
    own: Option<(AnyOp, AnyReply)>,
    touch: Touch,
) -> Option<(AnyOp, AnyReply)>
    ensures { result ≡ spec.cut_touch (spec.keeps_content keeps_none (keeps_value values.now)) other
        kept own touch.need touch.leave }
{
    match (touch.leave, touch.need) {
        (Leave::Content(content), need) if keeps(keeps_none, values, content) => {
            Some(change(keeps_none, values, own, need, content))
        }
        (Leave::Content(_), need) if kept => {
            Some(change(keeps_none, values, None, need, Some(other)))
        }
        (Leave::AsItWas, Need::Is(found)) if kept => {
            if keeps(keeps_none, values, found) {
                Some(finding(found))
            } else {
                Some(setting(Some(other)))
            }
        }
        _ => None,
    }
}

/// What an operation with this reply becomes, which the part may choose; `None`: the part leaves it
/// out.
fn returned_op(
    cell: CellCut,
    values: &Values,
    kept: bool,
    op: AnyOp,
    reply: AnyReply,
) -> Option<(AnyOp, AnyReply)>
    ensures { result ≡ spec.done_at cell.place (keeps_value values.now) cell.other kept op reply }
{
    let CellCut { place, other } = cell;
    let touch = place.touch(op, Some(reply))?;
    let own = place.own_call(op, reply);
    cut_touch(place.keeps_none(), values, other, kept, own, touch)
}

/// What a pending operation becomes; `None`: the part leaves it out.
fn pending_op(cell: CellCut, values: &Values, op: AnyOp) -> Option<AnyOp>
    ensures { result ≡ spec.opened_at cell.place (keeps_value values.now) cell.other op }
{
    let CellCut { place, other } = cell;
    let touch = place.touch(op, None)?;
    let (op, _) = cut_touch(place.keeps_none(), values, other, false, None, touch)?;
    Some(op)
}

/// What an operation becomes; `None`: the part leaves it out.
fn cut_operation(
    cell: CellCut,
    values: &Values,
    numbers: &BTreeSet<u32>,
    operation: &Operation,
) -> Option<Operation>
    ensures { result ≡ operation_at cell.place (keeps_value values.now) cell.other
        (keeps_number numbers.now) operation.now }
{
    let number = operation.number;
    match operation.end {
        End::Returned { at, reply } => {
            let kept = numbers.contains(&number);
            let (op, reply) = returned_op(cell, values, kept, operation.op, reply)?;
            Some(Operation {
                number,
                op,
                end: End::Returned { at, reply },
            })
        }
        End::Pending => {
            let op = pending_op(cell, values, operation.op)?;
            Some(Operation {
                number,
                op,
                end: End::Pending,
            })
        }
        End::Failed => None,
    }
}

/// The operations of the part.
fn cut_operations(
    alloc: Global,
    operations: &[Operation],
    cell: CellCut,
    values: &Values,
    numbers: &BTreeSet<u32>,
) -> Result<Vec<Operation>, AllocError>
    ensures { IfOk result (λ v. v.items ≡ filter_map (operation_at cell.place
        (keeps_value values.now) cell.other (keeps_number numbers.now)) operations.now) }
{
    operations
        .iter()
        .filter_map(|o| cut_operation(cell, values, numbers, o))
        .collect(alloc)
}

/// The part of an object's operations at one of its cells.
fn part_at(
    alloc: Global,
    history: &ObjectHistory,
    cell: CellCut,
    values: &Values,
    numbers: &BTreeSet<u32>,
) -> Result<ObjectHistory, AllocError>
    ensures part { IfOk result (λ p. IsPart history.now p) }
    ensures kind { IfOk result (λ p.
        p.kind ≡ kinds.kind_at_cell cell.place history.now.kind) }
    ensures calls { IfOk result (λ p. calls_of p.ops ≡ spec.calls_at cell.place
        (keeps_value values.now) cell.other (keeps_number numbers.now)
        (calls_of history.now.ops)) }
{
    let ops = cut_operations(alloc, history.ops(), cell, values, numbers)?;
    let kind = cell.place.kind_at_cell(history.kind());
    Ok(ObjectHistory::new(history.object(), kind, ops))
}

/// The part of a register's operations that can leave one of these values, or nothing, and of the
/// others those with these numbers, which leave the other value in place of theirs. A read of a
/// value that is not kept becomes a write of the other value, and so does a swap from such a value
/// become a write. For an object of another kind the part is empty.
///
/// An error: an allocation failed.
pub(crate) fn cell_part(
    alloc: Global,
    history: &ObjectHistory,
    values: &Values,
    other: i64,
    numbers: &BTreeSet<u32>,
) -> Result<ObjectHistory, AllocError>
    ensures part { IfOk result (λ p. IsPart history.now p) }
    ensures kind { IfOk result (λ p. p.kind ≡ history.now.kind) }
    ensures calls { IfOk result (λ p. calls_of p.ops
        ≡ spec.cell_calls (keeps_value values.now) other (keeps_number numbers.now)
        (calls_of history.now.ops)) }
{
    let place = CellId::OfRegister;
    part_at(alloc, history, CellCut { place, other }, values, numbers)
}

/// The part of a map's operations on one key, as the operations of a register: those that can leave
/// one of these values, and of the others those with these numbers. No value, and a value that is
/// not kept, are one other value in the part: what shows or leaves one becomes a write of it, or a
/// swap to it from a kept value. For an object of another kind the part is empty.
///
/// An error: an allocation failed.
pub(crate) fn entry_part(
    alloc: Global,
    history: &ObjectHistory,
    key: i64,
    values: &Values,
    other: i64,
    numbers: &BTreeSet<u32>,
) -> Result<ObjectHistory, AllocError>
    ensures part { IfOk result (λ p. IsPart history.now p) }
    ensures kind { IfOk result (λ p. p.kind ≡ Kind.Register) }
    ensures calls { IfOk result (λ p. calls_of p.ops
        ≡ spec.entry_calls key (keeps_value values.now) other (keeps_number numbers.now)
        (calls_of history.now.ops)) }
{
    let place = CellId::OfKey(key);
    part_at(alloc, history, CellCut { place, other }, values, numbers)
}
