//! Counts of what definitely was ahead of what a removal found, so that it must have been taken out
//! before. They need no search.

ghost use Rattle.std.specs.Prelude.{◌≡◌, ◌≢◌, ◌<◌, true, MatchBool, IfSome, All, AllPairs};
ghost use Rattle.std.specs.Prelude.{Contains, count_by, Option, None, Some, ℕ, ℤ};
ghost use Rattle.std.specs.List.{find, list_all};
ghost use Rattle.std.specs.Ordering.{int_eq};
ghost use Rattle.model.specs.declared.AnyOp.{AnyOp};
ghost use Rattle.model.specs.Orders.{HasNoValidOrder};
ghost use Rattle.events.specs.Operations.{calls_of};
ghost use Rattle.cuts.specs.Ahead.{IsBlocked};
ghost use Rattle.cuts.specs.Kinds.Containers as containers;
ghost use Rattle.cuts.specs.CutOperations.{op_ahead_before, op_first_put, op_found, is_put};
ghost use Rattle.cuts.specs.CutOperations.{op_are_settled, op_is_put_ahead, op_is_settled};
ghost use Rattle.cuts.specs.CutOperations.{op_may_precede, op_may_take, IsRemoval};

use crate::kinds::containers::{is_removal, is_value_ahead, put_value, takes_first, takes_last};
use crate::suffix::{is_before, operation_at};
use events::{End, ObjectHistory, Operation};
use seq_objects::{AnyOp, AnyReply};

/// A removal that returned: its number, that of its response, and what it found.
#[derive(Clone, Copy)]
struct Removal {
    number: u32,
    op: AnyOp,
    at: u32,
    found: Option<i64>,
}

/// The number of the response of a removal, and what it found.
fn found_by(op: AnyOp, end: End) -> Option<(u32, Option<i64>)>
    ensures { result ≡ op_found op «end» }
{
    let End::Returned { at, reply } = end else {
        return None;
    };
    match reply {
        AnyReply::Value(found) if is_removal(op) => Some((at, found)),
        _ => None,
    }
}

/// The removal of this number, if it is one that returned.
fn removal_at(operations: &[Operation], number: u32) -> Option<Removal>
    requires { AllPairs (λ a b. a.number < b.number) operations.now }
    ensures some { IfSome result (λ t. IsRemoval operations.now number t.op t.at t.found) }
    ensures named { IfSome result (λ t. t.number ≡ number) }
    ensures none { result ≡ None → (op : AnyOp) (at : ℕ) (found : Option ℤ)
        → IsRemoval operations.now number op at found → ⊥ }
{
    let operation = operation_at(operations, number)?;
    let Some((at, found)) = found_by(operation.op, operation.end) else {
        return None;
    };
    Some(Removal {
        number,
        op: operation.op,
        at,
        found,
    })
}

/// Whether an operation puts in such a value.
fn puts_in(removal: Removal, op: AnyOp) -> bool
    ensures { result ≡ containers.puts_in (containers.is_value_ahead removal.found removal.op) op }
{
    match put_value(op) {
        Some(value) => is_value_ahead(removal.found, removal.op, value),
        None => false,
    }
}

/// Whether an operation that did not fail puts in this value.
fn puts_value(value: i64, operation: &Operation) -> bool
    ensures { result ≡ is_put (int_eq value) operation.now.op operation.now.«end» }
{
    if operation.end == End::Failed {
        return false;
    }
    match put_value(operation.op) {
        Some(new) => value == new,
        None => false,
    }
}

/// The first operation that did not fail and puts in this value.
fn first_put_of(operations: &[Operation], value: i64) -> Option<Operation>
    ensures { result ≡ find (λ o. is_put (int_eq value) o.op o.«end») operations.now }
{
    for operation in operations {
        if puts_value(value, operation) {
            return Some(*operation);
        }
    }
    None
}

/// Its number; 0: there is none. Then no put counts as ahead: each must have returned before this
/// number, and no operation returned before the number 0.
fn first_put(operations: &[Operation], value: i64) -> u32
    ensures { result ≡ op_first_put value operations.now }
{
    match first_put_of(operations, value) {
        Some(operation) => operation.number,
        None => 0,
    }
}

/// The number before which a put must have returned, so that it definitely was ahead.
fn ahead_before(operations: &[Operation], removal: Removal) -> u32
    ensures { result ≡ op_ahead_before removal.found removal.op removal.number operations.now }
{
    match removal.found {
        None => removal.number,
        Some(found) if takes_first(removal.op) => {
            removal.number.min(first_put(operations, found))
        }
        Some(_) => removal.number,
    }
}

/// Whether an operation failed, or puts in another value, or returned before this number.
fn is_settled(value: i64, from: u32, operation: &Operation) -> bool
    ensures { result ≡ op_is_settled value from operation.now }
{
    !puts_value(value, operation) || is_before(operation.end, from)
}

/// Whether each of these operations is settled, as `is_settled` says of one.
fn are_all_settled(operations: &[Operation], value: i64, from: u32) -> bool
    ensures { result ≡ list_all (op_is_settled value from) operations.now }
{
    operations.iter().all(|o| is_settled(value, from, o))
}

/// Whether, if the removal found a value in a stack, each put of it returned before this number.
fn are_settled(operations: &[Operation], removal: Removal, from: u32) -> bool
    ensures { result ≡ op_are_settled removal.found removal.op from operations.now }
{
    match removal.found {
        None => true,
        Some(found) if takes_last(removal.op) => are_all_settled(operations, found, from),
        Some(_) => true,
    }
}

/// Whether an operation put in what definitely was ahead.
fn is_ahead(removal: Removal, from: u32, before: u32, operation: &Operation) -> bool
    ensures { result ≡ op_is_put_ahead (containers.is_value_ahead removal.found removal.op) from
        before operation.now.number operation.now.op operation.now.«end» }
{
    match operation.end {
        End::Returned { at, .. } => {
            puts_in(removal, operation.op) && (at < before && !(operation.number < from))
        }
        _ => false,
    }
}

/// Whether an operation took out a value that can be ahead, or may have.
fn may_take(removal: Removal, op: AnyOp, end: End) -> bool
    ensures { result ≡ op_may_take (containers.is_value_ahead removal.found removal.op) op «end» }
{
    match end {
        End::Returned { reply, .. } => match reply {
            AnyReply::Value(Some(value)) => {
                is_removal(op) && is_value_ahead(removal.found, removal.op, value)
            }
            _ => false,
        },
        End::Pending => is_removal(op),
        End::Failed => false,
    }
}

/// Whether an operation may have taken out such a value before the removal.
fn may_precede(removal: Removal, operation: &Operation) -> bool
    ensures { result ≡ op_may_precede (containers.is_value_ahead removal.found removal.op)
        removal.number removal.at operation.now }
{
    may_take(removal, operation.op, operation.end)
        && !(operation.number == removal.number || removal.at < operation.number)
}

/// How many operations put in what definitely was ahead, and how many may have taken such a value
/// out before the removal.
fn times(operations: &[Operation], removal: Removal, from: u32) -> (usize, usize)
    ensures ahead { result.0 ≡ count_by (λ o. op_is_put_ahead
        (containers.is_value_ahead removal.found removal.op) from
        (op_ahead_before removal.found removal.op removal.number operations.now)
        o.number o.op o.«end») operations.now }
    ensures takes { result.1 ≡ count_by (op_may_precede
        (containers.is_value_ahead removal.found removal.op) removal.number removal.at)
        operations.now }
{
    let before = ahead_before(operations, removal);
    let ahead = operations
        .iter()
        .filter(|o| is_ahead(removal, from, before, o))
        .count();
    let takes = operations
        .iter()
        .filter(|o| may_precede(removal, o))
        .count();
    (ahead, takes)
}

/// Whether more values definitely were ahead of what the removal of this number found than other
/// operations can have taken out before it. Then no order is valid.
///
/// Values that definitely were ahead are those that were put in before the removal was invoked: if
/// it found nothing, all of them; of a heap, the lesser ones; of a queue, those whose put returned
/// before the first put of the found value was invoked; of a stack, those whose put was invoked
/// after each put of the found value had returned. Only puts count that were invoked at the number
/// `from` or later; of a stack each put of the found value must have returned before it.
pub fn is_blocked(history: &ObjectHistory, number: u32, from: u32) -> bool
    ensures counts { MatchBool result (IsBlocked number from (calls_of history.now.ops))
        (IsBlocked number from (calls_of history.now.ops) → ⊥) }
    ensures shows { result ≡ true → HasNoValidOrder history.now.kind (calls_of history.now.ops) }
{
    let operations = history.ops();
    let Some(removal) = removal_at(operations, number) else {
        return false;
    };
    let settled = are_settled(operations, removal, from);
    let (ahead, takes) = times(operations, removal, from);
    settled && takes < ahead
}
