//! Absent values: the operations without those that were done with a value before it definitely was
//! not in the object.

ghost use Rattle.std.specs.Prelude.{◌≡◌, true, IfOk, IfSome, None, count_by, filter, not};
ghost use Rattle.events.specs.Operations.{calls_of};
ghost use Rattle.cuts.specs.Absent.{IsAbsent, IsWithout};
ghost use Rattle.cuts.specs.Cuts.{IsPart};
ghost use Rattle.cuts.specs.CutOperations.{stays, op_is_put_before, op_is_taken_before};

use crate::kinds::containers::{is_removal, put_value};
use events::{End, ObjectHistory, Operation};
use seq_objects::AnyReply;
use std::alloc::{AllocError, Global};

/// Whether an operation that did not fail puts in this value, and was invoked before this number.
fn puts_before(value: i64, before: u32, operation: &Operation) -> bool
    ensures { result ≡ op_is_put_before value before operation.now.number operation.now.op
        operation.now.«end» }
{
    if operation.end == End::Failed {
        return false;
    }
    match put_value(operation.op) {
        Some(put) => value == put && operation.number < before,
        None => false,
    }
}

/// Whether an operation took out this value, and returned before this number.
fn takes_before(value: i64, before: u32, operation: &Operation) -> bool
    ensures { result ≡ op_is_taken_before value before operation.now.op operation.now.«end» }
{
    match operation.end {
        End::Returned {
            at,
            reply: AnyReply::Value(Some(taken)),
        } => is_removal(operation.op) && (value == taken && at < before),
        _ => false,
    }
}

/// How many operations put in the value and were invoked before this number.
fn put_count(value: i64, before: u32, operations: &[Operation]) -> usize
    ensures { result ≡ count_by (λ o. op_is_put_before value before o.number o.op o.«end»)
        operations.now }
{
    operations
        .iter()
        .filter(|o| puts_before(value, before, o))
        .count()
}

/// How many operations took out the value and returned before this number.
fn taken_count(value: i64, before: u32, operations: &[Operation]) -> usize
    ensures { result ≡ count_by (λ o. op_is_taken_before value before o.op o.«end»)
        operations.now }
{
    operations
        .iter()
        .filter(|o| takes_before(value, before, o))
        .count()
}

/// Whether at least as many removals of the value returned before this number as puts of it were
/// invoked.
fn is_absent(value: i64, before: u32, operations: &[Operation]) -> bool
    ensures yes { result ≡ true → IsAbsent value before (calls_of operations.now) }
    ensures no { IsAbsent value before (calls_of operations.now) → result ≡ true }
{
    put_count(value, before, operations) <= taken_count(value, before, operations)
}

/// The operations that did not fail, without those puts and those removals.
fn cut_operations(
    alloc: Global,
    value: i64,
    before: u32,
    operations: &[Operation],
) -> Result<Vec<Operation>, AllocError>
    ensures { IfOk result (λ v. v.items ≡ filter (stays value before) operations.now) }
{
    operations
        .iter()
        .filter(|o| {
            o.end != End::Failed
                && !(puts_before(value, before, o) || takes_before(value, before, o))
        })
        .copied()
        .collect(alloc)
}

/// The part without the puts of a value that were invoked before this number, and without the
/// removals of it that had returned by then. There are at least as many of these as of those, so
/// that the value definitely was not in the queue, stack or heap; `None`: there are fewer.
///
/// An error: an allocation failed.
pub(crate) fn part_without(
    alloc: Global,
    history: &ObjectHistory,
    value: i64,
    before: u32,
) -> Result<Option<ObjectHistory>, AllocError>
    ensures part { IfOk result (λ o. IfSome o (λ p. IsPart history.now p)) }
    ensures kind { IfOk result (λ o. IfSome o (λ p. p.kind ≡ history.now.kind)) }
    ensures calls { IfOk result (λ o. IfSome o (λ p.
        IsWithout value before (calls_of history.now.ops) (calls_of p.ops))) }
    // `None` is given only if the value may have been in the object.
    ensures refused { IfOk result (λ o. o ≡ None
        → IsAbsent value before (calls_of history.now.ops) → ⊥) }
{
    let operations = history.ops();
    if !is_absent(value, before, operations) {
        return Ok(None);
    }
    let ops = cut_operations(alloc, value, before, operations)?;
    Ok(Some(ObjectHistory::new(history.object(), history.kind(), ops)))
}
