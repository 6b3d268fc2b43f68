//! Projections: the operations on some values, or on some keys.

ghost use Rattle.std.specs.Prelude.{◌≡◌, ◌<◌, ◌-◌, true, IfOk, IfSome, None, AllPairs};
ghost use Rattle.std.specs.Prelude.{filter, count_by};
ghost use Rattle.std.specs.List.{list_all};
ghost use Rattle.events.specs.Operations.{calls_of};
ghost use Rattle.cuts.specs.Parts.{kept_calls};
ghost use Rattle.cuts.specs.Cuts.{keeps_all, keeps_value, keeps_number, IsClosedPart, IsPart};
ghost use Rattle.cuts.specs.CutOperations.{op_fits, is_put, is_taken, is_open_removal};
ghost use Rattle.cuts.specs.CutOperations.{is_kept_call, keeps_first};

use crate::kinds::containers::{is_removal, put_value};
use crate::kinds::keeping::reply_fits;
use events::{End, ObjectHistory, Operation};
use seq_objects::AnyReply;
use std::alloc::{AllocError, Global};
use std::collections::BTreeSet;

/// Which values are kept, or at a map which keys. An element of a set is its own key.
#[derive(Drop)]
pub enum Values {
    All,
    Only(BTreeSet<i64>),
}

impl Values {
    pub(crate) fn is_all(&self) -> bool
        ensures { result ≡ keeps_all self.now }
    {
        matches!(self, Values::All)
    }

    pub(crate) fn has(&self, value: i64) -> bool
        ensures { result ≡ keeps_value self.now value }
    {
        match self {
            Values::All => true,
            Values::Only(values) => values.contains(&value),
        }
    }
}

/// If `kept`, whether a part may keep the operation; otherwise, whether it may leave it out. A
/// failed one may be either.
fn operation_fits(values: &Values, kept: bool, operation: &Operation) -> bool
    ensures { result ≡ op_fits (keeps_all values.now) (keeps_value values.now) kept
        operation.now.op operation.now.«end» }
{
    match operation.end {
        End::Returned { reply, .. } => reply_fits(values, kept, operation.op, Some(reply)),
        End::Pending => reply_fits(values, kept, operation.op, None),
        End::Failed => true,
    }
}

/// Whether an operation that did not fail puts in a kept value.
fn puts(values: &Values, operation: &Operation) -> bool
    ensures { result ≡ is_put (keeps_value values.now) operation.now.op operation.now.«end» }
{
    match operation.end {
        End::Failed => false,
        _ => match put_value(operation.op) {
            Some(value) => values.has(value),
            None => false,
        },
    }
}

/// Whether an operation returned a kept value that it took out.
fn takes(values: &Values, operation: &Operation) -> bool
    ensures { result ≡ is_taken (keeps_value values.now) operation.now.op operation.now.«end» }
{
    match operation.end {
        End::Returned {
            reply: AnyReply::Value(Some(value)),
            ..
        } => is_removal(operation.op) && values.has(value),
        _ => false,
    }
}

/// How many kept values can be left for pending removals.
fn left_over(values: &Values, operations: &[Operation]) -> usize
    ensures { result ≡ count_by (λ o. is_put (keeps_value values.now) o.op o.«end») operations.now
        - count_by (λ o. is_taken (keeps_value values.now) o.op o.«end») operations.now }
{
    let put = operations.iter().filter(|o| puts(values, o)).count();
    let taken = operations.iter().filter(|o| takes(values, o)).count();
    put.saturating_sub(taken)
}

/// Whether the operation is a removal that is pending.
fn is_pending_removal(operation: &Operation) -> bool
    ensures { result ≡ is_open_removal operation.now.op operation.now.«end» }
{
    is_removal(operation.op) && operation.end == End::Pending
}

/// Whether the first `most` pending removals, or all if there are fewer, have numbers of this set.
fn has_first(numbers: &BTreeSet<u32>, most: usize, operations: &[Operation]) -> bool
    ensures { result ≡ keeps_first (keeps_number numbers.now) most operations.now }
{
    let mut left = most;
    for operation in operations {
        if is_pending_removal(operation) {
            if left > 0 && !numbers.contains(&operation.number) {
                return false;
            }
            left = left.saturating_sub(1);
        }
    }
    true
}

/// Whether a part may keep each operation with one of these numbers, and leave out each other one.
fn all_fit(values: &Values, numbers: &BTreeSet<u32>, operations: &[Operation]) -> bool
    ensures { result ≡ list_all (λ o. op_fits (keeps_all values.now) (keeps_value values.now)
        (keeps_number numbers.now o.number) o.op o.«end») operations.now }
{
    operations
        .iter()
        .all(|o| operation_fits(values, numbers.contains(&o.number), o))
}

/// Whether the operations with these numbers make a closed part.
fn is_closed(values: &Values, numbers: &BTreeSet<u32>, operations: &[Operation]) -> bool
    requires { AllPairs (λ a b. a.number < b.number) operations.now }
    ensures yes { result ≡ true
        → IsClosedPart values.now numbers.now (calls_of operations.now) }
    ensures no { IsClosedPart values.now numbers.now (calls_of operations.now) → result ≡ true }
{
    if !all_fit(values, numbers, operations) {
        return false;
    }
    has_first(numbers, left_over(values, operations), operations)
}

/// The operations with these numbers that did not fail.
fn cut_operations(
    alloc: Global,
    numbers: &BTreeSet<u32>,
    operations: &[Operation],
) -> Result<Vec<Operation>, AllocError>
    ensures { IfOk result (λ v. v.items
        ≡ filter (is_kept_call (keeps_number numbers.now)) operations.now) }
{
    operations
        .iter()
        .filter(|o| o.end != End::Failed && numbers.contains(&o.number))
        .copied()
        .collect(alloc)
}

/// The part of the operations with these numbers that did not fail, which keeps these values, or at
/// a map these keys, or at a set these elements.
/// Of the pending removals it has at least the first ones: as many as kept values were put in, and
/// not taken out by calls that returned. `None`: the part is not closed, so a whole with a valid
/// order can have a part that has none.
///
/// An error: an allocation failed.
pub(crate) fn closed_part(
    alloc: Global,
    history: &ObjectHistory,
    values: &Values,
    numbers: &BTreeSet<u32>,
) -> Result<Option<ObjectHistory>, AllocError>
    ensures part { IfOk result (λ o. IfSome o (λ p. IsPart history.now p)) }
    ensures kind { IfOk result (λ o. IfSome o (λ p. p.kind ≡ history.now.kind)) }
    ensures closed { IfOk result (λ o. IfSome o (λ p.
        IsClosedPart values.now numbers.now (calls_of history.now.ops))) }
    ensures calls { IfOk result (λ o. IfSome o (λ p. calls_of p.ops
        ≡ kept_calls (keeps_number numbers.now) (calls_of history.now.ops))) }
    // `None` is given only if the part is not closed.
    ensures refused { IfOk result (λ o. o ≡ None
        → IsClosedPart values.now numbers.now (calls_of history.now.ops) → ⊥) }
{
    let operations = history.ops();
    if !is_closed(values, numbers, operations) {
        return Ok(None);
    }
    let ops = cut_operations(alloc, numbers, operations)?;
    Ok(Some(ObjectHistory::new(history.object(), history.kind(), ops)))
}
