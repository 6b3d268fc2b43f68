//! Prefixes: what was invoked before a number.

ghost use Rattle.std.specs.Prelude.{◌≡◌, IfOk};
ghost use Rattle.std.specs.List.{filter_map};
ghost use Rattle.events.specs.Operations.{calls_of};
ghost use Rattle.cuts.specs.Parts.{calls_before};
ghost use Rattle.cuts.specs.Cuts.{IsPart};
ghost use Rattle.cuts.specs.CutOperations.{end_before, operation_before};

use events::{End, ObjectHistory, Operation};
use std::alloc::{AllocError, Global};

/// How an operation had ended before this number.
fn end_then(end: End, until: u32) -> End
    ensures { result ≡ end_before until end }
{
    match end {
        End::Returned { at, .. } if at >= until => End::Pending,
        _ => end,
    }
}

/// The operation as it was before this number, if it did not fail and was invoked before.
fn cut_operation(operation: &Operation, until: u32) -> Option<Operation>
    ensures { result ≡ operation_before until operation.now }
{
    if operation.end == End::Failed {
        return None;
    }
    if operation.number < until {
        return Some(Operation {
            number: operation.number,
            op: operation.op,
            end: end_then(operation.end, until),
        });
    }
    None
}

/// The operations as they were before this number.
fn cut_operations(
    alloc: Global,
    operations: &[Operation],
    until: u32,
) -> Result<Vec<Operation>, AllocError>
    ensures { IfOk result (λ v. v.items ≡ filter_map (operation_before until) operations.now) }
{
    operations
        .iter()
        .filter_map(|o| cut_operation(o, until))
        .collect(alloc)
}

/// The part of the operations that were invoked before this number, and did not fail. One that
/// returned at it or later is pending.
///
/// An error: an allocation failed.
pub(crate) fn prefix_until(
    alloc: Global,
    history: &ObjectHistory,
    until: u32,
) -> Result<ObjectHistory, AllocError>
    ensures part { IfOk result (λ p. IsPart history.now p) }
    ensures kind { IfOk result (λ p. p.kind ≡ history.now.kind) }
    ensures calls { IfOk result (λ p.
        calls_of p.ops ≡ calls_before until (calls_of history.now.ops)) }
{
    let ops = cut_operations(alloc, history.ops(), until)?;
    Ok(ObjectHistory::new(history.object(), history.kind(), ops))
}
