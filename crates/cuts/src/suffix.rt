//! Suffixes: what can take effect from a call on that tells what the object then contains.

ghost use Rattle.std.specs.Prelude.{◌≡◌, ◌≢◌, ◌<◌, ℕ, List, IfOk, IfSome, All, AllPairs};
ghost use Rattle.std.specs.Prelude.{Contains, MatchBool, Option, None, true, false};
ghost use Rattle.std.specs.List.{filter_map};
ghost use Rattle.model.specs.declared.AnyOp.{AnyOp};
ghost use Rattle.model.specs.declared.AnyReply.{AnyReply};
ghost use Rattle.model.specs.Orders.{Call};
ghost use Rattle.events.specs.Operations.{calls_of};
ghost use Rattle.cuts.specs.Parts as parts;
ghost use Rattle.cuts.specs.Parts.{IsStart};
ghost use Rattle.cuts.specs.Kinds.Starts.{leaves};
ghost use Rattle.cuts.specs.Kinds.Starts as starts;
ghost use Rattle.cuts.specs.Cuts.{IsSuffix, IsPart};
ghost use Rattle.cuts.specs.CutOperations.{has_failed, is_over, overlapping_operation};
ghost use Rattle.cuts.specs.CutOperations.{operation_later, operation_from, IsOnKey};

use crate::kinds::register::setting;
use crate::kinds::starts::{First, first_of, key_of, written};
use events::{End, ObjectHistory, Operation};
use seq_objects::{AnyOp, AnyReply};
use std::alloc::{AllocError, Global};

/// Where a suffix begins: the number of the first call's response, and what leaves the object as
/// the first call did; `None`: it left nothing.
#[derive(Clone, Copy)]
struct Start {
    at: u32,
    first: Option<First>,
}

/// The value that an operation with this reply left in a register, whatever it contained, if the
/// suffix begins with an operation.
fn written_before(first: Option<First>, op: AnyOp, reply: AnyReply) -> Option<i64>
    ensures { result ≡ parts.written_before first op reply }
{
    match first {
        None => None,
        Some(_) => written(op, reply),
    }
}

/// An operation that overlaps the first one. If the first one left a value, a write becomes a
/// write, and so does a swap that was not refused. Any other is pending.
fn overlapping(first: Option<First>, operation: &Operation) -> Operation
    ensures { result ≡ overlapping_operation first operation.now.number operation.now.op
        operation.now.«end» }
{
    if let End::Returned { at, reply } = operation.end {
        if let Some(value) = written_before(first, operation.op, reply) {
            let (op, reply) = setting(Some(value));
            return Operation {
                number: operation.number,
                op,
                end: End::Returned { at, reply },
            };
        }
    }
    Operation {
        number: operation.number,
        op: operation.op,
        end: End::Pending,
    }
}

/// What an operation becomes that did not return before the first one.
fn later(start: Start, operation: &Operation) -> Operation
    ensures { result ≡ operation_later start.first start.at operation.now }
{
    if operation.number > start.at {
        return *operation;
    }
    overlapping(start.first, operation)
}

/// Whether an operation returned before this number.
pub(crate) fn is_before(end: End, from: u32) -> bool
    ensures { result ≡ is_over from end }
{
    match end {
        End::Returned { at, .. } => at < from,
        _ => false,
    }
}

/// What an operation becomes; `None`: the part leaves it out.
fn cut_operation(operation: &Operation, from: u32, start: Start) -> Option<Operation>
    ensures { result ≡ operation_from from start.at start.first operation.now }
{
    if operation.end == End::Failed {
        return None;
    }
    if operation.number == from {
        let (op, reply) = start.first?;
        return Some(Operation {
            number: from,
            op,
            end: End::Returned {
                at: start.at,
                reply,
            },
        });
    }
    if is_before(operation.end, from) {
        return None;
    }
    Some(later(start, operation))
}

/// The operations of the suffix.
fn cut_operations(
    alloc: Global,
    operations: &[Operation],
    from: u32,
    start: Start,
) -> Result<Vec<Operation>, AllocError>
    ensures { IfOk result (λ v. v.items
        ≡ filter_map (operation_from from start.at start.first) operations.now) }
{
    operations
        .iter()
        .filter_map(|o| cut_operation(o, from, start))
        .collect(alloc)
}

/// Whether an operation failed, or is on this key; `None`: it has no key.
fn is_on_key(operation: &Operation, key: Option<i64>) -> bool
    ensures { MatchBool result (IsOnKey key operation.now) (IsOnKey key operation.now → ⊥) }
{
    operation.end == End::Failed || key_of(operation.op) == key
}

/// Whether each operation failed, or is on this key.
fn are_on_key(operations: &[Operation], key: Option<i64>) -> bool
    ensures yes { result ≡ true → All (IsOnKey key) operations.now }
    ensures no { result ≡ false → All (IsOnKey key) operations.now → ⊥ }
{
    operations.iter().all(|o| is_on_key(o, key))
}

/// The operation with this number.
pub(crate) fn operation_at(operations: &[Operation], number: u32) -> Option<Operation>
    ensures some { IfSome result (λ o. Contains operations.now o × (o.number ≡ number)) }
    ensures none { result ≡ None → All (λ o. o.number ≢ number) operations.now }
{
    operations.iter().find(|o| o.number == number).copied()
}

/// Where the suffix begins that begins with this operation, if there is one.
fn start_by(operations: &[Operation], operation: Operation) -> Option<Start>
    requires { Contains operations.now operation }
    ensures some { IfSome result (λ s.
        IsStart (calls_of operations.now) operation.number s.at s.first) }
    ensures none { result ≡ None → (at : ℕ) (reply : AnyReply)
        → (first : Option (AnyOp × AnyReply)) → operation.«end» ≡ End.Returned at reply
        → leaves operation.op reply ≡ Some first
        → All (IsOnKey (starts.key_of operation.op)) operations.now → ⊥ }
{
    let End::Returned { at, reply } = operation.end else {
        return None;
    };
    let first = first_of(operation.op, reply)?;
    if are_on_key(operations, key_of(operation.op)) {
        return Some(Start { at, first });
    }
    None
}

/// Where the suffix begins that begins at this number, if there is one.
fn start_at(operations: &[Operation], number: u32) -> Option<Start>
    requires { AllPairs (λ a b. a.number < b.number) operations.now }
    ensures some { IfSome result (λ s. IsStart (calls_of operations.now) number s.at s.first) }
    ensures none { result ≡ None → (at : ℕ) (first : Option (AnyOp × AnyReply))
        → IsStart (calls_of operations.now) number at first → ⊥ }
{
    let operation = operation_at(operations, number)?;
    start_by(operations, operation)
}

/// The part that begins with the call of this number. Returns None unless the call returned, its
/// reply tells what it left, and each call is on its key (of a map) or its element (of a set).
/// The part leaves out each call that returned before it. Of the calls that overlap the first one:
/// if the first left a value, a write, or a swap that was not refused, becomes a write, and any
/// other is pending. If it left nothing, all are pending.
///
/// An error: an allocation failed.
pub(crate) fn suffix_from(
    alloc: Global,
    history: &ObjectHistory,
    number: u32,
) -> Result<Option<ObjectHistory>, AllocError>
    ensures part { IfOk result (λ o. IfSome o (λ p. IsPart history.now p)) }
    ensures kind { IfOk result (λ o. IfSome o (λ p. p.kind ≡ history.now.kind)) }
    ensures calls { IfOk result (λ o. IfSome o (λ p.
        IsSuffix number (calls_of history.now.ops) (calls_of p.ops))) }
    // `None` is given only if no suffix begins at this number.
    ensures refused { IfOk result (λ o. o ≡ None → (part : List Call)
        → IsSuffix number (calls_of history.now.ops) part → ⊥) }
{
    let operations = history.ops();
    let Some(start) = start_at(operations, number) else {
        return Ok(None);
    };
    let ops = cut_operations(alloc, operations, number, start)?;
    Ok(Some(ObjectHistory::new(history.object(), history.kind(), ops)))
}
