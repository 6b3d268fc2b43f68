//! What the operations of queues, stacks and heaps put in and take out.

ghost use Rattle.std.specs.Prelude.{◌≡◌, Option};
ghost use Rattle.cuts.specs.Kinds.Containers as spec;

use seq_objects::AnyOp;

/// The value that an operation puts in.
pub(crate) fn put_value(op: AnyOp) -> Option<i64>
    ensures { result ≡ spec.put_value op }
{
    match op {
        AnyOp::Enqueue(value) => Some(value),
        AnyOp::Push(value) => Some(value),
        AnyOp::Insert(value) => Some(value),
        _ => None,
    }
}

pub(crate) fn is_removal(op: AnyOp) -> bool
    ensures { result ≡ spec.is_removal op }
{
    matches!(op, AnyOp::Dequeue | AnyOp::Pop | AnyOp::ExtractMin)
}

/// Whether a removal takes out what was put in first.
pub(crate) fn takes_first(op: AnyOp) -> bool
    ensures { result ≡ spec.takes_first op }
{
    matches!(op, AnyOp::Dequeue)
}

/// Whether a removal takes out what was put in last.
pub(crate) fn takes_last(op: AnyOp) -> bool
    ensures { result ≡ spec.takes_last op }
{
    matches!(op, AnyOp::Pop)
}

/// Whether a value can be ahead of what a removal found.
pub(crate) fn is_value_ahead(found: Option<i64>, op: AnyOp, value: i64) -> bool
    ensures { result ≡ spec.is_value_ahead found op value }
{
    match (found, op) {
        (None, _) => true,
        (Some(_), AnyOp::Dequeue | AnyOp::Pop) => true,
        (Some(found), AnyOp::ExtractMin) => value < found,
        _ => false,
    }
}
