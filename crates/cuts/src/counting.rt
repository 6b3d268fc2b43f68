//! Counts: a content that was taken away more often than it can have been there. They need no
//! search.

ghost use Rattle.std.specs.Prelude.{◌≡◌, true, MatchBool, Option, count_by};
ghost use Rattle.model.specs.Orders.{HasNoValidOrder};
ghost use Rattle.events.specs.Operations.{calls_of};
ghost use Rattle.cuts.specs.Counts as counts;
ghost use Rattle.cuts.specs.Counts.{IsOverdrawn};
ghost use Rattle.cuts.specs.CutOperations.{is_set, is_gone};

use crate::kinds::counting::{may_count_from, sets, takes};
use events::{End, ObjectHistory, Operation};
use seq_objects::Kind;

/// What is counted: a content, or a part of one.
#[derive(Clone, Copy, Debug, PartialEq, Eq)]
pub enum Counted {
    /// This value, in a queue, stack, heap or register.
    Value(i64),
    /// This value under this key of a map.
    Entry { key: i64, value: i64 },
    /// No value under this key of a map.
    NoEntry(i64),
    /// A mutex that is held.
    Held,
    /// A mutex that is free.
    Free,
}

/// How often `counted` is set and taken away, from the event with the number `from` on. 0 counts
/// from the beginning of the history.
#[derive(Clone, Copy, Debug, PartialEq, Eq)]
pub struct Count {
    pub counted: Counted,
    pub from: u32,
}

/// Whether an operation that did not fail sets the content, and had not returned before the count
/// begins.
fn sets_since(count: Count, operation: &Operation) -> bool
    ensures { result ≡ is_set count.counted count.from operation.now.op operation.now.«end» }
{
    match operation.end {
        End::Returned { at, reply } => {
            sets(count.counted, operation.op, Some(reply)) && !(at < count.from)
        }
        End::Pending => sets(count.counted, operation.op, None),
        End::Failed => false,
    }
}

/// Whether an operation was invoked where the count begins or later, and took the content away.
fn takes_since(count: Count, operation: &Operation) -> bool
    ensures { result ≡ is_gone count.counted count.from operation.now.number operation.now.op
        operation.now.«end» }
{
    match operation.end {
        End::Returned { reply, .. } => {
            takes(count.counted, operation.op, reply) && !(operation.number < count.from)
        }
        _ => false,
    }
}

/// How often the object can have contained the content before the count begins, at most, or `None`
/// if no bound is known.
fn most_before(kind: Kind, count: Count) -> Option<usize>
    ensures { result ≡ counts.most_before kind count.counted count.from }
{
    if count.from == 0 {
        return match count.counted {
            Counted::NoEntry(_) | Counted::Free => Some(1),
            _ => Some(0),
        };
    }
    if may_count_from(kind) { Some(1) } else { None }
}

/// How many operations set the content, and how many took it away, in this order.
fn times(operations: &[Operation], count: Count) -> (usize, usize)
    ensures set { result.0
        ≡ count_by (λ o. is_set count.counted count.from o.op o.«end») operations.now }
    ensures taken { result.1
        ≡ count_by (λ o. is_gone count.counted count.from o.number o.op o.«end») operations.now }
{
    let set = operations.iter().filter(|o| sets_since(count, o)).count();
    let taken = operations.iter().filter(|o| takes_since(count, o)).count();
    (set, taken)
}

/// Whether the content was taken away, by operations that were invoked where the count begins or
/// later, more often than the object can have contained it before and operations that had not
/// returned before can have set it. Then no order is valid.
pub fn is_overdrawn(history: &ObjectHistory, count: Count) -> bool
    ensures counts { MatchBool result
        (IsOverdrawn history.now.kind count (calls_of history.now.ops))
        (IsOverdrawn history.now.kind count (calls_of history.now.ops) → ⊥) }
    ensures shows { result ≡ true → HasNoValidOrder history.now.kind (calls_of history.now.ops) }
{
    let Some(most) = most_before(history.kind(), count) else {
        return false;
    };
    let (set, taken) = times(history.ops(), count);
    taken.saturating_sub(set) > most
}
