//! What sets a content that is counted, and what takes it away.

ghost use Rattle.std.specs.Prelude.{◌≡◌, Option};
ghost use Rattle.cuts.specs.Kinds.Counting as spec;

use crate::counting::Counted;
use seq_objects::{AnyOp, AnyReply, Kind};

/// Whether the reply is this value.
fn is_reply(value: i64, reply: Option<AnyReply>) -> bool
    ensures { result ≡ spec.is_reply value reply }
{
    match reply {
        Some(AnyReply::Value(Some(taken))) => taken == value,
        _ => false,
    }
}

/// Whether the reply is that the operation did not take place.
fn is_refused(reply: Option<AnyReply>) -> bool
    ensures { result ≡ spec.is_refused reply }
{
    match reply {
        Some(AnyReply::Flag(false)) => true,
        _ => false,
    }
}

/// Whether an operation with this reply sets the content; with no reply, whether it may.
pub(crate) fn sets(counted: Counted, op: AnyOp, reply: Option<AnyReply>) -> bool
    ensures { result ≡ spec.sets counted op reply }
{
    match (counted, op) {
        (Counted::Value(value), AnyOp::Enqueue(new)) => new == value,
        (Counted::Value(value), AnyOp::Push(new)) => new == value,
        (Counted::Value(value), AnyOp::Insert(new)) => new == value,
        (Counted::Value(value), AnyOp::Write(new)) => new == value,
        (Counted::Value(value), AnyOp::Cas(_, new)) => match reply {
            None | Some(AnyReply::Swapped(..)) => new == value,
            _ => false,
        },
        (Counted::Value(value), AnyOp::Create(new)) => !is_refused(reply) && new == value,
        (Counted::Entry { key, value }, AnyOp::Put(at, new)) => at == key && new == value,
        (Counted::Entry { key, value }, AnyOp::PutIfAbsent(at, new)) => {
            !is_refused(reply) && (at == key && new == value)
        }
        (Counted::Entry { key, value }, AnyOp::Replace(at, _, new)) => {
            !is_refused(reply) && (at == key && new == value)
        }
        (Counted::Entry { key, value }, AnyOp::Assoc(at, new)) => at == key && new == value,
        (Counted::NoEntry(key), AnyOp::Del(at)) => match reply {
            None | Some(AnyReply::Value(Some(_))) => at == key,
            _ => false,
        },
        (Counted::NoEntry(key), AnyOp::Dissoc(at)) => at == key,
        (Counted::Held, AnyOp::Acquire) => true,
        (Counted::Free, AnyOp::Release) => true,
        _ => false,
    }
}

/// Whether an operation with this reply took the content away.
pub(crate) fn takes(counted: Counted, op: AnyOp, reply: AnyReply) -> bool
    ensures { result ≡ spec.takes counted op (Option.Some reply) }
{
    match (counted, op) {
        (Counted::Value(value), AnyOp::Dequeue | AnyOp::Pop | AnyOp::ExtractMin) => {
            is_reply(value, Some(reply))
        }
        (Counted::Value(value), AnyOp::Cas(expected, _)) => match reply {
            AnyReply::Swapped(..) => expected == value,
            _ => false,
        },
        (Counted::Entry { key, value }, AnyOp::Put(at, _)) => {
            at == key && is_reply(value, Some(reply))
        }
        (Counted::Entry { key, value }, AnyOp::Del(at)) => {
            at == key && is_reply(value, Some(reply))
        }
        (Counted::Entry { key, value }, AnyOp::Replace(at, old, _)) => match reply {
            AnyReply::Flag(true) => at == key && old == value,
            _ => false,
        },
        (Counted::NoEntry(key), AnyOp::Put(at, _)) => match reply {
            AnyReply::Value(None) => at == key,
            _ => false,
        },
        (Counted::NoEntry(key), AnyOp::PutIfAbsent(at, _)) => match reply {
            AnyReply::Flag(true) => at == key,
            _ => false,
        },
        (Counted::Free, AnyOp::Acquire) => true,
        (Counted::Held, AnyOp::Release) => true,
        _ => false,
    }
}

/// Whether a count on an object of this kind may begin at any number: a content can be there only
/// once at a time.
pub(crate) fn may_count_from(kind: Kind) -> bool
    ensures { result ≡ spec.may_count_from kind }
{
    match kind {
        Kind::Register | Kind::Map | Kind::Mutex => true,
        Kind::Queue | Kind::Stack | Kind::Heap => false,
        Kind::Set | Kind::Counter | Kind::Lock => false,
    }
}
