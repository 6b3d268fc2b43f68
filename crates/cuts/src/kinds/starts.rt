//! What an operation tells of the content that it leaves, so that a suffix may begin with it.

ghost use Rattle.std.specs.Prelude.{◌≡◌, ◌+ℤ◌, Option, true};
ghost use Rattle.model.specs.declared.AnyOp.{AnyOp};
ghost use Rattle.model.specs.declared.AnyReply.{AnyReply};
ghost use Rattle.cuts.specs.Kinds.Starts as spec;

use crate::kinds::register::setting;
use seq_objects::{AnyOp, AnyReply};

/// An operation on an empty object, and its reply.
pub(crate) type First = (AnyOp, AnyReply);

/// The key of an operation of a map, or the element of one of a set.
pub(crate) fn key_of(op: AnyOp) -> Option<i64>
    ensures { result ≡ spec.key_of op }
{
    match op {
        AnyOp::Put(key, _) => Some(key),
        AnyOp::Get(key) => Some(key),
        AnyOp::Del(key) => Some(key),
        AnyOp::PutIfAbsent(key, _) => Some(key),
        AnyOp::Replace(key, ..) => Some(key),
        AnyOp::Assoc(key, _) => Some(key),
        AnyOp::Dissoc(key) => Some(key),
        AnyOp::Add(value) => Some(value),
        AnyOp::Remove(value) => Some(value),
        AnyOp::Has(value) => Some(value),
        _ => None,
    }
}

/// A put under a key that has no value, with its reply.
fn put_of(key: i64, value: i64) -> First
    ensures { result ≡ (AnyOp.Put key value, AnyReply.Value Option.None) }
{
    (AnyOp::Put(key, value), AnyReply::Value(None))
}

/// An addition of an element that is not in a set, with its reply.
fn add_of(value: i64) -> First
    ensures { result ≡ (AnyOp.Add value, AnyReply.Flag true) }
{
    (AnyOp::Add(value), AnyReply::Flag(true))
}

/// An addition to a counter at 0, with its reply.
fn count_of(count: i64) -> Option<First>
    ensures { Option.Some result ≡ spec.leaves_count count }
{
    Some((AnyOp::FetchAdd(count), AnyReply::Value(Some(0))))
}

/// What an addition to this number leaves in a counter.
fn sum_of(before: i64, more: i64) -> Option<Option<First>>
    ensures { result ≡ spec.leaves_count (before +ℤ more) }
{
    let count = before.checked_add(more)?;
    Some(count_of(count))
}

/// What an operation with this reply left, if the reply tells: nothing, or what this operation
/// leaves in an empty object.
pub(crate) fn first_of(op: AnyOp, reply: AnyReply) -> Option<Option<First>>
    ensures { result ≡ spec.leaves op reply }
{
    match (op, reply) {
        (AnyOp::Dequeue | AnyOp::Pop | AnyOp::ExtractMin, AnyReply::Value(None)) => Some(None),
        (AnyOp::Write(value), _) => Some(Some(setting(Some(value)))),
        (AnyOp::Read, AnyReply::Value(None)) => Some(None),
        (AnyOp::Read, AnyReply::Value(Some(value))) => Some(Some(setting(Some(value)))),
        (AnyOp::Cas(_, new), AnyReply::Swapped(..)) => Some(Some(setting(Some(new)))),
        (AnyOp::Create(value), AnyReply::Flag(true)) => Some(Some(setting(Some(value)))),
        (AnyOp::Put(key, value), _) => Some(Some(put_of(key, value))),
        (AnyOp::Get(_), AnyReply::Value(None)) => Some(None),
        (AnyOp::Get(key), AnyReply::Value(Some(value))) => Some(Some(put_of(key, value))),
        (AnyOp::PutIfAbsent(key, value), AnyReply::Flag(true)) => Some(Some(put_of(key, value))),
        (AnyOp::Replace(key, _, new), AnyReply::Flag(true)) => Some(Some(put_of(key, new))),
        (AnyOp::Assoc(key, value), _) => Some(Some(put_of(key, value))),
        (AnyOp::Add(value), _) => Some(Some(add_of(value))),
        (AnyOp::Has(value), AnyReply::Flag(true)) => Some(Some(add_of(value))),
        (AnyOp::Has(_), AnyReply::Flag(false)) => Some(None),
        (AnyOp::FetchAdd(more), AnyReply::Value(Some(before))) => sum_of(before, more),
        (AnyOp::GetCount, AnyReply::Value(Some(count))) => Some(count_of(count)),
        (AnyOp::Acquire, _) => Some(Some((AnyOp::Acquire, AnyReply::Value(None)))),
        (AnyOp::LockBy(owner), _) => Some(Some((AnyOp::LockBy(owner), AnyReply::Value(None)))),
        (AnyOp::Clear | AnyOp::Del(_) | AnyOp::Dissoc(_) | AnyOp::Release, _) => Some(None),
        (AnyOp::Remove(_) | AnyOp::UnlockBy(_), _) => Some(None),
        _ => None,
    }
}

/// The value that an operation with this reply left in a register, whatever it contained.
pub(crate) fn written(op: AnyOp, reply: AnyReply) -> Option<i64>
    ensures { result ≡ spec.written op reply }
{
    match op {
        AnyOp::Write(value) => Some(value),
        AnyOp::Cas(_, new) => match reply {
            AnyReply::Swapped(..) => Some(new),
            _ => None,
        },
        _ => None,
    }
}
