//! Which operations a part may keep that keeps some values, or some keys.

ghost use Rattle.std.specs.Prelude.{◌≡◌};
ghost use Rattle.cuts.specs.Cuts.{keeps_all, keeps_value};
ghost use Rattle.cuts.specs.Kinds.Keeping as spec;

use crate::keeping::Values;
use seq_objects::{AnyOp, AnyReply};

// In each of these functions `kept` says which question is answered: whether a part may keep the
// operation, or whether it may leave it out. Without a reply the operation is pending.

/// Whether a removal with this reply may be kept, or left out.
fn removal_fits(values: &Values, kept: bool, reply: Option<AnyReply>) -> bool
    ensures { result ≡ spec.fits_removal (keeps_value values.now) kept reply }
{
    match reply {
        Some(AnyReply::Value(Some(value))) => kept == values.has(value),
        _ => true,
    }
}

/// Whether a read with this reply may be kept, or left out.
fn read_fits(values: &Values, kept: bool, reply: Option<AnyReply>) -> bool
    ensures { result ≡ spec.fits_read (keeps_value values.now) kept reply }
{
    match reply {
        Some(AnyReply::Value(Some(value))) => !kept || values.has(value),
        _ => true,
    }
}

/// Whether a swap with this reply may be kept, or left out.
fn cas_fits(values: &Values, kept: bool, expected: i64, new: i64, reply: Option<AnyReply>) -> bool
    ensures { result ≡ spec.fits_cas (keeps_all values.now) (keeps_value values.now) kept expected
        new reply }
{
    match reply {
        None if kept => values.has(expected) || !values.has(new),
        Some(AnyReply::Swapped(..)) if kept => values.has(expected),
        None | Some(AnyReply::Swapped(..)) => !values.has(new),
        Some(AnyReply::NotSwapped) => !kept || values.is_all(),
        Some(_) => true,
    }
}

/// Whether a creation of this value with this reply may be kept, or left out.
fn create_fits(values: &Values, kept: bool, value: i64, reply: Option<AnyReply>) -> bool
    ensures { result ≡ spec.fits_create (keeps_all values.now) (keeps_value values.now) kept value
        reply }
{
    match reply {
        Some(AnyReply::Flag(false)) => !kept || values.is_all(),
        _ => kept || !values.has(value),
    }
}

/// Whether a removal of this key with this reply may be kept, or left out.
fn del_fits(values: &Values, kept: bool, key: i64, reply: Option<AnyReply>) -> bool
    ensures { result ≡ spec.fits_del (keeps_value values.now) kept key reply }
{
    match reply {
        None | Some(AnyReply::Value(Some(_))) => kept == values.has(key),
        Some(AnyReply::Value(None)) => !kept || values.has(key),
        Some(_) => true,
    }
}

/// Whether a change at this key, or of this element, may be kept, or left out, by its reply:
/// whether it took place.
fn change_fits(values: &Values, kept: bool, key: i64, reply: Option<AnyReply>) -> bool
    ensures { result ≡ spec.fits_change (keeps_value values.now) kept key reply }
{
    match reply {
        Some(AnyReply::Flag(false)) => !kept || values.has(key),
        _ => kept == values.has(key),
    }
}

/// If `kept`, whether a part may keep an operation with this reply; otherwise, whether it may leave
/// it out. Without a reply the operation is pending.
pub(crate) fn reply_fits(values: &Values, kept: bool, op: AnyOp, reply: Option<AnyReply>) -> bool
    ensures { result ≡ spec.fits (keeps_all values.now) (keeps_value values.now) kept op reply }
{
    match op {
        AnyOp::Enqueue(value) => kept == values.has(value),
        AnyOp::Push(value) => kept == values.has(value),
        AnyOp::Insert(value) => kept == values.has(value),
        AnyOp::Dequeue | AnyOp::Pop | AnyOp::ExtractMin => removal_fits(values, kept, reply),
        AnyOp::Write(value) => kept || !values.has(value),
        AnyOp::Read => read_fits(values, kept, reply),
        AnyOp::Cas(expected, new) => cas_fits(values, kept, expected, new, reply),
        AnyOp::Create(value) => create_fits(values, kept, value, reply),
        AnyOp::Put(key, _) => kept == values.has(key),
        AnyOp::Get(key) => !kept || values.has(key),
        AnyOp::Del(key) => del_fits(values, kept, key, reply),
        AnyOp::PutIfAbsent(key, _) => change_fits(values, kept, key, reply),
        AnyOp::Replace(key, ..) => change_fits(values, kept, key, reply),
        AnyOp::Assoc(key, _) => kept == values.has(key),
        AnyOp::Dissoc(key) => kept == values.has(key),
        AnyOp::Add(value) => change_fits(values, kept, value, reply),
        AnyOp::Remove(value) => change_fits(values, kept, value, reply),
        AnyOp::Has(value) => !kept || values.has(value),
        AnyOp::GetCount => true,
        AnyOp::Clear | AnyOp::Acquire | AnyOp::Release => kept,
        AnyOp::FetchAdd(_) | AnyOp::LockBy(_) | AnyOp::UnlockBy(_) => kept,
    }
}
