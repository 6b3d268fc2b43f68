//! What the calls of a register do to its cell, and the calls of a register in a part.

ghost use Rattle.std.specs.Prelude.{◌≡◌};
ghost use Rattle.cuts.specs.Kinds.Register as spec;

use crate::touches::{Leave, Need, Touch};
use seq_objects::{AnyOp, AnyReply};

/// What an operation with this reply does to the cell. No reply: what it does if it takes effect.
/// `None`: nothing, or it has no such reply.
pub(crate) fn register_touch(op: AnyOp, reply: Option<AnyReply>) -> Option<Touch>
    ensures { result ≡ spec.register_touch op reply }
{
    let (need, leave) = match (op, reply) {
        (AnyOp::Write(value), _) => (Need::Any, Leave::Content(Some(value))),
        (AnyOp::Read, Some(AnyReply::Value(found))) => (Need::Is(found), Leave::AsItWas),
        (AnyOp::Cas(expected, new), None | Some(AnyReply::Swapped(..))) => {
            (Need::Is(Some(expected)), Leave::Content(Some(new)))
        }
        (AnyOp::Cas(expected, _), Some(AnyReply::NotSwapped)) => {
            (Need::IsNot(Some(expected)), Leave::AsItWas)
        }
        (AnyOp::Clear, _) => (Need::Any, Leave::Content(None)),
        (AnyOp::Create(value), None | Some(AnyReply::Flag(true))) => {
            (Need::Is(None), Leave::Content(Some(value)))
        }
        (AnyOp::Create(_), Some(AnyReply::Flag(false))) => (Need::IsNot(None), Leave::AsItWas),
        _ => return None,
    };
    Some(Touch { need, leave })
}

/// The call that leaves this content, whatever the register contains.
pub(crate) fn setting(content: Option<i64>) -> (AnyOp, AnyReply)
    ensures { result ≡ spec.setting content }
{
    match content {
        Some(value) => (AnyOp::Write(value), AnyReply::Value(Some(value))),
        None => (AnyOp::Clear, AnyReply::Value(None)),
    }
}

/// The call that finds one content and leaves another one.
pub(crate) fn replacing(found: Option<i64>, content: Option<i64>) -> (AnyOp, AnyReply)
    ensures { result ≡ spec.replacing found content }
{
    match (found, content) {
        (Some(old), Some(new)) => (AnyOp::Cas(old, new), AnyReply::Swapped(old, new)),
        (None, Some(new)) => (AnyOp::Create(new), AnyReply::Flag(true)),
        (_, None) => setting(None),
    }
}

/// The call that finds this content and leaves it.
pub(crate) fn finding(content: Option<i64>) -> (AnyOp, AnyReply)
    ensures { result ≡ spec.finding content }
{
    (AnyOp::Read, AnyReply::Value(content))
}
