//! What the calls of a map do to the cell of a key.

ghost use Rattle.std.specs.Prelude.{◌≡◌};
ghost use Rattle.cuts.specs.Kinds.Map as spec;

use crate::touches::{Leave, Need, Touch};
use seq_objects::{AnyOp, AnyReply};

/// What an operation with this reply does to the cell of the key. No reply: what it does if it
/// takes effect. `None`: nothing, or it has no such reply.
pub(crate) fn map_touch(key: i64, op: AnyOp, reply: Option<AnyReply>) -> Option<Touch>
    ensures { result ≡ spec.map_touch key op reply }
{
    let (at, need, leave) = match (op, reply) {
        (AnyOp::Put(at, new), None) => (at, Need::Any, Leave::Content(Some(new))),
        (AnyOp::Put(at, new), Some(AnyReply::Value(found))) => {
            (at, Need::Is(found), Leave::Content(Some(new)))
        }
        (AnyOp::Get(at), Some(AnyReply::Value(found))) => (at, Need::Is(found), Leave::AsItWas),
        (AnyOp::Del(at), None) => (at, Need::Any, Leave::Content(None)),
        (AnyOp::Del(at), Some(AnyReply::Value(found))) => {
            (at, Need::Is(found), Leave::Content(None))
        }
        (AnyOp::PutIfAbsent(at, new), None | Some(AnyReply::Flag(true))) => {
            (at, Need::Is(None), Leave::Content(Some(new)))
        }
        (AnyOp::PutIfAbsent(at, _), Some(AnyReply::Flag(false))) => {
            (at, Need::IsNot(None), Leave::AsItWas)
        }
        (AnyOp::Replace(at, old, new), None | Some(AnyReply::Flag(true))) => {
            (at, Need::Is(Some(old)), Leave::Content(Some(new)))
        }
        (AnyOp::Replace(at, old, _), Some(AnyReply::Flag(false))) => {
            (at, Need::IsNot(Some(old)), Leave::AsItWas)
        }
        (AnyOp::Assoc(at, new), _) => (at, Need::Any, Leave::Content(Some(new))),
        (AnyOp::Dissoc(at), _) => (at, Need::Any, Leave::Content(None)),
        _ => return None,
    };
    at_key(key, at, Touch { need, leave })
}

/// What is done to the cell of a key by a call on the second key.
fn at_key(key: i64, at: i64, touch: Touch) -> Option<Touch>
    ensures { result ≡ spec.at_key key at touch }
{
    if key == at {
        return Some(touch);
    }
    None
}
