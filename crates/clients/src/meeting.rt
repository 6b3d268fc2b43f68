//! A client that parts from the desk: another meets it, and learns of its end.

ghost use Rattle.std.specs.Prelude.{◌≡◌, ◌<◌, ℕ, length};
ghost use Rattle.clients.specs.Workloads.{Work};
ghost use Rattle.clients.specs.Made.{HasWorked, HasMetClient, IsDeskFor, Keeps, HaveSeenAlike};

use publication::{Client, Desk};
use seq_objects::AnyObject;

/// Both meet on each object.
fn meet_on_all(
    desk: &Desk<AnyObject>,
    own: Client<AnyObject>,
    other: Client<AnyObject>,
) -> (Client<AnyObject>, Client<AnyObject>)
    requires own { own.desk ≡ desk.now.id }
    requires other { other.desk ≡ desk.now.id }
    ensures desk { (result.0.desk ≡ own.desk) × (result.1.desk ≡ other.desk) }
    ensures own { Keeps own.knows result.0.knows }
    ensures other { Keeps other.knows result.1.knows }
    ensures met { HaveSeenAlike (length desk.now.id.kinds) result.0.knows result.1.knows }
{
    let (mut own, mut other) = (own, other);
    for object in 0..desk.objects() {
        (own, other) = desk.meet(own, other, object);
    }
    (own, other)
}

/// The client meets another that has made its calls, on each object, and learns of its end.
pub(crate) fn meet_and_retire(
    desk: &Desk<AnyObject>,
    own: Client<AnyObject>,
    other: Client<AnyObject>,
) -> Client<AnyObject>
    requires own { own.desk ≡ desk.now.id }
    requires other { other.desk ≡ desk.now.id }
    ensures desk { result.desk ≡ own.desk }
    ensures kept { Keeps own.knows result.knows }
    ensures met { (w : Work) (c : ℕ) → IsDeskFor desk.now w → HasWorked desk.now w c other →
        HasMetClient w result.knows c }
{
    let (mut own, other) = meet_on_all(desk, own, other);
    // What both have seen has the calls of each.
    own.outstanding();
    other.outstanding();
    desk.tell(&mut own, desk.retire(other));
    own
}
