//! The check of reasons on the objects of a history.

ghost use Rattle.std.specs.Prelude.{◌≡◌, ◌≢◌, true, All, Any, Contains, IfOk};
ghost use Rattle.std.specs.List.{AllZip};
ghost use Rattle.model.specs.Linearizable.{IsLinearizable};
ghost use Rattle.model.specs.Orders.{events};
ghost use Rattle.events.specs.Events.{kind_of_object, denoted};
ghost use Rattle.events.specs.Operations.{ObjectCalls, calls_of};
ghost use Rattle.refutation.specs.Refutations.{shows_impossible, IsReasonAnswerOn, IsReasonAnswer};

use crate::reason::Reason;
use crate::refuting::{ReasonAnswer, refute};
use events::{History, ObjectHistory, split};
use locality::linearizable_has_orders;
use std::alloc::{AllocError, Global};

/// The answer to a reason on the one of these objects that has its number.
fn refute_among(
    alloc: Global,
    objects: &[ObjectHistory],
    reason: &Reason,
    limit: u64,
) -> Result<ReasonAnswer, AllocError>
    ensures on { IfOk result (λ r. r ≢ ReasonAnswer.OtherObject → (o : ObjectCalls)
        × Contains objects.now o × (o.object ≡ reason.now.object)
        × IsReasonAnswerOn o.kind (calls_of o.ops) reason.now r) }
    ensures other_object { IfOk result (λ r. r ≡ ReasonAnswer.OtherObject
        → All (λ o. o.object ≢ reason.now.object) objects.now) }
{
    for object in objects {
        if object.object() == reason.object {
            return refute(alloc, object, reason, limit);
        }
    }
    Ok(ReasonAnswer::OtherObject)
}

/// Checks each reason against its object, in order. A search takes at most `limit` steps. The
/// answer to a reason of an object that the history does not name is `OtherObject`.
///
/// An error: an allocation failed.
pub fn refute_all(
    alloc: Global,
    history: &History,
    reasons: &[Reason],
    limit: u64,
) -> Result<Vec<ReasonAnswer>, AllocError>
    // Each is the answer to its reason on the object that has the reason's number.
    ensures each { IfOk result (λ v. AllZip (IsReasonAnswer history.now) reasons.now v.items) }
    // If one is impossible the history is not linearizable.
    ensures impossible { IfOk result (λ v. Any (λ r. shows_impossible r ≡ true) v.items
        → IsLinearizable (kind_of_object history.now) (events (denoted history.now)) → ⊥) }
{
    // These two do nothing. The first says that the events denote a well-formed history, the second
    // that each object of a linearizable one has a valid order.
    history.events();
    linearizable_has_orders();
    let objects = split(alloc, history)?;
    let mut answers = Vec::new(alloc);
    for reason in reasons {
        let answer = refute_among(alloc, &objects, reason, limit)?;
        answers.push(answer)?;
    }
    Ok(answers)
}
