//! The check of a reason.

ghost use Rattle.std.specs.Prelude.{◌≡◌, ◌≢◌, true, List, None, IfOk, IfSome};
ghost use Rattle.model.specs.Orders.{Call, HasNoValidOrder};
ghost use Rattle.events.specs.Operations.{calls_of};
ghost use Rattle.cuts.specs.Cuts.{NamesPart};
ghost use Rattle.refutation.specs.Refutations.{shows_impossible, IfShownImpossible, IfNotShown};
ghost use Rattle.refutation.specs.Refutations.{IfPart, IsWhyNotShown, IsNamedPart};
ghost use Rattle.refutation.specs.Refutations.{PartHasNoValidOrder, IsShownBy};

use crate::reason::{Basis, Reason, Trial};
use cuts::{Count, is_blocked, is_overdrawn, part_by};
use events::ObjectHistory;
use order_search::{OrderOutcome, OrderSearch, find_order_of_any_size};
use std::alloc::{AllocError, Global};

/// Why a reason does not hold.
#[derive(Debug, Drop)]
pub enum WhyNotShown {
    /// The part has this valid order.
    Possible(Vec<i64>),
    /// The count is not exceeded: in the part the content was not removed more often than it can
    /// have been there, or no more values definitely were ahead than can have been removed before.
    NotExceeded,
    /// The search reached its limit of steps.
    OutOfSteps,
    /// An allocation failed in the search.
    NoMemory,
}

/// The answer to a reason.
#[derive(Debug, Drop)]
pub enum ReasonAnswer {
    /// No order of the object's operations is valid, since none of this part is.
    Impossible(ObjectHistory),
    /// That is not shown by this part.
    NotShown {
        part: ObjectHistory,
        why_not: WhyNotShown,
    },
    /// The cuts name no part.
    NoPart,
    /// The reason is of another object.
    OtherObject,
}

/// Searches a part. Returns None if no order of it is valid.
fn why_not_shown_by_search(
    alloc: Global,
    part: &ObjectHistory,
    trial: Trial,
    limit: u64,
) -> Option<WhyNotShown>
    ensures shown { result ≡ None → HasNoValidOrder part.now.kind (calls_of part.now.ops) }
    ensures why_not { IfSome result (IsWhyNotShown (Basis.Search trial) part.now) }
{
    let limit = Basis::Search(trial).steps(limit);
    let OrderSearch { outcome, .. } = find_order_of_any_size(alloc, part, trial.first, limit);
    match outcome {
        OrderOutcome::Found(order) => Some(WhyNotShown::Possible(order)),
        OrderOutcome::Impossible => None,
        // A search of any size is not too large.
        OrderOutcome::OutOfSteps | OrderOutcome::TooLarge => Some(WhyNotShown::OutOfSteps),
        OrderOutcome::NoMemory => Some(WhyNotShown::NoMemory),
    }
}

/// Counts over a part. Returns None if the count is exceeded, so that no order of the part is
/// valid.
fn why_not_shown_by_count(part: &ObjectHistory, count: Count) -> Option<WhyNotShown>
    ensures exceeded { result ≡ None → IsShownBy (Basis.Counting count) part.now }
    ensures shown { result ≡ None → HasNoValidOrder part.now.kind (calls_of part.now.ops) }
    ensures why_not { IfSome result (IsWhyNotShown (Basis.Counting count) part.now) }
{
    if is_overdrawn(part, count) {
        return None;
    }
    Some(WhyNotShown::NotExceeded)
}

/// Counts what was ahead of a removal in a part. Returns None if the count is exceeded, so that no
/// order of the part is valid.
fn why_not_shown_by_ahead(part: &ObjectHistory, number: u32, from: u32) -> Option<WhyNotShown>
    ensures exceeded { result ≡ None → IsShownBy (Basis.Ahead number from) part.now }
    ensures shown { result ≡ None → HasNoValidOrder part.now.kind (calls_of part.now.ops) }
    ensures why_not { IfSome result (IsWhyNotShown (Basis.Ahead number from) part.now) }
{
    if is_blocked(part, number, from) {
        return None;
    }
    Some(WhyNotShown::NotExceeded)
}

/// Checks a basis on a part. Returns None if it shows that no order of the part is valid.
fn why_not_shown(
    alloc: Global,
    part: &ObjectHistory,
    basis: Basis,
    limit: u64,
) -> Option<WhyNotShown>
    ensures basis { result ≡ None → IsShownBy basis part.now }
    ensures shown { result ≡ None → HasNoValidOrder part.now.kind (calls_of part.now.ops) }
    ensures why_not { IfSome result (IsWhyNotShown basis part.now) }
{
    match basis {
        Basis::Search(trial) => why_not_shown_by_search(alloc, part, trial, limit),
        Basis::Counting(count) => why_not_shown_by_count(part, count),
        Basis::Ahead { number, from } => why_not_shown_by_ahead(part, number, from),
    }
}

/// Whether the reason shows that no order of the object's operations is valid. A search takes at
/// most the steps that the reason gives, or `limit` if it gives none. The part that the reason
/// names is returned.
///
/// An error: an allocation failed for the part.
pub fn refute(
    alloc: Global,
    history: &ObjectHistory,
    reason: &Reason,
    limit: u64,
) -> Result<ReasonAnswer, AllocError>
    // The answer is impossible only if no order of the whole is valid.
    ensures impossible { IfOk result (λ r. shows_impossible r ≡ true
        → HasNoValidOrder history.now.kind (calls_of history.now.ops)) }
    // The part that is returned is the one that the reason names.
    ensures part { IfOk result (λ r. IfPart r (IsNamedPart reason.now.cuts.items
        history.now.object history.now.kind (calls_of history.now.ops))) }
    // The answer is impossible only if the basis shows it of that part, by a count that is exceeded
    // or by a search that excluded all orders, and no order of the part is valid.
    ensures shown { IfOk result (λ r. IfShownImpossible r (λ part.
        IsShownBy reason.now.basis part × PartHasNoValidOrder part)) }
    ensures not_shown { IfOk result (λ r. IfNotShown r (IsWhyNotShown reason.now.basis)) }
    ensures no_part { IfOk result (λ r. r ≡ ReasonAnswer.NoPart → (part : List Call)
        → NamesPart reason.now.cuts.items (calls_of history.now.ops) part → ⊥) }
    ensures other_object { IfOk result (λ r. r ≡ ReasonAnswer.OtherObject
        → reason.now.object ≢ history.now.object) }
    ensures own_object { IfOk result (λ r. r ≢ ReasonAnswer.OtherObject
        → reason.now.object ≡ history.now.object) }
{
    if reason.object != history.object() {
        return Ok(ReasonAnswer::OtherObject);
    }
    let Some(part) = part_by(alloc, history, &reason.cuts)? else {
        return Ok(ReasonAnswer::NoPart);
    };
    match why_not_shown(alloc, &part, reason.basis, limit) {
        None => Ok(ReasonAnswer::Impossible(part)),
        Some(why_not) => Ok(ReasonAnswer::NotShown { part, why_not }),
    }
}
