//! The decision on one object by one claim.

ghost use Rattle.std.specs.Prelude.{◌≡◌, ℕ, List, Option, IfOk};
ghost use Rattle.std.specs.Global.{Vec};
ghost use Rattle.model.specs.declared.Kind.{Kind};
ghost use Rattle.model.specs.Orders.{Call};
ghost use Rattle.events.specs.Operations.{ObjectCalls, calls_of};
ghost use Rattle.refutation.specs.Refutations.{IsWhyNotShown, IsNamedPart};
ghost use Rattle.verifying.specs.Decisions.{IsClaimAnswer};
ghost use Rattle.verifying.specs.declared.claim.Claim.TheVariants as claim;
ghost use Rattle.verifying.specs.Denotes.{claim_object};

use crate::Claim;
use crate::decision::{Decision, ShownReason};
use certificate::Certificate;
use checker::{Refusal, check_object};
use events::ObjectHistory;
use refutation::{Reason, ReasonAnswer, WhyNotShown, refute};
use std::alloc::{AllocError, Global};

/// The decision by an order.
///
/// An error: an allocation failed.
fn decide_by_order(
    alloc: Global,
    history: &ObjectHistory,
    certificate: Certificate,
    limit: u64,
) -> Result<Decision, AllocError>
    requires { certificate.object ≡ history.now.object }
    ensures { IfOk result (IsClaimAnswer history.now.object history.now.kind
        (calls_of history.now.ops) limit (claim.Order certificate)) }
{
    match check_object(alloc, history, &certificate) {
        Ok(()) => Ok(Decision::Order(certificate)),
        Err(Refusal::NoMemory) => Err(AllocError),
        Err(_) => Ok(Decision::Open),
    }
}

/// What is decided if the reason does not show that no order is valid. The search of the whole
/// object, of which nothing was cut off, may have found an order.
fn decide_if_not_shown(reason: &Reason, limit: u64, why_not: WhyNotShown) -> Decision
    ensures { (kind : Kind) (calls : List Call) (note : Option (Vec ℕ)) (part : ObjectCalls)
        → IsNamedPart reason.now.cuts.items reason.now.object kind calls part
        → IsWhyNotShown reason.now.basis part why_not
        → IsClaimAnswer reason.now.object kind calls limit (claim.Reason reason.now note) result }
{
    match why_not {
        WhyNotShown::Possible(order) if reason.cuts.is_empty() => Decision::Order(Certificate {
            object: reason.object,
            order,
        }),
        WhyNotShown::OutOfSteps => Decision::OutOfSteps(reason.basis.steps(limit)),
        WhyNotShown::NoMemory => Decision::NoMemory,
        WhyNotShown::Possible(_) => Decision::Open,
        WhyNotShown::NotExceeded => Decision::Open,
    }
}

/// The decision by a reason. `limit` is the limit of a search if the reason names none.
///
/// An error: an allocation failed.
fn decide_by_reason(
    alloc: Global,
    history: &ObjectHistory,
    reason: Reason,
    note: Option<Vec<u8>>,
    limit: u64,
) -> Result<Decision, AllocError>
    requires { reason.object ≡ history.now.object }
    ensures { IfOk result (IsClaimAnswer history.now.object history.now.kind
        (calls_of history.now.ops) limit (claim.Reason reason note)) }
{
    match refute(alloc, history, &reason, limit)? {
        ReasonAnswer::Impossible(part) => Ok(Decision::Impossible(ShownReason {
            reason,
            part,
            note,
        })),
        ReasonAnswer::NotShown { part: _, why_not } => Ok(decide_if_not_shown(
            &reason, limit, why_not,
        )),
        ReasonAnswer::NoPart | ReasonAnswer::OtherObject => Ok(Decision::Open),
    }
}

/// The decision on an object by a claim on it. `limit` is the limit of a search if the claim
/// names none.
///
/// An error: an allocation failed.
pub fn decide_by_claim(
    alloc: Global,
    history: &ObjectHistory,
    claimed: Claim,
    limit: u64,
) -> Result<Decision, AllocError>
    requires { claim_object claimed ≡ history.now.object }
    ensures { IfOk result (IsClaimAnswer history.now.object history.now.kind
        (calls_of history.now.ops) limit claimed) }
{
    match claimed {
        Claim::Order(certificate) => decide_by_order(alloc, history, certificate, limit),
        Claim::Reason { reason, note } => decide_by_reason(alloc, history, reason, note, limit),
    }
}
