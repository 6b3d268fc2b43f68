//! The decisions on all objects of a history by claims.

ghost use Rattle.std.specs.Prelude.{◌≡◌, ◌<◌, ◌++◌, ◌∷◌, [], List, length, IfOk, OnOk, AllPairs};
ghost use Rattle.events.specs.Operations.{calls_of};
ghost use Rattle.verifying.specs.declared.claim.Claim.{Claim};
ghost use Rattle.verifying.specs.Denotes.{claim_object};
ghost use Rattle.verifying.specs.Decisions.{AreDecisionsOn, IsDecision};
ghost use Rattle.verifying.specs.Taking.{AreAllOpen, AreDecisionsTaken};

use crate::Claim;
use crate::decision::Decision;
use crate::object::decide_by_claim;
use events::{History, ObjectHistory, split};
use locality::linearizable_has_orders;
use std::alloc::{AllocError, Global};
use std::mem;

/// The objects, of which nothing is claimed yet.
fn all_open(alloc: Global, objects: &[ObjectHistory]) -> Result<Vec<(u32, Decision)>, AllocError>
    ensures { IfOk result (λ v. AreAllOpen objects.now v.items) }
{
    let mut answers = Vec::new(alloc);
    for object in objects {
        answers.push((object.object(), Decision::Open))?;
    }
    Ok(answers)
}

/// Updates the decision on an object by one more claim. What was shown stays.
///
/// An error: an allocation failed.
fn decide_further(
    alloc: Global,
    history: &ObjectHistory,
    earlier: Decision,
    claim: Claim,
    limit: u64,
) -> Result<Decision, AllocError>
    requires { claim_object claim ≡ history.now.object }
    ensures { IfOk result (λ d. (claims : List Claim) → IsDecision claims limit
        history.now.object history.now.kind (calls_of history.now.ops) earlier
        → IsDecision (claims ++ claim ∷ []) limit
        history.now.object history.now.kind (calls_of history.now.ops) d) }
{
    if earlier.is_shown() {
        return Ok(earlier);
    }
    let next = decide_by_claim(alloc, history, claim, limit)?;
    if next.is_open() {
        return Ok(earlier);
    }
    Ok(next)
}

/// Decides further by a claim, if it is on one of these objects, which are in rising number.
///
/// An error: an allocation failed.
fn take_claim(
    alloc: Global,
    objects: &[ObjectHistory],
    answers: &mut Vec<(u32, Decision)>,
    claim: Claim,
    limit: u64,
) -> Result<(), AllocError>
    requires rising { AllPairs (λ a b. a.object < b.object) objects.now }
    requires each { length answers.old.items ≡ length objects.now }
    ensures { OnOk result (AreDecisionsTaken objects.now limit claim answers.old.items
        answers.new.items) }
{
    let number = claim.object();
    let Ok(at) = objects.binary_search_by_key(&number, |object| object.object()) else {
        return Ok(());
    };
    let earlier = mem::replace(&mut answers[at].1, Decision::Open);
    answers[at].1 = decide_further(alloc, &objects[at], earlier, claim, limit)?;
    Ok(())
}

/// Decides on each object of a history by the claims on it, in their order. The answers are in
/// rising number of the objects. The first claim that is shown decides (no clause says that it is
/// the first): an order that is valid, a reason by which no order is, or the search of the full
/// object, if a claim asks for it. `limit` is the step limit of searches whose claim names none.
///
/// An error: an allocation failed for the split, the list of answers, a part or the check of an
/// order.
pub fn decide_by_claims(
    alloc: Global,
    history: &History,
    claims: Vec<Claim>,
    limit: u64,
) -> Result<Vec<(u32, Decision)>, AllocError>
    ensures { IfOk result (λ v. AreDecisionsOn history.now claims.items limit v.items) }
{
    // These two do nothing. The first says that the events denote a well-formed history, the second
    // that each object of a linearizable one has a valid order.
    history.events();
    linearizable_has_orders();
    let objects = split(alloc, history)?;
    let mut answers = all_open(alloc, &objects)?;
    for claim in claims {
        take_claim(alloc, &objects, &mut answers, claim, limit)?;
    }
    Ok(answers)
}
