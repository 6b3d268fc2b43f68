//! The objects that one worker checks.

ghost use Rattle.std.specs.Prelude.{◌≡◌, ◌<◌, ◌≤◌, ℕ, length, OnOk, IfErr, IfSome, IfNone, IsOk};
ghost use Rattle.std.specs.Prelude.{◌+◌, All, AllPairs, Contains, Err};
ghost use Rattle.certificate.specs.declared.Certificate.{Certificate};
ghost use Rattle.checker.specs.Checking.{AreAllPlaces};
ghost use Rattle.parallel.specs.Shares.{FallsTo, IsFineAt, IsFirstOfShare, IsNotBefore, IsEarlier};
ghost use Rattle.parallel.specs.Shares.{max_workers};

use certificate::Certificate;
use checker::{Refusal, check_object_at};
use events::ObjectHistory;
use number_map::NumberMap;
use seq_objects::Gate;
use std::alloc::Global;

/// A refusal, and the place of its object among those of the history.
#[derive(Clone, Copy)]
pub(crate) struct RefusedObject {
    pub(crate) place: usize,
    pub(crate) refusal: Refusal,
}

/// The place as the number that the gate is given: it is at most the number of its object, since
/// those rise.
fn number_for_gate(objects: &[ObjectHistory], place: usize) -> u32
    requires rising { AllPairs (λ a b. a.object < b.object) objects.now }
    requires inside { place < length objects.now }
    ensures { result ≡ place }
{
    place.min(objects[place].object() as usize) as u32
}

/// Checks the objects at the places `worker`, `worker + workers`, and so on, up to the first that
/// is refused.
pub(crate) fn check_share<G: Gate>(
    alloc: Global,
    objects: &[ObjectHistory],
    places: &NumberMap<usize>,
    certificates: &[Certificate],
    worker: usize,
    workers: usize,
    gate: &G,
) -> Result<(), RefusedObject>
    requires rising { AllPairs (λ a b. a.object < b.object) objects.now }
    requires places { AreAllPlaces places.now certificates.now }
    requires worker { worker < workers }
    requires few { workers < 1 + max_workers }
    ensures fine { OnOk result ((k : ℕ) → k < length objects.now → FallsTo worker workers k →
        IsFineAt objects.now certificates.now k) }
    ensures found { IfErr result (IsFirstOfShare worker workers objects.now certificates.now) }
{
    let mut place = worker;
    while place < objects.len() {
        let number = number_for_gate(objects, place);
        gate.before(worker as u32, number);
        let checked = check_object_at(alloc, &objects[place], places, certificates);
        gate.after(worker as u32, number);
        if let Err(refusal) = checked {
            return Err(RefusedObject { place, refusal });
        }
        place += workers;
    }
    Ok(())
}

/// Of what was found so far and what this worker found, that of the lesser place.
fn earlier(least: Option<RefusedObject>, share: &Result<(), RefusedObject>) -> Option<RefusedObject>
    ensures { IsEarlier least share.now result }
{
    let Err(next) = share else {
        return least;
    };
    match least {
        Some(first) if first.place <= next.place => least,
        _ => Some(*next),
    }
}

/// What was found at the least place.
pub(crate) fn least(found: &[Result<(), RefusedObject>]) -> Option<RefusedObject>
    ensures none { IfNone result (All IsOk found.now) }
    ensures stands { IfSome result (λ f. Contains found.now (Err f)) }
    ensures least { IfSome result (λ f. All (IsNotBefore f) found.now) }
{
    let mut least = None;
    for share in found {
        least = earlier(least, share);
    }
    least
}
