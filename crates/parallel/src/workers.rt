//! Workers that share the objects of a history.

ghost use Rattle.std.specs.Prelude.{◌≡◌, ◌<◌, List, OnOk, IfErr, AllPairs, ◌+◌};
ghost use Rattle.events.specs.declared.event.Event.{Event};
ghost use Rattle.certificate.specs.Denotes.{AreDistinct};
ghost use Rattle.checker.specs.Refusals.{AreValid, IsCheckAnswer, IsFirstRefusal};
ghost use Rattle.checker.specs.Checking.{AreAllPlaces};
ghost use Rattle.parallel.specs.Gathered.{AreAll};
ghost use Rattle.parallel.specs.Shares.{IsShare, max_workers};

use crate::gathering::split_by_workers;
use crate::share::{RefusedObject, check_share, least};
use certificate::Certificate;
use checker::{Refusal, certificate_places, strange_object};
use events::{History, ObjectHistory};
use seq_objects::Gate;
use std::alloc::Global;
use std::thread::{Threads, map_indices};

/// Checks the certificates of these objects, which are all that a history names, as
/// `check_parallel` does.
fn check_objects<R: Threads + Sync, G: Gate>(
    rt: &R,
    alloc: Global,
    objects: &[ObjectHistory],
    certificates: &[Certificate],
    workers: u32,
    gate: &G,
) -> Result<(), Refusal>
    // no object has two certificates
    requires distinct { AreDistinct certificates.now }
    requires some { 0 < workers }
    requires few { workers < 1 + max_workers }
    requires rising { AllPairs (λ a b. a.object < b.object) objects.now }
    ensures answer { (es : List Event) → AreAll es objects.now
        → IsCheckAnswer es certificates.now result }
{
    let Ok(places) = certificate_places(alloc, certificates) else {
        return Err(Refusal::NoMemory);
    };
    let count = objects.len().clamp(1, workers as usize);
    let found = map_indices(
        rt,
        alloc,
        count,
        &|worker: usize| -> Result<(), RefusedObject>
            requires { (worker < count) × (count < 1 + max_workers)
                × AllPairs (λ a b. a.object < b.object) objects.now
                × AreAllPlaces places certificates.now }
            ensures { IsShare worker count objects.entry.now certificates.entry.now result }
        { check_share(alloc, objects, &places, certificates, worker, count, gate) },
    );
    let Ok(found) = found else {
        return Err(Refusal::NoMemory);
    };
    if let Some(first) = least(&found) {
        return Err(first.refusal);
    }
    match strange_object(objects, places, certificates) {
        Some(object) => Err(Refusal::StrangeObject { object }),
        None => Ok(()),
    }
}

/// Checks the certificates of a history's objects by this many workers. The answer is that of
/// `check_all`: `Ok` if each named object has a valid order and no other object has a certificate,
/// otherwise the first refusal, that of the least object and strange objects last, whichever was
/// found first in time. Either may be an allocation failure instead.
///
/// The objects come in rising number. Worker `w` checks those at the places `w`, `w + workers`, and
/// so on, each between the gate's `before` and `after`, and stops at the first that is refused. No
/// more workers are started than there are objects.
/// `NoMemory` says nothing.
pub fn check_parallel<R: Threads + Sync, G: Gate>(
    rt: &R,
    alloc: Global,
    history: &History,
    certificates: &[Certificate],
    workers: u32,
    gate: &G,
) -> Result<(), Refusal>
    // no object has two certificates
    requires distinct { AreDistinct certificates.now }
    requires some { 0 < workers }
    requires few { workers < 1 + max_workers }
    ensures valid { OnOk result (AreValid history.now certificates.now) }
    ensures refused { IfErr result (IsFirstRefusal history.now certificates.now) }
    // Certificates that are refused, except for an allocation failure, are not valid.
    ensures exact { AreValid history.now certificates.now →
        IfErr result (λ e. e ≡ Refusal.NoMemory) }
    // There is one such answer, as `one_first_refusal` of `checker` says: that of `check_all`.
    ensures answer { IsCheckAnswer history.now certificates.now result }
{
    let Ok(objects) = split_by_workers(rt, alloc, history, workers) else {
        return Err(Refusal::NoMemory);
    };
    check_objects(rt, alloc, &objects, certificates, workers, gate)
}
