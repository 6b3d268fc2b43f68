//! The check of all certificates.

ghost use Rattle.std.specs.Prelude.{◌≡◌, OnOk, IfOk, IfErr, IfSome, IfNone, map, min};
ghost use Rattle.std.specs.Option.{option_map_or};
ghost use Rattle.events.specs.Operations.{calls_of};
ghost use Rattle.certificate.specs.Denotes.{AreDistinct};
ghost use Rattle.checker.specs.Refusals.{AreValid, IsCheckAnswer, IsFirstRefusal};
ghost use Rattle.checker.specs.Checking.{AreAllPlaces, IsFine, IsRefused, AreForThese};
ghost use Rattle.checker.specs.Checking.{IsLeastBesides, IsLeastPlaced};

use crate::object::check_object;
use crate::refusal::Refusal;
use certificate::Certificate;
use events::{History, ObjectHistory, split};
use number_map::NumberMap;
use std::alloc::{AllocError, Global};

/// Returns the place of the certificate of each object.
pub fn certificate_places(
    alloc: Global,
    certificates: &[Certificate],
) -> Result<NumberMap<usize>, AllocError>
    ensures { IfOk result (λ m. AreAllPlaces m certificates.now) }
{
    let mut places = NumberMap::new(alloc);
    for k in 0..certificates.len() {
        places.insert(certificates[k].object as u64, k)?;
    }
    Ok(places)
}

/// Checks the certificate of one object, which is at the object's place.
pub fn check_object_at(
    alloc: Global,
    object: &ObjectHistory,
    places: &NumberMap<usize>,
    certificates: &[Certificate],
) -> Result<(), Refusal>
    requires { AreAllPlaces places.now certificates.now }
    ensures fine { OnOk result
        (IsFine object.now.kind (calls_of object.now.ops) certificates.now object.now.object) }
    ensures refused { IfErr result
        (IsRefused object.now.kind (calls_of object.now.ops) certificates.now object.now.object) }
{
    let Some(place) = places.get(object.object() as u64) else {
        let object = object.object();
        return Err(Refusal::NoCertificate { object });
    };
    check_object(alloc, object, &certificates[place])
}

/// The lesser of `least` and `object`.
fn lesser(least: Option<u32>, object: u32) -> u32
    ensures { result ≡ option_map_or (λ x. min x object) least object }
{
    match least {
        Some(x) => x.min(object),
        None => object,
    }
}

/// The least object of these certificates that has a place, if there is one.
fn least_placed(places: &NumberMap<usize>, certificates: &[Certificate]) -> Option<u32>
    ensures { IsLeastPlaced places.now certificates.now result }
{
    let mut least = None;
    for certificate in certificates {
        let object = certificate.object;
        if places.get(object as u64).is_some() {
            least = Some(lesser(least, object));
        }
    }
    least
}

/// Returns the least object that has a certificate and is not in this list, if there is one.
pub fn strange_object(
    objects: &[ObjectHistory],
    mut places: NumberMap<usize>,
    certificates: &[Certificate],
) -> Option<u32>
    requires { AreAllPlaces places certificates.now }
    ensures none { IfNone result (AreForThese (map (λ o. o.object) objects.now) certificates.now) }
    ensures least { IfSome result (IsLeastBesides
        (map (λ o. o.object) objects.now) certificates.now) }
{
    for object in objects {
        places.remove(object.object() as u64);
    }
    least_placed(&places, certificates)
}

/// Checks the certificates of a history's objects. Returns `Ok` if each named object has a valid
/// order and no other object has a certificate, otherwise the first refusal. Either may be an
/// allocation failure instead.
pub fn check_all(
    alloc: Global,
    history: &History,
    certificates: &[Certificate],
) -> Result<(), Refusal>
    // no object has two certificates
    requires { AreDistinct certificates.now }
    ensures valid { OnOk result (AreValid history.now certificates.now) }
    ensures refused { IfErr result (IsFirstRefusal history.now certificates.now) }
    // Certificates that are refused, except for an allocation failure, are not valid.
    ensures exact { AreValid history.now certificates.now →
        IfErr result (λ e. e ≡ Refusal.NoMemory) }
    // There is one such answer, as `one_first_refusal` says.
    ensures answer { IsCheckAnswer history.now certificates.now result }
{
    let Ok(objects) = split(alloc, history) else {
        return Err(Refusal::NoMemory);
    };
    let Ok(places) = certificate_places(alloc, certificates) else {
        return Err(Refusal::NoMemory);
    };
    for object in &objects {
        check_object_at(alloc, object, &places, certificates)?;
    }
    match strange_object(&objects, places, certificates) {
        Some(object) => Err(Refusal::StrangeObject { object }),
        None => Ok(()),
    }
}
