//! The operations of each object of a history, gathered by several workers.

ghost use Rattle.std.specs.Prelude.{◌<◌, ℕ, List, length, OnOk, IfOk, ◌^◌};
ghost use Rattle.std.specs.Ordering.{nat_cmp};
ghost use Rattle.std.specs.BTreeMap.{get};
ghost use Rattle.events.specs.declared.event.Event.{Event};
ghost use Rattle.parallel.specs.Gathered.{IsGatheredPart, AreGathered, IsPutIn, IsWhole, AreAll};

use events::{History, ObjectHistory, split, split_share};
use std::alloc::{AllocError, Global};
use std::collections::BTreeMap;
use std::thread::{Threads, map_indices};

/// Puts in the objects of one part.
fn put_in(
    sorted: &mut BTreeMap<u32, ObjectHistory>,
    part: Vec<ObjectHistory>,
) -> Result<(), AllocError>
    ensures { OnOk result ((x : ℕ) → IsPutIn part.items x (get nat_cmp sorted.old x)
        (get nat_cmp sorted.new x)) }
{
    for object in part {
        sorted.insert(object.object(), object)?;
    }
    Ok(())
}

/// The objects of all parts, in rising number, unless an allocation failed.
fn join_shares(
    alloc: Global,
    found: Vec<Result<Vec<ObjectHistory>, AllocError>>,
) -> Result<BTreeMap<u32, ObjectHistory>, AllocError>
    requires { 0 < length found.items }
    ensures { IfOk result (λ m. (es : List Event) → AreGathered (λ v. v.items) es found.items →
        IsWhole es m) }
{
    let mut sorted = BTreeMap::new(alloc);
    for part in found {
        let objects = part?;
        put_in(&mut sorted, objects)?;
    }
    Ok(sorted)
}

/// The objects of all parts in a list, in rising number.
fn objects_of_shares(
    alloc: Global,
    found: Vec<Result<Vec<ObjectHistory>, AllocError>>,
) -> Result<Vec<ObjectHistory>, AllocError>
    requires { 0 < length found.items }
    ensures { (es : List Event) → AreGathered (λ v. v.items) es found.items
        → IfOk result (λ v. AreAll es v.items) }
{
    let sorted = join_shares(alloc, found)?;
    let mut objects = Vec::new(alloc);
    for (_, object) in sorted {
        objects.push(object)?;
    }
    Ok(objects)
}

/// As `events::split`, by this many workers: the history of each object that some invocation names,
/// a failed one too, in rising object number.
///
/// Worker `w` gathers the objects whose numbers leave the remainder `w` by the number of workers.
/// So the work is shared if the objects' numbers are spread over the remainders; each worker
/// also looks once at each event. A lone worker's part is the whole.
pub(crate) fn split_by_workers<R: Threads + Sync>(
    rt: &R,
    alloc: Global,
    history: &History,
    workers: u32,
) -> Result<Vec<ObjectHistory>, AllocError>
    requires { 0 < workers }
    ensures { IfOk result (λ v. AreAll history.now v.items) }
{
    if workers == 1 {
        return split(alloc, history);
    }
    let found = map_indices(
        rt,
        alloc,
        workers as usize,
        &|worker: usize| -> Result<Vec<ObjectHistory>, AllocError>
            requires { (worker < workers) × (workers < 2 ^ 32) }
            ensures { IfOk result (λ v. IsGatheredPart history.entry.now worker workers v.items) }
        { split_share(alloc, history, worker as u32, workers) },
    )?;
    objects_of_shares(alloc, found)
}
