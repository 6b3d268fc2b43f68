//! A workload that is drawn from a seed.

ghost use Rattle.std.specs.Prelude.{◌≡◌, ◌<◌, ◌≤◌, map, IfOk};
ghost use Rattle.std.specs.List.{range_with_len};
ghost use Rattle.desk_model.specs.Limits.{max_objects, max_clients, max_calls};
ghost use Rattle.seq_objects.specs.Kinds.{kinds_of};
ghost use Rattle.clients.specs.Drawing.{client_calls};

use crate::calls::calls_of;
use crate::workloads::Workload;
use model::Kind;
use seq_objects::Kinds;
use std::alloc::{AllocError, Global};

/// The kinds of this many objects.
fn kinds_for(alloc: Global, kinds: Kinds, objects: u32) -> Result<Vec<Kind>, AllocError>
    ensures { IfOk result (λ v. v.items ≡ kinds_of kinds objects) }
{
    let mut all = Vec::new(alloc);
    for object in 0..objects {
        all.push(kinds.kind(object))?;
    }
    Ok(all)
}

/// Draws the calls of this many clients on this many objects, from the seed and the number of each
/// client.
///
/// For each call four numbers are drawn: the object, the choice of an operation, and two values
/// below 100. If all objects are of one kind whose operations take an object and free it, the calls
/// come in such pairs, with the number of the client as the owner; an odd one at the end is left
/// out.
pub fn workload(
    alloc: Global,
    kinds: Kinds,
    objects: u32,
    clients: u32,
    calls: u32,
    seed: u64,
) -> Result<Workload, AllocError>
    requires objects { (0 < objects) × (objects ≤ max_objects) }
    requires clients { (0 < clients) × (clients ≤ max_clients) }
    requires calls { calls ≤ max_calls }
    ensures kinds { IfOk result (λ w. w.kinds ≡ kinds_of kinds objects) }
    ensures calls { IfOk result (λ w.
        w.calls ≡ map (client_calls kinds objects calls seed) (range_with_len 0 clients)) }
{
    let kinds_of_all = kinds_for(alloc, kinds, objects)?;
    let mut calls_of_all = Vec::new(alloc);
    for client in 0..clients {
        calls_of_all.push(calls_of(alloc, kinds, objects, calls, seed, client)?)?;
    }
    Ok(Workload {
        kinds: kinds_of_all,
        calls: calls_of_all,
    })
}
