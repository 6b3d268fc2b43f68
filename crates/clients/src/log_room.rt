//! Room in the logs, for all calls of a workload.

ghost use Rattle.std.specs.Prelude.{◌≡◌, ◌<◌, ◌≤◌, ◌*◌, length, IfOk};
ghost use Rattle.desk_model.specs.Limits.{max_clients, max_calls};
ghost use Rattle.combiner.specs.Passes.{KeepsCalls};
ghost use Rattle.clients.specs.Made.{AreNew};

use crate::Workload;
use model::AnyOp;
use publication::{Client, Desk, Win};
use seq_objects::AnyObject;
use std::alloc::AllocError;

/// How many of these calls are on the object. It is proved only that they are at most all: the
/// number says how much room to make, and no answer depends on it.
fn count_on(calls: &[(u32, AnyOp)], object: u32) -> usize
    ensures { result ≤ length calls.now }
{
    calls.iter().filter(|call| call.0 == object).count()
}

/// How many calls of the workload, those of all clients, are on the object. Of this number too only
/// a bound is proved.
fn calls_on(workload: &Workload, object: u32) -> usize
    ensures { result ≤ max_clients * max_calls }
{
    let mut count = 0;
    for client in 0..workload.clients() {
        count += count_on(workload.calls(client), object);
    }
    count
}

/// Makes room in the log of the object for each call of the workload on it, and for one more entry
/// of each client, since a pass needs that room before it serves. If another client holds the
/// object, it makes no room, and this is no error.
///
/// An error: an allocation failed.
fn make_room(
    desk: &Desk<AnyObject>,
    workload: &Workload,
    client: Client<AnyObject>,
    object: u32,
) -> Result<Client<AnyObject>, AllocError>
    requires desk { client.desk ≡ desk.now.id }
    requires object { object < length desk.now.id.kinds }
    ensures desk { IfOk result (λ k. k.desk ≡ client.desk) }
    ensures calls { IfOk result (λ k. KeepsCalls client.knows k.knows) }
{
    match desk.win(client, object) {
        Win::Held(client) => Ok(client),
        Win::Won(mut pass) => {
            let entries = calls_on(workload, object) + desk.clients() as usize;
            let reserved = pass.reserve(entries);
            let client = pass.release(desk);
            reserved?;
            Ok(client)
        }
    }
}

/// Makes room in the log of each object, by one client.
fn make_all_room(
    desk: &Desk<AnyObject>,
    workload: &Workload,
    client: Client<AnyObject>,
) -> Result<Client<AnyObject>, AllocError>
    requires desk { client.desk ≡ desk.now.id }
    ensures desk { IfOk result (λ k. k.desk ≡ client.desk) }
    ensures calls { IfOk result (λ k. KeepsCalls client.knows k.knows) }
{
    let mut client = client;
    for object in 0..desk.objects() {
        client = make_room(desk, workload, client, object)?;
    }
    Ok(client)
}

/// Makes room in the log of each object for all calls of the workload on it, by the last client.
/// The clients must have made no call, and make none here.
pub(crate) fn reserve_logs(
    desk: &Desk<AnyObject>,
    workload: &Workload,
    mut clients: Vec<Client<AnyObject>>,
) -> Result<Vec<Client<AnyObject>>, AllocError>
    requires { AreNew desk.now.id clients.items }
    ensures new { IfOk result (λ v. AreNew desk.now.id v.items) }
    ensures count { IfOk result (λ v. length v.items ≡ length clients.items) }
{
    let Some(last) = clients.pop() else {
        return Ok(clients);
    };
    let last = make_all_room(desk, workload, last)?;
    clients.push_reserved(last);
    Ok(clients)
}
