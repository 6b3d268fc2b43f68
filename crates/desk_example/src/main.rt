//! The desk in a few lines: two clients of one queue. The first makes its call step by step, the
//! second by `call`.
#![tactic(auto)]

ghost use Rattle.std.specs.Prelude.{◌≡◌, ◌<◌, length, IfOk};

use combiner::{Combined, call, combine};
use publication::{Client, Desk};
use seq_objects::{AnyObject, AnyOp, Kind};
use std::alloc::{AllocError, Global};

/// A desk of one queue, and its two clients, each of which may make two calls.
fn desk_for_two(
    alloc: Global,
) -> Result<(Desk<AnyObject>, Client<AnyObject>, Client<AnyObject>), AllocError>
    ensures { IfOk result (λ r. (r.1.desk ≡ r.0.id) × (r.2.desk ≡ r.0.id)) }
{
    let mut objects = Vec::new(alloc);
    objects.push(AnyObject::empty(alloc, Kind::Queue))?;
    let (desk, mut clients) = Desk::new(alloc, objects, 2, 2)?;
    let Some(one) = clients.pop() else {
        unreachable!()
    };
    let Some(zero) = clients.pop() else {
        unreachable!()
    };
    Ok((desk, zero, one))
}

/// Combines on object 0 until a pass has served, at most twice. A pass that gets no memory for the
/// log serves nothing, and the next one tries again.
fn combine_until_served(
    rt: &HostRuntime,
    desk: &Desk<AnyObject>,
    client: Client<AnyObject>,
) -> std::io::Result<Client<AnyObject>>
    requires desk { client.desk ≡ desk.now.id }
    requires object { 0 < length desk.now.id.kinds }
    ensures { IfOk result (λ c. c.desk ≡ client.desk) }
{
    let (client, first) = combine(desk, client, 0);
    println!(rt; "{first:?}")?;
    if let Combined::Served { .. } = first {
        return Ok(client);
    }
    let (client, second) = combine(desk, client, 0);
    println!(rt; "{second:?}")?;
    Ok(client)
}

fn main(rt: HostRuntime) -> std::io::Result<()> {
    let (desk, mut zero, one) = desk_for_two(rt.alloc())?;
    // A call posts a request on object 0, and combines until a pass has served it: its own, or that
    // of another client in another thread. Then it takes the answer.
    match desk.post(&mut zero, 0, AnyOp::Enqueue(7)) {
        Ok(_) => {}
        Err(_) => return println!(rt; "the call was not posted"),
    }
    let mut zero = combine_until_served(&rt, &desk, zero)?;
    println!(rt; "{:?}", desk.poll(&mut zero))?;
    // `call` makes a whole call.
    let (mut one, dequeued) = call(&rt, &desk, one, 0, AnyOp::Dequeue);
    println!(rt; "{dequeued:?}")?;
    // Client 0 retires, client 1 hears of it and closes the desk. The record has all that happened.
    desk.tell(&mut one, desk.retire(zero));
    let Ok(record) = desk.close(one) else {
        return println!(rt; "a client has not retired");
    };
    if record.objects() > 0 {
        println!(rt; "{:?}", record.log(0))?;
    }
    Ok(())
}
