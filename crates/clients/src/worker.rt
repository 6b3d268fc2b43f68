//! A client that makes its calls.

ghost use Rattle.std.specs.Prelude.{◌≡◌, ◌<◌, true, false, length};
ghost use Rattle.desk_model.specs.World.{AnyAnswer};
ghost use Rattle.desk_invariant.specs.declared.board.Own.TheVariants.{Idle};
ghost use Rattle.combiner.specs.Waits.{IsCallOver, IsStillOutstanding};
ghost use Rattle.clients.specs.Workloads.{IsCall};
ghost use Rattle.clients.specs.Made.{MayWork, HasMadeCalls, IsNew, HasWorked};

use crate::Workload;
use combiner::{CallFault, call};
use model::AnyOp;
use publication::{Client, Desk};
use seq_objects::{AnyObject, Gate};
use std::sync::Wait;

/// Makes the client's calls of the workload, one after another, and returns the client. If
/// an allocation fails in a call it makes no more, and that one is outstanding. The clause does not
/// say that an allocation failed.
pub(crate) fn work<R: Wait, G: Gate>(
    rt: &R,
    gate: &G,
    desk: &Desk<AnyObject>,
    workload: &Workload,
    client: Client<AnyObject>,
) -> Client<AnyObject>
    requires { IsNew desk.now workload.now client }
    ensures { HasWorked desk.now workload.now client.knows.number result }
{
    let calls = workload.calls(client.number());
    make_all(rt, gate, desk, client, calls)
}

/// Makes these calls, one after another, up to the first in which an allocation fails.
fn make_all<R: Wait, G: Gate>(
    rt: &R,
    gate: &G,
    desk: &Desk<AnyObject>,
    client: Client<AnyObject>,
    calls: &[(u32, AnyOp)],
) -> Client<AnyObject>
    requires { MayWork desk.now client calls.now }
    ensures desk { result.desk ≡ client.desk }
    ensures worked { HasMadeCalls calls.now client.knows result.knows }
{
    let number = client.number();
    let mut client = client;
    for place in 0..calls.len() as u32 {
        let (object, op) = calls[place as usize];
        gate.before(number, place);
        let (after, over) = make(rt, desk, client, object, op);
        gate.after(number, place);
        client = after;
        if !over {
            return client;
        }
    }
    client
}

/// Makes one call, which `post` cannot refuse. Returns whether the call is over: if not, it is
/// outstanding.
fn make<R: Wait>(
    rt: &R,
    desk: &Desk<AnyObject>,
    client: Client<AnyObject>,
    object: u32,
    op: AnyOp,
) -> (Client<AnyObject>, bool)
    requires desk { client.desk ≡ desk.now.id }
    requires idle { client.knows.own ≡ Idle }
    requires room { length client.knows.done < client.desk.quota }
    requires fits { IsCall desk.now.id.kinds (object, op) }
    ensures desk { result.0.desk ≡ client.desk }
    ensures called { result.1 ≡ true
        → (a : AnyAnswer) × IsCallOver client.knows object op a result.0.knows }
    ensures outstanding { result.1 ≡ false → IsStillOutstanding client.knows object op
        result.0.knows }
{
    let (client, answered) = call(rt, desk, client, object, op);
    match answered {
        Ok(_) => (client, true),
        Err(CallFault::NoMemory) => (client, false),
        Err(CallFault::Post(_)) => unreachable!(),
    }
}
