//! How long calls on a desk take.
//!
//! This many threads, each with a client of its own, make calls on one object. Printed are for each
//! kind of object and number of threads the least time of a call in nanoseconds, over all rounds:
//! the time of a whole round, through the number of its calls. The word is the number of rounds;
//! with none there is one round of each, and no time is printed.
#![tactic(auto)]

ghost use Rattle.std.specs.Prelude.{◌≡◌, ◌+◌, ◌<◌, length, IfOk};
ghost use Rattle.publication.specs.Handles.{AreAllNew};
ghost use Rattle.desk_model.specs.Limits.{max_clients};

use combiner::call;
use publication::{Client, Desk};
use seq_objects::{AnyObject, AnyOp, Kind};
use std::alloc::{AllocError, Global};
use std::process::ExitCode;
use std::rt::{Clock, Env};
use std::sync::Wait;
use std::thread::{Threads, join};
use std::time::Instant;
use std::{env, io};

/// How many calls a client makes in a round.
const CALLS: u32 = 10_000;

/// What the measurement uses of the host.
trait Host: Threads + Wait + Sync + Clock + AllocGlobal + Print {}

impl<R: Threads + Wait + Sync + Clock + AllocGlobal + Print> Host for R {}

/// The call of this number that a thread makes.
fn op_of(kind: Kind, thread: u32, i: u32) -> AnyOp {
    let x = ((i as u64 * 7919 + thread as u64 * 104_729) % 1000) as i64;
    let first = i % 2 == 0;
    match kind {
        Kind::Heap if first => AnyOp::Insert(x),
        Kind::Heap => AnyOp::ExtractMin,
        Kind::Map if first => AnyOp::Put(x, i as i64),
        Kind::Map => AnyOp::Get(x),
        _ if first => AnyOp::Enqueue(x),
        _ => AnyOp::Dequeue,
    }
}

/// Makes the calls of one client.
fn work<R: Wait>(rt: &R, desk: &Desk<AnyObject>, client: Client<AnyObject>, kind: Kind)
    requires { client.desk ≡ desk.now.id }
{
    let mut client = client;
    let thread = client.number();
    for i in 0..CALLS {
        let op = op_of(kind, thread, i);
        let (after, _) = call(rt, desk, client, 0, op);
        client = after;
    }
}

/// The last of the clients.
fn next(desk: &Desk<AnyObject>, clients: &mut Vec<Client<AnyObject>>) -> Client<AnyObject>
    requires { (0 < length clients.old.items) × AreAllNew desk.now.id clients.old.items }
    ensures client { result.desk ≡ desk.now.id }
    ensures others { (length clients.new.items + 1 ≡ length clients.old.items)
        × AreAllNew desk.now.id clients.new.items }
{
    match clients.pop() {
        Some(client) => client,
        None => unreachable!(),
    }
}

/// Two of the clients work, each in a thread.
fn two_work<R: Threads + Wait + Sync>(
    rt: &R,
    desk: &Desk<AnyObject>,
    one: Client<AnyObject>,
    other: Client<AnyObject>,
    kind: Kind,
)
    requires one { one.desk ≡ desk.now.id }
    requires other { other.desk ≡ desk.now.id }
{
    join(
        rt,
        || work(rt, desk, one, kind),
        || work(rt, desk, other, kind),
    );
}

/// Four of the clients work, each in a thread.
fn four_work<R: Threads + Wait + Sync>(
    rt: &R,
    desk: &Desk<AnyObject>,
    clients: &mut Vec<Client<AnyObject>>,
    kind: Kind,
)
    requires { (length clients.old.items ≡ 4) × AreAllNew desk.now.id clients.old.items }
{
    let (a, b) = (next(desk, clients), next(desk, clients));
    let (c, d) = (next(desk, clients), next(desk, clients));
    join(
        rt,
        || -> ()
            requires { (a.desk ≡ desk.now.id) × (b.desk ≡ desk.now.id) }
        { two_work(rt, desk, a, b, kind) },
        || -> ()
            requires { (c.desk ≡ desk.now.id) × (d.desk ≡ desk.now.id) }
        { two_work(rt, desk, c, d, kind) },
    );
}

/// All clients of a desk work: one, two or four.
fn all_work<R: Threads + Wait + Sync>(
    rt: &R,
    desk: &Desk<AnyObject>,
    clients: &mut Vec<Client<AnyObject>>,
    kind: Kind,
)
    requires { AreAllNew desk.now.id clients.old.items }
{
    match clients.len() {
        1 => work(rt, desk, next(desk, clients), kind),
        2 => two_work(rt, desk, next(desk, clients), next(desk, clients), kind),
        4 => four_work(rt, desk, clients, kind),
        _ => {}
    }
}

fn new_desk(
    alloc: Global,
    kind: Kind,
    clients: u32,
) -> Result<(Desk<AnyObject>, Vec<Client<AnyObject>>), AllocError>
    requires { (0 < clients) × (clients < 1 + max_clients) }
    ensures { IfOk result (λ r. AreAllNew r.0.id r.1.items) }
{
    let mut objects = Vec::new(alloc);
    objects.push(AnyObject::empty(alloc, kind))?;
    Desk::new(alloc, objects, clients, CALLS)
}

/// The nanoseconds of one round.
fn round<R: Host>(rt: &R, kind: Kind, clients: u32) -> io::Result<u64>
    requires { (0 < clients) × (clients < 1 + max_clients) }
{
    let (desk, mut all) = new_desk(rt.alloc(), kind, clients)?;
    let start = Instant::now(rt)?;
    all_work(rt, &desk, &mut all, kind);
    Ok(u64::try_from(start.elapsed(rt)?.as_nanos()).unwrap_or(u64::MAX))
}

/// The least nanoseconds of a call in this many rounds.
fn least<R: Host>(rt: &R, kind: Kind, clients: u32, rounds: u32) -> io::Result<u64>
    requires { (0 < clients) × (clients < 1 + max_clients) }
{
    let mut least = u64::MAX;
    for _ in 0..rounds {
        least = least.min(round(rt, kind, clients)?);
    }
    Ok(least / (clients as u64 * CALLS as u64))
}

fn name_of(kind: Kind) -> &'static str {
    match kind {
        Kind::Heap => "heap",
        Kind::Map => "map",
        _ => "queue",
    }
}

fn measure<R: Host>(rt: &R, kind: Kind, rounds: Option<u32>) -> io::Result<()> {
    let name = name_of(kind);
    for clients in [1, 2, 4] {
        match rounds {
            Some(rounds) => {
                let nanoseconds = least(rt, kind, clients, rounds)?;
                rt.println(format_args!("{name} {clients} {nanoseconds}"))?;
            }
            None => {
                round(rt, kind, clients)?;
                rt.println(format_args!("{name} {clients}"))?;
            }
        }
    }
    Ok(())
}

/// The number of rounds that the words ask for.
fn rounds_of<R: AllocGlobal + Env>(rt: &R) -> io::Result<Option<u32>> {
    let words: Vec<String> = env::args(rt)?.collect(rt.alloc())?;
    match words.get(1) {
        Some(word) => Ok(word.parse::<u32>().ok()),
        None => Ok(None),
    }
}

fn run<R: Host + Env>(rt: &R) -> io::Result<()> {
    let rounds = rounds_of(rt)?;
    for kind in [Kind::Queue, Kind::Heap, Kind::Map] {
        measure(rt, kind, rounds)?;
    }
    Ok(())
}

fn main(rt: HostRuntime) -> ExitCode {
    match run(&rt) {
        Ok(()) => ExitCode::from(0),
        Err(_) => ExitCode::from(1),
    }
}
