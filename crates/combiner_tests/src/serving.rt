//! Passes and calls on one object: which rows are served, in which order, and with which answers.

ghost use Rattle.std.specs.Prelude.{◌≡◌, ◌<◌, length};

use crate::bench::{Bench, Setup};
use crate::refusing::Refusing;
use crate::steps::Step::{
    Combines, Enlists, Gets, HoldsAgainst, IsRefused, Polls, Posts, Retires, Serves,
};
use crate::steps::{Got, NIL, NOTHING, Play, serve_row, value};
use combiner::{Combined, call, combine};
use publication::{Client, Desk, Enlist, Pass, Post, Win};
use seq_objects::{AnyOp, Kind};
use std::sync::Wait;
use std::test::Fail;
use std::thread::{Threads, join, yield_now};

const SECOND_FIRST: &str = "{:process 0, :type :invoke, :f :enqueue, :value 1, :object 0}
{:process 1, :type :invoke, :f :enqueue, :value 2, :object 0}
{:process 0, :type :ok, :f :enqueue, :value 1, :object 0}
{:process 1, :type :ok, :f :enqueue, :value 2, :object 0}
{:process 0, :type :invoke, :f :dequeue, :value nil, :object 0}
{:process 0, :type :ok, :f :dequeue, :value 2, :object 0}
{:object 0, :order [1 0 4]}
yes: 3 operations, 1 objects
queue: 1 objects, 3 operations
";

const LOCKED_TWICE: &str = "{:process 0, :type :invoke, :f :acquire, :value nil, :object 0}
{:process 0, :type :ok, :f :acquire, :value nil, :object 0}
{:process 1, :type :invoke, :f :acquire, :value nil, :object 0}
{:process 0, :type :invoke, :f :release, :value nil, :object 0}
{:process 0, :type :ok, :f :release, :value nil, :object 0}
{:process 1, :type :ok, :f :acquire, :value nil, :object 0}
{:object 0, :order [0 3 2]}
yes: 3 operations, 1 objects
mutex: 1 objects, 3 operations
";

const TWO: Setup = Setup {
    kinds: &[Kind::Queue],
    left: None,
    clients: 2,
    quota: 2,
};

/// Whether a call that enqueues this value gives it, and what a call of dequeue then gives.
fn enqueue_and_dequeue<R: Wait>(
    rt: &R,
    desk: &Desk<Refusing>,
    client: Client<Refusing>,
    v: i64,
) -> (bool, Got)
    requires { client.desk ≡ desk.now.id }
{
    let (client, first) = call(rt, desk, client, 0, AnyOp::Enqueue(v));
    let (_, second) = call(rt, desk, client, 0, AnyOp::Dequeue);
    (first.ok() == value(v), second.ok())
}

/// Each client is answered in a thread of its own, and takes out its own value, or that of the
/// other.
fn are_both_answered<R: Threads + Wait + Sync>(rt: &R, bench: &mut Bench) -> bool {
    let (Some(zero), Some(one)) = (bench.take(0), bench.take(1)) else {
        return false;
    };
    let desk = &bench.desk;
    let ((is_zero, zero), (is_one, one)) = join(
        rt,
        || enqueue_and_dequeue(rt, desk, zero, 1),
        || enqueue_and_dequeue(rt, desk, one, 2),
    );
    let own = zero == value(1) && one == value(2);
    is_zero && is_one && (own || (zero == value(2) && one == value(1)))
}

#[test]
fn two_threads_are_answered(rt: HostRuntime) -> Result<(), Fail> {
    for _ in 0..100 {
        let mut bench = Bench::new(rt.alloc(), &TWO)?;
        assert!(rt; are_both_answered(&rt, &mut bench));
    }
    Ok(())
}

/// Tries row 0 until it has answered two requests there.
fn serve_twice<R: Wait>(rt: &R, desk: &Desk<Refusing>, pass: Pass<Refusing>)
    requires { pass.desk ≡ desk.now.id }
{
    let mut pass = pass;
    let mut left = 2u32;
    for _ in rt.forever() {
        let (after, served) = serve_row(desk, pass, 0);
        pass = after;
        left = left.saturating_sub(u32::from(served));
        if left == 0 {
            let _ = pass.release(desk);
            return;
        }
        yield_now();
    }
    unreachable!()
}

/// Wins object 0, and holds it until it has answered two requests in row 0.
fn serve_two_calls<R: Wait>(rt: &R, desk: &Desk<Refusing>, client: Client<Refusing>)
    requires client { client.desk ≡ desk.now.id }
    requires object { 0 < length desk.now.id.kinds }
{
    let mut client = client;
    for _ in rt.forever() {
        match desk.win(client, 0) {
            Win::Held(after) => client = after,
            Win::Won(pass) => {
                serve_twice(rt, desk, pass);
                return;
            }
        }
        yield_now();
    }
}

/// Combines until object 0 is held by another client.
fn wait_until_held<R: Wait>(
    rt: &R,
    desk: &Desk<Refusing>,
    client: Client<Refusing>,
) -> Client<Refusing>
    requires client { client.desk ≡ desk.now.id }
    requires object { 0 < length desk.now.id.kinds }
    ensures { result.desk ≡ client.desk }
{
    let mut client = client;
    for _ in rt.forever() {
        let (after, combined) = combine(desk, client, 0);
        client = after;
        if combined == Combined::Busy {
            return client;
        }
        yield_now();
    }
    unreachable!()
}

/// What a call gives that is made while object 0 is held. Once it is over, another one is posted.
fn call_and_post<R: Wait>(rt: &R, desk: &Desk<Refusing>, client: Client<Refusing>) -> Got
    requires client { client.desk ≡ desk.now.id }
    requires object { 0 < length desk.now.id.kinds }
{
    let client = wait_until_held(rt, desk, client);
    let (mut client, called) = call(rt, desk, client, 0, AnyOp::Enqueue(3));
    let _ = desk.post(&mut client, 0, AnyOp::Enqueue(3));
    called.ok()
}

/// Client 1 holds the object until client 0 has posted its second call. So the first one is over
/// before: its answer came by a poll, and not by a pass of its own.
#[test]
fn a_call_polls(rt: HostRuntime) -> Result<(), Fail> {
    let mut bench = Bench::new(rt.alloc(), &TWO)?;
    let (Some(zero), Some(one)) = (bench.take(0), bench.take(1)) else {
        return Err(Fail::new("a client is not there"));
    };
    let (desk, handle) = (&bench.desk, &rt);
    if desk.objects() == 0 {
        return Err(Fail::new("there is no object"));
    }
    let (got, ()) = join(
        handle,
        || call_and_post(handle, desk, zero),
        || serve_two_calls(handle, desk, one),
    );
    assert!(rt; got == value(3));
    Ok(())
}

pub(crate) static PLAYS: [Play; 5] = [
    Play {
        name: "the call posted second may be served first",
        setup: Setup {
            kinds: &[Kind::Queue],
            left: None,
            clients: 2,
            quota: 2,
        },
        turns: &[
            (0, Posts(0, AnyOp::Enqueue(1))),
            (1, Posts(0, AnyOp::Enqueue(2))),
            (1, Serves(0, &[1, 0])),
            (0, Gets(1)),
            (1, Gets(2)),
            (0, Posts(0, AnyOp::Dequeue)),
            (0, Serves(0, &[0])),
            (0, Gets(2)),
            (1, Retires),
        ],
        end: Some((0, SECOND_FIRST)),
    },
    Play {
        name: "a lone call is answered",
        setup: Setup {
            kinds: &[Kind::Queue],
            left: None,
            clients: 1,
            quota: 1,
        },
        turns: &[
            (0, Posts(0, AnyOp::Enqueue(4))),
            (0, IsRefused(0, AnyOp::Enqueue(4), Post::Outstanding)),
            (0, Combines(1, 1)),
            (0, Gets(4)),
            (0, Polls(NOTHING)),
            (0, IsRefused(0, AnyOp::Dequeue, Post::Spent)),
            (0, Combines(2, 0)),
        ],
        end: None,
    },
    Play {
        name: "what was put back is served later",
        setup: Setup {
            kinds: &[Kind::Mutex],
            left: None,
            clients: 2,
            quota: 2,
        },
        turns: &[
            (0, Posts(0, AnyOp::Acquire)),
            (0, Combines(1, 1)),
            (0, Polls(NIL)),
            (1, Posts(0, AnyOp::Acquire)),
            (1, Enlists(Enlist::Listed)),
            (1, Combines(2, 0)),
            (1, Polls(NOTHING)),
            (0, Posts(0, AnyOp::Release)),
            (0, Combines(3, 2)),
            (0, Polls(NIL)),
            (1, Polls(NIL)),
            (1, Retires),
        ],
        end: Some((0, LOCKED_TWICE)),
    },
    Play {
        name: "the own row is tried again",
        setup: Setup {
            kinds: &[Kind::Mutex],
            left: None,
            clients: 2,
            quota: 2,
        },
        turns: &[
            (0, Posts(0, AnyOp::Acquire)),
            (0, Combines(1, 1)),
            (0, Polls(NIL)),
            (1, Posts(0, AnyOp::Acquire)),
            (0, Posts(0, AnyOp::Release)),
            (0, Enlists(Enlist::Listed)),
            (1, Combines(2, 2)),
            (0, Polls(NIL)),
            (1, Polls(NIL)),
            (1, Retires),
        ],
        end: Some((0, LOCKED_TWICE)),
    },
    Play {
        name: "a held object is busy",
        setup: Setup {
            kinds: &[Kind::Queue],
            left: None,
            clients: 2,
            quota: 1,
        },
        turns: &[
            (1, Posts(0, AnyOp::Enqueue(4))),
            (1, Enlists(Enlist::Listed)),
            (0, HoldsAgainst(1)),
            (0, Combines(1, 1)),
            (1, Gets(4)),
        ],
        end: None,
    },
];
