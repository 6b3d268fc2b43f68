//! Refused memory: a queue that refuses a call, and a log that cannot grow so far.

use crate::bench::{Bench, Setup};
use crate::steps::Step::{
    Combines, Enlists, Gets, IsRefused, LacksMemory, MayGet, Polls, Posts, ReservesTooMuch,
};
use crate::steps::{NIL, NOTHING, Play, REFUSED, Step, take_turns};
use publication::{Enlist, Post};
use seq_objects::{AnyOp, Kind};
use std::test::Fail;

const FIRST_REFUSED: &str = "{:process 0, :type :invoke, :f :enqueue, :value 1, :object 0}
{:process 0, :type :fail, :f :enqueue, :value 1, :object 0}
{:process 0, :type :invoke, :f :dequeue, :value nil, :object 0}
{:process 0, :type :ok, :f :dequeue, :value nil, :object 0}
{:object 0, :order [2]}
yes: 1 operations, 1 objects
queue: 1 objects, 1 operations
";

const SIXTH_REFUSED: &str = "{:process 0, :type :invoke, :f :enqueue, :value 9, :object 0}
{:process 0, :type :ok, :f :enqueue, :value 9, :object 0}
{:process 0, :type :invoke, :f :enqueue, :value 9, :object 0}
{:process 0, :type :ok, :f :enqueue, :value 9, :object 0}
{:process 0, :type :invoke, :f :enqueue, :value 9, :object 0}
{:process 0, :type :ok, :f :enqueue, :value 9, :object 0}
{:process 0, :type :invoke, :f :enqueue, :value 9, :object 0}
{:process 0, :type :ok, :f :enqueue, :value 9, :object 0}
{:process 0, :type :invoke, :f :enqueue, :value 9, :object 0}
{:process 0, :type :ok, :f :enqueue, :value 9, :object 0}
{:process 0, :type :invoke, :f :enqueue, :value 9, :object 0}
{:process 0, :type :fail, :f :enqueue, :value 9, :object 0}
{:process 0, :type :invoke, :f :enqueue, :value 9, :object 0}
{:process 0, :type :ok, :f :enqueue, :value 9, :object 0}
{:object 0, :order [0 2 4 6 8 12]}
yes: 6 operations, 1 objects
queue: 1 objects, 6 operations
";

/// The log has no room yet, so the first pass must reserve some. `rt try --test --fail-alloc N`
/// refuses a test's Nth allocation: if it is the one of that reserve, the test prints that
/// nothing was served. Before it a part of the bench is refused, after it something that is made
/// later.
#[test]
fn a_pass_whose_log_cannot_grow_serves_nothing(rt: HostRuntime) -> Result<(), Fail> {
    let setup = Setup {
        kinds: &[Kind::Queue],
        left: None,
        clients: 1,
        quota: 2,
    };
    let waits = [
        (0, Posts(0, AnyOp::Enqueue(1))),
        (0, Enlists(Enlist::Listed)),
    ];
    let mut bench = take_turns(&rt, Bench::new(rt.alloc(), &setup)?, &waits, "before");
    let mut after = [(0, MayGet(1)), (0, Combines(2, 0)), (0, Polls(NOTHING))];
    if bench.step(&rt, &(0, LacksMemory)) {
        println!(rt; "the first pass served nothing")?;
        after = [(0, Polls(NOTHING)), (0, Combines(2, 1)), (0, Gets(1))];
    }
    let _ = take_turns(&rt, bench, &after, "after");
    Ok(())
}

/// The desk of a lone call. If the log gets no memory in the first pass, the test prints that
/// nothing was served, and the second pass answers the call. Then no call is left, as in the play
/// of a lone call.
#[test]
fn a_lone_call_whose_pass_gets_no_memory_is_answered_later(rt: HostRuntime) -> Result<(), Fail> {
    let setup = Setup {
        kinds: &[Kind::Queue],
        left: None,
        clients: 1,
        quota: 1,
    };
    let call = AnyOp::Enqueue(4);
    let posts = [
        (0, Posts(0, call)),
        (0, IsRefused(0, call, Post::Outstanding)),
    ];
    let mut bench = take_turns(&rt, Bench::new(rt.alloc(), &setup)?, &posts, "posts");
    let (mut answer, mut last) = (MayGet(4), 2);
    if bench.step(&rt, &(0, LacksMemory)) {
        println!(rt; "the first pass served nothing")?;
        let later = [(0, Polls(NOTHING)), (0, Combines(2, 1))];
        bench = take_turns(&rt, bench, &later, "later");
        (answer, last) = (Gets(4), 3);
    }
    let after = [
        (0, answer),
        (0, Polls(NOTHING)),
        (0, IsRefused(0, AnyOp::Dequeue, Post::Spent)),
        (0, Combines(last, 0)),
    ];
    let _ = take_turns(&rt, bench, &after, "after");
    Ok(())
}

const NINE: Step = Posts(0, AnyOp::Enqueue(9));

const GETS: Step = Gets(9);

pub(crate) static PLAYS: [Play; 4] = [
    Play {
        name: "the first pass has memory",
        setup: Setup {
            kinds: &[Kind::Queue],
            left: None,
            clients: 1,
            quota: 2,
        },
        turns: &[
            (0, Posts(0, AnyOp::Enqueue(1))),
            (0, Enlists(Enlist::Listed)),
            (0, Combines(1, 1)),
            (0, Gets(1)),
        ],
        end: None,
    },
    Play {
        name: "a refused call is in no log",
        setup: Setup {
            kinds: &[Kind::Queue],
            left: Some(0),
            clients: 1,
            quota: 2,
        },
        turns: &[
            (0, Posts(0, AnyOp::Enqueue(1))),
            (0, Combines(1, 1)),
            (0, Polls(REFUSED)),
            (0, Posts(0, AnyOp::Dequeue)),
            (0, Combines(2, 1)),
            (0, Polls(NIL)),
        ],
        end: Some((0, FIRST_REFUSED)),
    },
    Play {
        name: "a call is refused after five others",
        setup: Setup {
            kinds: &[Kind::Queue],
            left: Some(5),
            clients: 1,
            quota: 8,
        },
        turns: &[
            (0, NINE),
            (0, Combines(1, 1)),
            (0, GETS),
            (0, NINE),
            (0, Combines(2, 1)),
            (0, GETS),
            (0, NINE),
            (0, Combines(3, 1)),
            (0, GETS),
            (0, NINE),
            (0, Combines(4, 1)),
            (0, GETS),
            (0, NINE),
            (0, Combines(5, 1)),
            (0, GETS),
            (0, NINE),
            (0, Combines(6, 1)),
            (0, Polls(REFUSED)),
            (0, NINE),
            (0, Combines(7, 1)),
            (0, GETS),
        ],
        end: Some((0, SIXTH_REFUSED)),
    },
    Play {
        name: "a log that cannot grow so far is as it was",
        setup: Setup {
            kinds: &[Kind::Queue],
            left: None,
            clients: 1,
            quota: 2,
        },
        turns: &[
            (0, Posts(0, AnyOp::Enqueue(1))),
            (0, ReservesTooMuch),
            (0, Combines(1, 1)),
            (0, Gets(1)),
        ],
        end: None,
    },
];
