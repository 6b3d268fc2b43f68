//! Desks of a queue and a stack: their clients, the end of these, and their own.

use crate::bench::Setup;
use crate::steps::Step::{
    ClosesTooEarly, FindsNone, Gets, IsNumber, IsRefused, Meets, Posts, Retires, SeesOut, Serves,
    Waits,
};
use crate::steps::{Play, value};
use publication::Post;
use seq_objects::{AnyOp, Kind};

/// Three clients of one call each.
const THREE: Setup = Setup {
    kinds: &[Kind::Queue, Kind::Stack],
    left: None,
    clients: 3,
    quota: 1,
};

const NOTHING_DONE: &str = "yes: 0 operations, 0 objects\n";

const TWO_OBJECTS: &str = "{:process 0, :type :invoke, :f :enqueue, :value 1, :object 0}
{:process 1, :type :invoke, :f :push, :value 2, :object 1}
{:process 1, :type :ok, :f :push, :value 2, :object 1}
{:process 0, :type :ok, :f :enqueue, :value 1, :object 0}
{:object 0, :order [0]}
{:object 1, :order [1]}
yes: 2 operations, 2 objects
queue: 1 objects, 1 operations
stack: 1 objects, 1 operations
";

pub(crate) static PLAYS: [Play; 4] = [
    Play {
        name: "a desk begins with its clients",
        setup: THREE,
        turns: &[
            (0, IsNumber(0)),
            (0, Waits(false)),
            (1, IsNumber(1)),
            (1, Waits(false)),
            (2, IsNumber(2)),
            (2, Waits(false)),
            (1, Meets(2)),
            (1, IsNumber(1)),
            (2, IsNumber(2)),
        ],
        end: None,
    },
    Play {
        name: "the last client closes",
        setup: THREE,
        turns: &[(1, Retires), (0, Retires)],
        end: Some((2, NOTHING_DONE)),
    },
    Play {
        name: "the error names the least client",
        setup: THREE,
        turns: &[
            (1, ClosesTooEarly(0)),
            (0, Retires),
            (1, ClosesTooEarly(2)),
            (2, Retires),
        ],
        end: Some((1, NOTHING_DONE)),
    },
    // Client 0 tries to close the desk too early, and then once client 1 has retired.
    Play {
        name: "two objects have one record",
        setup: Setup {
            kinds: &[Kind::Queue, Kind::Stack],
            left: None,
            clients: 2,
            quota: 2,
        },
        turns: &[
            (0, IsRefused(0, AnyOp::Push(5), Post::OtherKind)),
            (0, IsRefused(2, AnyOp::Enqueue(1), Post::NoSuchObject)),
            (0, Posts(0, AnyOp::Enqueue(1))),
            (1, Posts(1, AnyOp::Push(2))),
            (1, FindsNone(1, 0)),
            (1, Serves(1, &[1])),
            (1, Gets(2)),
            (0, Serves(0, &[0])),
            (0, Gets(1)),
            (0, ClosesTooEarly(1)),
            (0, SeesOut(1)),
        ],
        end: Some((0, TWO_OBJECTS)),
    },
];
