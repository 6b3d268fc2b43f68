//! Clients that retire with a call outstanding, in a queue of two clients with the quota 2.

use crate::bench::Setup;
use crate::steps::Step::{Combines, Enlists, Gets, Posts, Retires, SeesOut, ServesAsItRetires};
use crate::steps::{Play, value};
use publication::Enlist;
use seq_objects::{AnyOp, Kind};

const TWO: Setup = Setup {
    kinds: &[Kind::Queue],
    left: None,
    clients: 2,
    quota: 2,
};

const UNLISTED: &str = "{:process 0, :type :invoke, :f :enqueue, :value 1, :object 0}
{:process 1, :type :invoke, :f :enqueue, :value 2, :object 0}
{:process 1, :type :ok, :f :enqueue, :value 2, :object 0}
{:object 0, :order [1]}
yes: 2 operations, 1 objects
queue: 1 objects, 2 operations
";

const LISTED: &str = "{:process 0, :type :invoke, :f :enqueue, :value 1, :object 0}
{:process 1, :type :invoke, :f :enqueue, :value 2, :object 0}
{:process 1, :type :ok, :f :enqueue, :value 2, :object 0}
{:object 0, :order [1 0]}
yes: 2 operations, 1 objects
queue: 1 objects, 2 operations
";

const DEQUEUED: &str = "{:process 0, :type :invoke, :f :enqueue, :value 1, :object 0}
{:process 1, :type :invoke, :f :dequeue, :value nil, :object 0}
{:process 1, :type :ok, :f :dequeue, :value 1, :object 0}
{:object 0, :order [0 1]}
yes: 2 operations, 1 objects
queue: 1 objects, 2 operations
";

const IDLE: &str = "{:process 1, :type :invoke, :f :enqueue, :value 3, :object 0}
{:object 0, :order []}
yes: 1 operations, 1 objects
queue: 1 objects, 1 operations
";

pub(crate) static PLAYS: [Play; 5] = [
    Play {
        name: "an unlisted call is pending",
        setup: TWO,
        turns: &[
            (0, Posts(0, AnyOp::Enqueue(1))),
            (0, Retires),
            (1, Posts(0, AnyOp::Enqueue(2))),
            (1, Combines(1, 1)),
            (1, Gets(2)),
        ],
        end: Some((1, UNLISTED)),
    },
    Play {
        name: "a listed call is served and pending",
        setup: TWO,
        turns: &[
            (0, Posts(0, AnyOp::Enqueue(1))),
            (0, Enlists(Enlist::Listed)),
            (0, Retires),
            (1, Posts(0, AnyOp::Enqueue(2))),
            (1, Combines(1, 2)),
            (1, Gets(2)),
        ],
        end: Some((1, LISTED)),
    },
    Play {
        name: "an answer is left there",
        setup: TWO,
        turns: &[
            (0, Posts(0, AnyOp::Enqueue(1))),
            (0, Enlists(Enlist::Listed)),
            (1, Combines(1, 1)),
            (0, Retires),
            (1, Posts(0, AnyOp::Dequeue)),
            (1, Combines(2, 1)),
            (1, Gets(1)),
        ],
        end: Some((1, DEQUEUED)),
    },
    Play {
        name: "a client retires while it is served",
        setup: TWO,
        turns: &[
            (0, Posts(0, AnyOp::Enqueue(1))),
            (1, ServesAsItRetires(0)),
            (1, Posts(0, AnyOp::Dequeue)),
            (1, Combines(1, 1)),
            (1, Gets(1)),
        ],
        end: Some((1, DEQUEUED)),
    },
    Play {
        name: "an idle client retires",
        setup: TWO,
        turns: &[(1, SeesOut(0)), (1, Posts(0, AnyOp::Enqueue(3)))],
        end: Some((1, IDLE)),
    },
];
