//! Calls that wait for their answers.

use crate::bench::Setup;
use crate::steps::Step::{Calls, Combines, Enlists, Gets, IsSpent, Posts, Retires};
use crate::steps::{Got, Play, value};
use publication::{Answer, Enlist};
use seq_objects::{AnyOp, AnyReply, Kind};

/// Client 0 waits with an enqueue in its row, and client 1 calls: its own row comes first.
const OWN_FIRST: &str = "{:process 0, :type :invoke, :f :enqueue, :value 1, :object 0}
{:process 1, :type :invoke, :f :enqueue, :value 2, :object 0}
{:process 1, :type :ok, :f :enqueue, :value 2, :object 0}
{:process 0, :type :ok, :f :enqueue, :value 1, :object 0}
{:object 0, :order [1 0]}
yes: 2 operations, 1 objects
queue: 1 objects, 2 operations
";

const TWO: Got = Some(Answer::Reply(AnyReply::Value(Some(2))));

const FOUR: Got = Some(Answer::Reply(AnyReply::Value(Some(4))));

pub(crate) static PLAYS: [Play; 2] = [
    Play {
        name: "a lone client posts and is listed",
        setup: Setup {
            kinds: &[Kind::Queue],
            left: None,
            clients: 1,
            quota: 2,
        },
        turns: &[
            (0, Calls(AnyOp::Enqueue(4), FOUR)),
            (0, Enlists(Enlist::Already)),
            (0, Calls(AnyOp::Dequeue, FOUR)),
            (0, IsSpent(AnyOp::Dequeue)),
            (0, Combines(3, 0)),
        ],
        end: None,
    },
    Play {
        name: "the own row of a call is served before the listed rows",
        setup: Setup {
            kinds: &[Kind::Queue],
            left: None,
            clients: 2,
            quota: 1,
        },
        turns: &[
            (0, Posts(0, AnyOp::Enqueue(1))),
            (0, Enlists(Enlist::Listed)),
            (1, Calls(AnyOp::Enqueue(2), TWO)),
            (0, Gets(1)),
            (1, Retires),
        ],
        end: Some((0, OWN_FIRST)),
    },
];
