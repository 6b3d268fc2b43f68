//! One pass over the rows of eight clients, each of which may make three calls.

use crate::bench::Setup;
use crate::steps::Step::{Combines, Enlists, Gets, Posts};
use crate::steps::{Play, Step};
use publication::Enlist::Listed;
use seq_objects::{AnyOp, Kind};

const POSTS: Step = Posts(0, AnyOp::Enqueue(3));

const LISTS: Step = Enlists(Listed);

const GETS: Step = Gets(3);

pub(crate) static PLAYS: [Play; 1] = [
    // A pass that stops at row 2, or counts no further than 2, fails here.
    Play {
        name: "all listed rows are served",
        setup: Setup {
            kinds: &[Kind::Queue],
            left: None,
            clients: 8,
            quota: 3,
        },
        turns: &[
            (7, POSTS),
            (7, LISTS),
            (6, POSTS),
            (6, LISTS),
            (5, POSTS),
            (5, LISTS),
            (4, POSTS),
            (4, LISTS),
            (3, POSTS),
            (3, LISTS),
            (3, Combines(1, 5)),
            (7, GETS),
            (6, GETS),
            (5, GETS),
            (4, GETS),
            (3, GETS),
            (2, POSTS),
            (2, LISTS),
            (7, POSTS),
            (5, POSTS),
            (3, Combines(2, 3)),
            (7, GETS),
            (5, GETS),
            (2, GETS),
            (3, Combines(3, 0)),
            (3, Combines(4, 0)),
            (6, POSTS),
            (3, Combines(5, 1)),
            (6, GETS),
        ],
        end: None,
    },
];
