//! What the publication list does to which rows are tried.

use crate::bench::Setup;
use crate::steps::Play;
use crate::steps::Step::{Combines, CombinesInVain, Enlists, Gets, Posts};
use publication::Enlist::{Already, Listed};
use seq_objects::{AnyOp, Kind};

pub(crate) static PLAYS: [Play; 3] = [
    Play {
        name: "only listed rows are tried",
        setup: Setup {
            kinds: &[Kind::Queue],
            left: None,
            clients: 2,
            quota: 1,
        },
        turns: &[
            (1, Posts(0, AnyOp::Enqueue(1))),
            (0, Combines(1, 0)),
            (1, Enlists(Listed)),
            (0, Combines(2, 1)),
            (1, Gets(1)),
        ],
        end: None,
    },
    Play {
        name: "idle rows are taken out",
        setup: Setup {
            kinds: &[Kind::Queue],
            left: None,
            clients: 2,
            quota: 1,
        },
        turns: &[
            (1, Enlists(Listed)),
            (0, Enlists(Listed)),
            (0, CombinesInVain(1, 191)),
            (1, Enlists(Already)),
            (0, CombinesInVain(192, 192)),
            (1, Enlists(Listed)),
            (0, Enlists(Already)),
        ],
        end: None,
    },
    Play {
        name: "served rows stay longer",
        setup: Setup {
            kinds: &[Kind::Queue],
            left: None,
            clients: 2,
            quota: 1,
        },
        turns: &[
            (1, Enlists(Listed)),
            (0, Enlists(Listed)),
            (0, CombinesInVain(1, 99)),
            (1, Posts(0, AnyOp::Enqueue(1))),
            (0, Combines(100, 1)),
            (1, Gets(1)),
            (0, CombinesInVain(101, 192)),
            (1, Enlists(Already)),
            (0, CombinesInVain(193, 256)),
            (1, Enlists(Listed)),
        ],
        end: None,
    },
];
