//! Calls that were worked out from the published generator, whose first words for state 42 and
//! stream 54 are a15c02b7, 7b47f409, ba1d3330, .., by a program of its own.

use clients::workload;
use model::{AnyOp, Kind};
use seq_objects::Kinds;
use std::test::Fail;

/// The kinds, how many objects, the seed, the client, and its calls.
type Row = (Kinds, u32, u64, u32, &'static [(u32, AnyOp)]);

const ROWS: [Row; 8] = [
    (
        Kinds::One(Kind::Queue),
        3,
        7,
        1,
        &[
            (1, AnyOp::Enqueue(45)),
            (1, AnyOp::Enqueue(39)),
            (2, AnyOp::Enqueue(20)),
            (0, AnyOp::Enqueue(92)),
            (1, AnyOp::Enqueue(87)),
        ],
    ),
    (
        Kinds::One(Kind::Stack),
        1,
        0,
        0,
        &[
            (0, AnyOp::Pop),
            (0, AnyOp::Push(40)),
            (0, AnyOp::Pop),
            (0, AnyOp::Pop),
            (0, AnyOp::Pop),
        ],
    ),
    (
        Kinds::One(Kind::Heap),
        1,
        0,
        0,
        &[
            (0, AnyOp::ExtractMin),
            (0, AnyOp::Insert(40)),
            (0, AnyOp::ExtractMin),
            (0, AnyOp::ExtractMin),
            (0, AnyOp::ExtractMin),
        ],
    ),
    (
        Kinds::One(Kind::Register),
        3,
        7,
        1,
        &[
            (1, AnyOp::Write(45)),
            (1, AnyOp::Cas(39, 60)),
            (2, AnyOp::Read),
            (0, AnyOp::Write(92)),
            (1, AnyOp::Read),
        ],
    ),
    (
        Kinds::One(Kind::Map),
        3,
        7,
        1,
        &[
            (1, AnyOp::Put(45, 97)),
            (1, AnyOp::Del(39)),
            (2, AnyOp::Get(20)),
            (0, AnyOp::Put(92, 77)),
            (1, AnyOp::Get(87)),
        ],
    ),
    // The last call of five is left out.
    (
        Kinds::One(Kind::Mutex),
        3,
        7,
        1,
        &[
            (1, AnyOp::Acquire),
            (1, AnyOp::Release),
            (2, AnyOp::Acquire),
            (2, AnyOp::Release),
        ],
    ),
    (
        Kinds::Mixed,
        5,
        7,
        0,
        &[
            (4, AnyOp::Del(63)),
            (4, AnyOp::Get(43)),
            (0, AnyOp::Dequeue),
            (4, AnyOp::Del(60)),
            (4, AnyOp::Del(85)),
        ],
    ),
    (
        Kinds::Mixed,
        16,
        u64::MAX,
        31,
        &[
            (1, AnyOp::Push(46)),
            (9, AnyOp::Put(95, 56)),
            (10, AnyOp::Enqueue(31)),
            (0, AnyOp::Dequeue),
            (12, AnyOp::Insert(79)),
        ],
    ),
];

#[test]
fn calls_are_those_of_the_generator(rt: HostRuntime) -> Result<(), Fail> {
    for (kinds, objects, seed, client, calls) in ROWS {
        let drawn = workload(rt.alloc(), kinds, objects, 32, 5, seed)?;
        assert!(rt; client < 32 && drawn.clients() == 32);
        assert!(rt; drawn.kinds().len() == objects as usize);
        assert!(rt; drawn.calls(client) == calls, "client {client}");
    }
    Ok(())
}
