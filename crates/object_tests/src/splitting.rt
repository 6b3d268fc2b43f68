//! Tests how a history is split into its objects, and into parts for workers.

use events::{Action, End, Event, History, ObjectHistory, Operation, split, split_share};
use seq_objects::{AnyOp, AnyReply, Kind};
use std::alloc::Global;
use std::test::Fail;

/// An enqueue that fails, an acquire that may have happened, and a dequeue that returned nil.
fn three_operations(alloc: Global) -> Result<History, Fail> {
    let events = [
        Event {
            number: 2,
            process: 0,
            object: 7,
            action: Action::Invoke(AnyOp::Enqueue(5)),
        },
        Event {
            number: 3,
            process: 1,
            object: 0,
            action: Action::Invoke(AnyOp::Acquire),
        },
        Event {
            number: 4,
            process: 0,
            object: 7,
            action: Action::Fail,
        },
        Event {
            number: 6,
            process: 0,
            object: 7,
            action: Action::Invoke(AnyOp::Dequeue),
        },
        Event {
            number: 8,
            process: 1,
            object: 0,
            action: Action::Info,
        },
        Event {
            number: 9,
            process: 0,
            object: 7,
            action: Action::Ok(AnyReply::Value(None)),
        },
    ];
    let Ok(events) = Vec::from_array(alloc, events) else {
        return Err(Fail::new("an allocation fails"));
    };
    Ok(History::new(events))
}

/// The acquire, which stayed pending.
const ACQUIRE: Operation = Operation {
    number: 3,
    op: AnyOp::Acquire,
    end: End::Pending,
};

/// What the queue's two operations did.
const ON_QUEUE: [Operation; 2] = [
    Operation {
        number: 2,
        op: AnyOp::Enqueue(5),
        end: End::Failed,
    },
    Operation {
        number: 6,
        op: AnyOp::Dequeue,
        end: End::Returned {
            at: 9,
            reply: AnyReply::Value(None),
        },
    },
];

/// What each object did: its number, its kind and its operations.
pub(crate) const OBJECTS: [(u32, Kind, &[Operation]); 2] = [
    (0, Kind::Mutex, &[ACQUIRE]),
    (7, Kind::Queue, &ON_QUEUE),
];

/// Whether this is what an object did.
pub(crate) fn is_object(object: &ObjectHistory, expected: (u32, Kind, &[Operation])) -> bool {
    let (number, kind, ops) = expected;
    object.object() == number && object.kind() == kind && object.ops() == ops
}

#[test]
fn a_history_is_split_by_object(rt: HostRuntime) -> Result<(), Fail> {
    let history = three_operations(rt.alloc())?;
    assert!(rt; history.events().len() == 6);
    let objects = split(rt.alloc(), &history)?;
    assert!(rt; objects.len() == 2);
    for (object, expected) in objects.iter().zip(OBJECTS) {
        assert!(rt; is_object(object, expected));
    }
    Ok(())
}

/// A part, of how many, and the place of its object in `OBJECTS`. Of 0 and 7, the even one falls to
/// the first of two parts; of three parts the middle one has 7, and the last none.
const PARTS: [(u32, u32, Option<usize>); 5] = [
    (0, 2, Some(0)),
    (1, 2, Some(1)),
    (0, 3, Some(0)),
    (1, 3, Some(1)),
    (2, 3, None),
];

#[test]
fn a_part_of_a_history_has_the_objects_of_one_remainder(rt: HostRuntime) -> Result<(), Fail> {
    let history = three_operations(rt.alloc())?;
    let all = OBJECTS;
    for (part, parts, place) in PARTS {
        if part >= parts {
            return Err(Fail::new("a part past the last"));
        }
        let objects = split_share(rt.alloc(), &history, part, parts)?;
        let expected = match place {
            Some(k) => all.get(k),
            None => None,
        };
        assert!(rt; objects.len() == usize::from(expected.is_some()));
        for (object, expected) in objects.iter().zip(expected) {
            assert!(rt; is_object(object, *expected));
        }
    }
    Ok(())
}
