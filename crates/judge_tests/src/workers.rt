//! Tests that two workers check at once, and that the refusal of the least object is named.

use crate::texts_read::{certificates_of, history_of};
use checker::{OrderFault, Refusal};
use parallel::check_parallel;
use seq_objects::{AnyReply, Gate};
use std::sync::atomic::{AtomicU64, Ordering};
use std::test::Fail;
use std::thread::yield_now;

/// Two queues: on each, a value is taken out and put in by two processes at once.
const TWO_QUEUES: &str = "
    {:process 0, :type :invoke, :f :dequeue, :object 0}
    {:process 1, :type :invoke, :f :dequeue, :object 1}
    {:process 2, :type :invoke, :f :enqueue, :value 7, :object 0}
    {:process 3, :type :invoke, :f :enqueue, :value 8, :object 1}
    {:process 0, :type :ok, :f :dequeue, :value 7, :object 0}
    {:process 1, :type :ok, :f :dequeue, :value 8, :object 1}
    {:process 2, :type :ok, :f :enqueue, :value 7, :object 0}
    {:process 3, :type :ok, :f :enqueue, :value 8, :object 1}";

/// How long a gate waits, each turn a yield.
const TURNS: u32 = 10_000_000;

/// The refusal of a dequeue on object 0 that comes before the enqueue.
const ZERO_GIVES_NIL: Refusal = Refusal::BadOrder {
    object: 0,
    fault: OrderFault::WrongReply {
        op: 0,
        gives: AnyReply::Value(None),
    },
};

/// Valid orders of the two queues.
const VALID: &str = "{:object 1, :order [3 1]} {:object 0, :order [2 0]}";

/// Orders that are both refused.
const REFUSED: &str = "{:object 1, :order [1]} {:object 0, :order [0]}";

/// Waits until n are counted; what waits too long is counted too.
fn wait_for(least: u64, counted: &AtomicU64, gave_up: &AtomicU64) {
    for _ in 0..TURNS {
        if counted.load(Ordering::SeqCst) >= least {
            return;
        }
        yield_now();
    }
    gave_up.fetch_add(1, Ordering::SeqCst);
}

/// Holds the first piece of each of two workers until both are at theirs.
#[derive(Drop)]
struct Together {
    came: AtomicU64,
    gave_up: AtomicU64,
}

impl Gate for Together {
    fn before(&self, _worker: u32, _piece: u32) {
        self.came.fetch_add(1, Ordering::SeqCst);
        wait_for(2, &self.came, &self.gave_up);
    }

    fn after(&self, _worker: u32, _piece: u32) {}
}

#[test]
fn two_workers_work_at_once(rt: HostRuntime) -> Result<(), Fail> {
    let history = history_of(rt.alloc(), TWO_QUEUES)?;
    let certificates = certificates_of(rt.alloc(), VALID)?;
    let gate = Together {
        came: AtomicU64::new(0),
        gave_up: AtomicU64::new(0),
    };
    let given = check_parallel(&rt, rt.alloc(), &history, &certificates, 2, &gate);
    assert!(rt; given == Ok(()));
    assert!(rt; gate.came.load(Ordering::SeqCst) == 2);
    assert!(rt; gate.gave_up.load(Ordering::SeqCst) == 0);
    Ok(())
}

/// Holds the first piece until the second has been checked.
#[derive(Drop)]
struct SecondFirst {
    checked: AtomicU64,
    gave_up: AtomicU64,
}

impl Gate for SecondFirst {
    fn before(&self, _worker: u32, piece: u32) {
        if piece == 0 {
            wait_for(1, &self.checked, &self.gave_up);
        }
    }

    fn after(&self, worker: u32, piece: u32) {
        if worker == 1 && piece == 1 {
            self.checked.fetch_add(1, Ordering::SeqCst);
        }
    }
}

/// The fault that is found first in time is not that of the least object.
#[test]
fn the_refusal_of_the_least_object_is_named(rt: HostRuntime) -> Result<(), Fail> {
    let history = history_of(rt.alloc(), TWO_QUEUES)?;
    let certificates = certificates_of(rt.alloc(), REFUSED)?;
    let gate = SecondFirst {
        checked: AtomicU64::new(0),
        gave_up: AtomicU64::new(0),
    };
    let given = check_parallel(&rt, rt.alloc(), &history, &certificates, 2, &gate);
    assert!(rt; given == Err(ZERO_GIVES_NIL));
    assert!(rt; gate.gave_up.load(Ordering::SeqCst) == 0);
    Ok(())
}
