//! Two thousand calls of 32 clients on 16 objects, on one thread, drawn from one seed.

use crate::bench::{Bench, Closing, Setup};
use crate::steps::NOTHING;
use crate::steps::Step::{Combines, Enlists, FindsNone, Meets, Polls, Posts, Waits};
use publication::Enlist;
use rand_core::utils::NextWord;
use rand_pcg::Lcg64Xsh32;
use seq_objects::{AnyOp, Kind};
use std::sync::Wait;
use std::test::Fail;
use transcript::check_record;

/// The last object is a mutex.
const SIXTEEN: Setup = Setup {
    kinds: &[
        Kind::Queue,
        Kind::Stack,
        Kind::Heap,
        Kind::Register,
        Kind::Map,
        Kind::Queue,
        Kind::Stack,
        Kind::Heap,
        Kind::Register,
        Kind::Set,
        Kind::Queue,
        Kind::Stack,
        Kind::Heap,
        Kind::Register,
        Kind::Counter,
        Kind::Mutex,
    ],
    left: None,
    clients: 32,
    quota: 1_000,
};

/// An operation of the object's kind, of which there are three at most.
fn op_of(object: u32, which: u32, n: i64) -> AnyOp {
    let ops = match SIXTEEN.kinds[(object % 16) as usize] {
        Kind::Queue => [AnyOp::Enqueue(n), AnyOp::Dequeue, AnyOp::Dequeue],
        Kind::Stack => [AnyOp::Push(n), AnyOp::Pop, AnyOp::Pop],
        Kind::Heap => [AnyOp::Insert(n), AnyOp::ExtractMin, AnyOp::ExtractMin],
        Kind::Register => [AnyOp::Write(n), AnyOp::Cas(n, 3), AnyOp::Read],
        Kind::Map => [AnyOp::Put(n, 5), AnyOp::Del(n), AnyOp::Get(n)],
        Kind::Set => [AnyOp::Add(n), AnyOp::Remove(n), AnyOp::Has(n)],
        Kind::Counter => [AnyOp::FetchAdd(n), AnyOp::GetCount, AnyOp::GetCount],
        Kind::Lock => [AnyOp::LockBy(n), AnyOp::UnlockBy(n), AnyOp::UnlockBy(n)],
        Kind::Mutex if n < 4 => [AnyOp::Acquire, AnyOp::Acquire, AnyOp::Acquire],
        Kind::Mutex => [AnyOp::Release, AnyOp::Release, AnyOp::Release],
    };
    ops[(which % 3) as usize]
}

/// What was done so far.
#[derive(Drop)]
struct Done {
    calls: u32,
    meetings: u32,
    retired: u32,
}

/// One turn of a client, which meets another one, or retires, or polls, posts a call if it can,
/// and takes a third step. Client 0 does not retire.
fn act<R: Wait>(rt: &R, bench: &mut Bench, words: &mut Lcg64Xsh32, number: u64, done: &mut Done) {
    let choice = words.next_word() % 32;
    let object = words.next_word() % 16;
    let row = words.next_word() % 32;
    let op = op_of(object, row, i64::from(words.next_word() % 8));
    if choice == 31 {
        let is_met = bench.step_on(rt, object, &(number, Meets(number ^ 1)));
        done.meetings = done.meetings.saturating_add(u32::from(is_met));
    } else if choice == 30 && number > 0 && done.calls / 200 > done.retired {
        done.retired = done.retired.saturating_add(u32::from(bench.retire(number)));
    } else {
        let _ = bench.step_on(rt, object, &(number, Polls(NOTHING)));
        let is_posted = bench.step_on(rt, object, &(number, Posts(object, op)));
        done.calls = done.calls.saturating_add(u32::from(is_posted));
        let third = match choice % 4 {
            0 => Enlists(Enlist::Listed),
            1 => FindsNone(object, row),
            2 => Combines(1, 1),
            _ => Waits(true),
        };
        let _ = bench.step_on(rt, object, &(number, third));
    }
}

/// The clients take their turns, until there are 2,000 calls.
fn act_all<R: Wait>(rt: &R, bench: &mut Bench) -> Done {
    let mut words = Lcg64Xsh32::new(15, 0);
    let mut done = Done {
        calls: 0,
        meetings: 0,
        retired: 0,
    };
    for turn in 0..100_000u64 {
        if done.calls == 2_000 {
            break;
        }
        act(rt, bench, &mut words, turn % 32, &mut done);
    }
    done
}

#[test]
fn two_thousand_calls_are_recorded(rt: HostRuntime) -> Result<(), Fail> {
    let mut bench = Bench::new(rt.alloc(), &SIXTEEN)?;
    let Done {
        calls,
        meetings,
        retired,
    } = act_all(&rt, &mut bench);
    assert!(rt; calls == 2_000 && meetings > 100 && retired > 4);
    for number in 1..32 {
        let _ = bench.retire(number);
    }
    let Closing::Closed(record) = bench.close(0) else {
        panic!(&rt; "a client has not retired")
    };
    assert!(rt; check_record(rt.alloc(), &record).is_ok());
    Ok(())
}
