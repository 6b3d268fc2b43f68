//! Runs in many threads, whatever the order in which they get on.

ghost use Rattle.std.specs.Prelude.{◌<◌, ◌≤◌};

use clients::{Workload, run_workers, workload};
use model::{AnyOp, AnyReply, Kind};
use publication::{Answer, JournalEvent, LogEntry, Record};
use seq_objects::{AnyObject, Gate, Kinds, Open};
use std::process::Abort;
use std::sync::Wait;
use std::sync::atomic::{AtomicU64, Ordering};
use std::test::Fail;
use std::thread::{Threads, yield_now};

type Event = JournalEvent<AnyOp, AnyReply>;

type Entry = LogEntry<AnyOp, AnyReply>;

/// How long a gate waits, each turn a yield.
const TURNS: u32 = 10_000_000;

/// Holds the first call of each client until all clients are at theirs, and counts what it saw.
#[derive(Drop)]
struct Together {
    clients: u64,
    came: AtomicU64,
    gave_up: AtomicU64,
    before: AtomicU64,
    after: AtomicU64,
}

impl Together {
    fn new(clients: u32) -> Together {
        Together {
            clients: u64::from(clients),
            came: AtomicU64::new(0),
            gave_up: AtomicU64::new(0),
            before: AtomicU64::new(0),
            after: AtomicU64::new(0),
        }
    }

    /// Whether all clients were once before their first calls, and the gate was called around this
    /// many calls.
    fn held(&self, calls: u64) -> bool {
        self.gave_up.load(Ordering::SeqCst) == 0
            && self.before.load(Ordering::SeqCst) == calls
            && self.after.load(Ordering::SeqCst) == calls
    }
}

impl Gate for Together {
    fn before(&self, _client: u32, call: u32) {
        self.before.fetch_add(1, Ordering::SeqCst);
        if call > 0 {
            return;
        }
        self.came.fetch_add(1, Ordering::SeqCst);
        for _ in 0..TURNS {
            if self.came.load(Ordering::SeqCst) >= self.clients {
                return;
            }
            yield_now();
        }
        self.gave_up.fetch_add(1, Ordering::SeqCst);
    }

    fn after(&self, _client: u32, _call: u32) {
        self.after.fetch_add(1, Ordering::SeqCst);
    }
}

/// The call of an invocation.
fn call_of(event: &Event) -> Option<(u32, AnyOp)> {
    match event {
        JournalEvent::Invoked {
            ticket: _,
            object,
            op,
        } => Some((*object, *op)),
        JournalEvent::Returned { .. } => None,
    }
}

/// The ticket of a return with a reply.
fn returned(event: &Event) -> Option<u64> {
    match event {
        JournalEvent::Returned {
            ticket,
            answer: Answer::Reply(_),
        } => Some(*ticket),
        _ => None,
    }
}

/// Whether the events are the invocation of the call, and its return with a reply.
fn are_of(events: &[Event], call: (u32, AnyOp)) -> bool {
    match events {
        [invocation, end] => call_of(invocation) == Some(call) && returned(end).is_some(),
        _ => false,
    }
}

/// Whether the journal has these calls, in order, each answered by a reply.
fn has_made(journal: &[Event], calls: &[(u32, AnyOp)]) -> bool {
    journal.len().div_ceil(2) == calls.len()
        && journal
            .chunks(2)
            .zip(calls)
            .all(|(events, call)| are_of(events, *call))
}

/// How many calls of these clients there are in the record, if each has made all its calls.
fn calls_made(record: &Record<AnyObject>, work: &Workload) -> Option<usize> {
    let mut made = 0usize;
    for client in 0..work.clients() {
        if client as usize >= record.clients() {
            return None;
        }
        let calls = work.calls(client);
        if !has_made(record.journal(client), calls) {
            return None;
        }
        made = made.saturating_add(calls.len());
    }
    Some(made)
}

/// How many entries the logs have.
fn entries(record: &Record<AnyObject>) -> usize {
    let mut entries = 0usize;
    for object in 0..16u32 {
        if (object as usize) < record.objects() {
            entries = entries.saturating_add(record.log(object).len());
        }
    }
    entries
}

/// Whether each client has made all its calls, and the logs have as many.
fn is_whole(record: &Record<AnyObject>, work: &Workload) -> bool {
    record.clients() == work.clients() as usize
        && record.objects() == work.kinds().len()
        && calls_made(record, work) == Some(entries(record))
}

/// Runs this many clients, all of which are before their first calls at once, and checks that they
/// make all their calls.
fn run_together<R: AllocGlobal + Abort + Threads + Wait + Sync>(
    rt: &R,
    kinds: Kinds,
    objects: u32,
    clients: u32,
    calls: u32,
) -> Result<Record<AnyObject>, Fail>
    requires objects { (0 < objects) × (objects ≤ 16) }
    requires clients { (0 < clients) × (clients ≤ 32) }
    requires calls { calls ≤ 10000 }
{
    let work = workload(rt.alloc(), kinds, objects, clients, calls, 7)?;
    let gate = Together::new(clients);
    let record = run_workers(rt, rt.alloc(), &work, &gate)?;
    assert!(rt; is_whole(&record, &work));
    assert!(rt; gate.held(u64::from(clients) * u64::from(calls)));
    Ok(record)
}

/// Two clients of one call each are before their calls at once.
#[test]
fn two_clients_are_before_their_calls_at_once(rt: HostRuntime) -> Result<(), Fail> {
    run_together(&rt, Kinds::One(Kind::Queue), 1, 2, 1)?;
    Ok(())
}

#[test]
fn each_client_makes_its_calls(rt: HostRuntime) -> Result<(), Fail> {
    for kinds in [
        Kinds::One(Kind::Queue),
        Kinds::One(Kind::Stack),
        Kinds::One(Kind::Heap),
        Kinds::One(Kind::Register),
        Kinds::One(Kind::Map),
        Kinds::One(Kind::Mutex),
        Kinds::Mixed,
    ] {
        run_together(&rt, kinds, 6, 5, 20)?;
    }
    Ok(())
}

#[test]
fn thirty_two_clients_make_their_calls(rt: HostRuntime) -> Result<(), Fail> {
    run_together(&rt, Kinds::Mixed, 16, 32, 200)?;
    Ok(())
}

#[test]
fn eight_clients_share_one_mutex(rt: HostRuntime) -> Result<(), Fail> {
    run_together(&rt, Kinds::One(Kind::Mutex), 1, 8, 100)?;
    Ok(())
}

/// A client alone makes the same journal each time.
#[test]
fn one_client_makes_its_calls(rt: HostRuntime) -> Result<(), Fail> {
    let work = workload(rt.alloc(), Kinds::Mixed, 5, 1, 50, 7)?;
    let first = run_workers(&rt, rt.alloc(), &work, &Open)?;
    let second = run_workers(&rt, rt.alloc(), &work, &Open)?;
    assert!(rt; is_whole(&first, &work) && is_whole(&second, &work));
    assert!(rt; first.clients() == 1 && second.clients() == 1);
    assert!(rt; first.journal(0) == second.journal(0));
    Ok(())
}

/// The ticket at which the call with this ticket returned.
fn returned_at(journal: &[Event], invoked: u64) -> Option<u64> {
    let place = journal.iter().position(|event| {
        matches!(event, JournalEvent::Invoked { ticket, .. } if *ticket == invoked)
    })?;
    returned(journal.get(place.checked_add(1)?)?)
}

/// Whether two entries in a row are of two clients, and the second call was invoked before the
/// first returned.
fn is_served_beside(record: &Record<AnyObject>, first: &Entry, second: &Entry) -> bool {
    let client = first.client;
    if client as usize >= record.clients() || client == second.client {
        return false;
    }
    match returned_at(record.journal(client), first.ticket) {
        Some(end) => second.ticket < end,
        None => false,
    }
}

/// At one queue, some passes of four clients serve more than one request: entries of two clients
/// are between two returns.
#[test]
fn passes_serve_calls_of_others(rt: HostRuntime) -> Result<(), Fail> {
    for _ in 0..100 {
        let record = run_together(&rt, Kinds::One(Kind::Queue), 1, 4, 500)?;
        assert_eq!(rt; record.objects(), 1);
        let shared = record
            .log(0)
            .windows(2)
            .filter(|pair| match pair {
                [first, second] => is_served_beside(&record, first, second),
                _ => false,
            })
            .count();
        if shared > 0 {
            return Ok(());
        }
    }
    Err(Fail::new("no pass served another client"))
}
