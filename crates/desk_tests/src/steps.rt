//! Steps of a machine, in an order that the test says.

ghost use Rattle.std.specs.Prelude.{◌≡◌, ◌<◌, length, IfOk};
ghost use Rattle.machine.specs.Machines.{clients_of};

use machine::{Machine, NoMemoryAt, Outcome, Ran, Step, StepFault};
use model::{AnyOp, AnyReply, Kind};
use recorder::{Answer, JournalEvent, LogEntry};
use seq_objects::AnyObject;
use std::alloc::{AllocError, Global};
use std::process::Abort;
use std::test::Fail;

type AnyStep = Step<AnyOp>;

/// A machine of one object.
fn machine_for(
    alloc: Global,
    kind: Kind,
    clients: u32,
    quota: u32,
) -> Result<Machine<AnyObject>, AllocError>
    requires clients { (0 < clients) × (clients < 33) }
    requires quota { quota < 10001 }
    ensures { IfOk result (λ m. (length m.kinds ≡ 1) × (clients_of m ≡ clients)) }
{
    let mut objects = Vec::new(alloc);
    objects.push(AnyObject::empty(alloc, kind))?;
    Machine::new(alloc, objects, clients, quota)
}

/// Takes the steps, and says how many were passed over.
fn run<R: Abort>(rt: &R, machine: &mut Machine<AnyObject>, steps: &[(u32, AnyStep)]) -> usize
    ensures kinds { machine.new.kinds ≡ machine.old.kinds }
    ensures clients { clients_of machine.new ≡ clients_of machine.old }
{
    match machine.run(steps) {
        Ok(Ran { refused }) => refused,
        Err(NoMemoryAt { .. }) => panic!(rt; "an allocation failed"),
    }
}

const fn draw(op: AnyOp) -> AnyStep {
    Step::Draw(Some((0, op)))
}

const fn entry(client: u32, ticket: u64, op: AnyOp, reply: AnyReply) -> LogEntry<AnyOp, AnyReply> {
    LogEntry {
        client,
        ticket,
        op,
        reply,
    }
}

/// One client serves both; the other ends with its call answered, and its return is never drawn.
#[test]
fn an_ended_client_is_served(rt: HostRuntime) -> Result<(), Fail> {
    let mut machine = machine_for(rt.alloc(), Kind::Queue, 2, 1)?;
    let steps = [
        (0, draw(AnyOp::Enqueue(1))),
        (1, draw(AnyOp::Enqueue(2))),
        (0, Step::Post),
        (1, Step::Post),
        (1, Step::Win(0)),
        (1, Step::Pick(0)),
        (1, Step::Answer),
        (1, Step::Pick(1)),
        (1, Step::Answer),
        (1, Step::Release),
        (1, Step::Take),
        (1, Step::Draw(None)),
        (0, Step::End),
        (1, Step::End),
    ];
    assert_eq!(rt; run(&rt, &mut machine, &steps), 0);
    let Ok(record) = machine.finish() else {
        return Err(Fail::new("a client has not ended"));
    };
    let log = [
        entry(0, 0, AnyOp::Enqueue(1), AnyReply::Value(Some(1))),
        entry(1, 1, AnyOp::Enqueue(2), AnyReply::Value(Some(2))),
    ];
    assert!(rt; record.log(0) == log.as_slice());
    let waits = [JournalEvent::Invoked {
        ticket: 0,
        object: 0,
        op: AnyOp::Enqueue(1),
    }];
    assert!(rt; record.journal(0) == waits.as_slice());
    let done = [
        JournalEvent::Invoked {
            ticket: 1,
            object: 0,
            op: AnyOp::Enqueue(2),
        },
        JournalEvent::Returned {
            ticket: 2,
            answer: Answer::Reply(AnyReply::Value(Some(2))),
        },
    ];
    assert!(rt; record.journal(1) == done.as_slice());
    Ok(())
}

/// A step that is not possible is counted; so is one past the last client, object or row.
#[test]
fn impossible_steps_are_counted(rt: HostRuntime) -> Result<(), Fail> {
    let mut machine = machine_for(rt.alloc(), Kind::Queue, 1, 1)?;
    let steps = [
        (0, Step::Post),
        (1, draw(AnyOp::Dequeue)),
        (0, draw(AnyOp::Push(1))),
        (0, Step::Draw(Some((1, AnyOp::Dequeue)))),
        (0, Step::Win(1)),
        (0, Step::Win(0)),
        (0, Step::Pick(1)),
        (0, Step::End),
        (0, Step::Release),
        (0, Step::End),
    ];
    assert_eq!(rt; run(&rt, &mut machine, &steps), 7);
    assert!(rt; machine.finish().is_ok());
    Ok(())
}

/// A mutex that is held can't be acquired: the request goes back, and the least client is there
/// still.
#[test]
fn an_impossible_request_is_put_back(rt: HostRuntime) -> Result<(), Fail> {
    let mut machine = machine_for(rt.alloc(), Kind::Mutex, 2, 2)?;
    let steps = [
        (0, draw(AnyOp::Acquire)),
        (0, Step::Post),
        (1, draw(AnyOp::Acquire)),
        (1, Step::Post),
        (1, Step::Win(0)),
        (1, Step::Pick(0)),
        (1, Step::PutBack),
        (1, Step::Answer),
        (1, Step::Pick(1)),
        (1, Step::Answer),
        (1, Step::PutBack),
        (1, Step::Release),
        (1, Step::End),
    ];
    assert_eq!(rt; run(&rt, &mut machine, &steps), 2);
    assert!(rt; machine.step(0, Step::Draw(None)) == Err(StepFault::NotNow));
    assert!(rt; machine.step(0, Step::Take) == Ok(Outcome::Done));
    let Err((_, client)) = machine.finish() else {
        return Err(Fail::new("client 0 has not ended"));
    };
    assert_eq!(rt; client, 0);
    Ok(())
}
