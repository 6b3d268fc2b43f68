//! The results of schedules: random ones, and texts.

ghost use Rattle.std.specs.Prelude.{◌<◌, ◌≤◌};
ghost use Rattle.simulation.specs.Schedules.{IsWithin};

use edn::{EdnFault, FaultKind};
use machine::Step;
use model::{AnyOp, Kind};
use seq_objects::Kinds;
use simulation::{
    Header, PlayFault, Played, Schedule, ScheduleFault, ScheduleFaultKind, SimulationFault,
    machine_of, play, simulate,
};
use std::alloc::{AllocError, Global};
use std::process::Abort;
use std::test::Fail;
use transcript::check_record;

/// Repeatable numbers, by a linear congruence.
#[derive(Drop)]
struct Numbers {
    state: u64,
}

impl Numbers {
    fn below(&mut self, limit: u64) -> u64
        requires { 0 < limit }
        ensures { result < limit }
    {
        self.state = self
            .state
            .wrapping_mul(6_364_136_223_846_793_005)
            .wrapping_add(1_442_695_040_888_963_407);
        (self.state >> 33) % limit
    }
}

const fn op_of(choice: u64, a: i64, b: i64) -> AnyOp {
    match choice {
        0 => AnyOp::Enqueue(a),
        1 => AnyOp::Dequeue,
        2 => AnyOp::Push(a),
        3 => AnyOp::Pop,
        4 => AnyOp::Insert(a),
        5 => AnyOp::ExtractMin,
        6 => AnyOp::Write(a),
        7 => AnyOp::Read,
        8 => AnyOp::Cas(a, b),
        9 => AnyOp::Put(a, b),
        10 => AnyOp::Get(a),
        11 => AnyOp::Del(a),
        12 => AnyOp::Acquire,
        _ => AnyOp::Release,
    }
}

/// A number up to this one, the lower ones more often.
fn mostly_low(numbers: &mut Numbers, most: u32) -> u32
    ensures { result ≤ most }
{
    let limit = 1 + numbers.below(u64::from(most) + 1);
    numbers.below(limit) as u32
}

/// A step, possible or not: objects and rows are those that there are, and one more.
fn any_step(numbers: &mut Numbers, objects: u32, clients: u32) -> Step<AnyOp> {
    let object = mostly_low(numbers, objects);
    let op = op_of(
        numbers.below(14),
        numbers.below(4) as i64,
        numbers.below(4) as i64,
    );
    match numbers.below(16) {
        0 | 1 | 2 | 3 => Step::Draw(Some((object, op))),
        4 => Step::Draw(None),
        5 | 6 => Step::Post,
        7 | 8 => Step::Win(object),
        9 | 10 => Step::Pick(mostly_low(numbers, clients)),
        11 | 12 => Step::Answer,
        13 => Step::PutBack,
        14 => Step::Take,
        _ => Step::Release,
    }
}

/// Each client in turn goes on until it may end, and ends.
fn end_all(steps: &mut Vec<(u32, Step<AnyOp>)>, clients: u32) -> Result<(), AllocError> {
    for client in 0..clients {
        steps.push((client, Step::Post))?;
        steps.push((client, Step::Answer))?;
        steps.push((client, Step::PutBack))?;
        steps.push((client, Step::Release))?;
        steps.push((client, Step::Take))?;
        steps.push((client, Step::Draw(None)))?;
        steps.push((client, Step::End))?;
    }
    Ok(())
}

/// One client serves the rows on this object, each step after the other.
fn serve(
    steps: &mut Vec<(u32, Step<AnyOp>)>,
    server: u32,
    object: u32,
    clients: u32,
) -> Result<(), AllocError> {
    steps.push((server, Step::Win(object)))?;
    for row in 0..clients {
        steps.push((server, Step::Pick(row)))?;
        steps.push((server, Step::Answer))?;
        steps.push((server, Step::PutBack))?;
    }
    steps.push((server, Step::Release))?;
    Ok(())
}

/// 300 random steps, then all end. Every third client has ended before with this call outstanding,
/// if there is one.
fn random_steps(
    alloc: Global,
    numbers: &mut Numbers,
    objects: u32,
    clients: u32,
    abandoned: Option<AnyOp>,
) -> Result<Vec<(u32, Step<AnyOp>)>, AllocError>
    requires { 0 < clients }
{
    let mut steps = Vec::new(alloc);
    for client in 0..clients {
        if let Some(op) = abandoned
            && client % 3 == 0
        {
            steps.push((client, Step::Draw(Some((0, op)))))?;
            steps.push((client, Step::Post))?;
            steps.push((client, Step::End))?;
        }
    }
    for _ in 0..300 {
        let client = numbers.below(u64::from(clients)) as u32;
        steps.push((client, any_step(numbers, objects, clients)))?;
    }
    serve(&mut steps, clients - 1, 0, clients)?;
    end_all(&mut steps, clients)?;
    Ok(steps)
}

fn kinds_at(choice: u64) -> (Kinds, AnyOp) {
    match choice {
        0 => (Kinds::One(Kind::Queue), AnyOp::Dequeue),
        1 => (Kinds::One(Kind::Stack), AnyOp::Push(7)),
        2 => (Kinds::One(Kind::Heap), AnyOp::Insert(7)),
        3 => (Kinds::One(Kind::Register), AnyOp::Read),
        4 => (Kinds::One(Kind::Map), AnyOp::Get(1)),
        5 => (Kinds::One(Kind::Mutex), AnyOp::Acquire),
        _ => (Kinds::Mixed, AnyOp::Enqueue(7)),
    }
}

/// Whether some request is put back in the course of the steps.
fn puts_back(alloc: Global, schedule: &Schedule) -> Result<bool, AllocError>
    requires { IsWithin schedule.now.header }
{
    let mut machine = machine_of(alloc, &schedule.header)?;
    let mut found = false;
    for (client, step) in &schedule.steps {
        let is_taken = machine.step(*client, *step).is_ok();
        found |= is_taken && matches!(step, Step::PutBack);
    }
    Ok(found)
}

/// Each record of a list of random steps is accepted. In half of the runs a third of the clients
/// have ended with a call outstanding, and in some of all runs a request is put back.
#[test]
fn random_runs_are_accepted(rt: HostRuntime) -> Result<(), Fail> {
    let mut numbers = Numbers { state: 14 };
    let mut is_put_back = false;
    for run in 0..400 {
        let (kinds, op) = kinds_at(numbers.below(7));
        let objects = 1 + numbers.below(16) as u32;
        let clients = 1 + numbers.below(32) as u32;
        let abandoned = if run % 2 == 1 { Some(op) } else { None };
        let steps = random_steps(rt.alloc(), &mut numbers, objects, clients, abandoned)?;
        let header = Header {
            kinds,
            objects,
            clients,
            quota: 20,
        };
        let schedule = Schedule { header, steps };
        is_put_back |= puts_back(rt.alloc(), &schedule)?;
        let Ok(Played { record, .. }) = play(rt.alloc(), &schedule) else {
            return Err(Fail::new("there is no record"));
        };
        assert!(rt; check_record(rt.alloc(), &record) == Ok(()));
    }
    assert!(rt; is_put_back);
    Ok(())
}

#[test]
fn a_client_has_not_ended(rt: HostRuntime) -> Result<(), Fail> {
    let mut steps = Vec::new(rt.alloc());
    steps.push((0, Step::End))?;
    let header = Header {
        kinds: Kinds::Mixed,
        objects: 6,
        clients: 3,
        quota: 0,
    };
    let Err(fault) = play(rt.alloc(), &Schedule { header, steps }) else {
        return Err(Fail::new("two clients have not ended"));
    };
    assert_eq!(rt; fault, PlayFault::NotEnded(1));
    Ok(())
}

/// Two clients post, one of them serves both and ends; the other has ended before it takes its
/// answer.
const SERVED: &str = "{:kind :queue, :objects 1, :clients 2, :quota 1}
{:client 0, :step :draw, :f :enqueue, :value 1, :object 0}
{:client 1, :step :draw, :f :enqueue, :value 2, :object 0}
{:client 0, :step :post} {:client 1, :step :post}
{:client 1, :step :win, :object 0}
{:client 1, :step :pick, :row 0} {:client 1, :step :answer}
{:client 1, :step :pick, :row 1} {:client 1, :step :answer}
{:client 1, :step :release} {:client 1, :step :take} {:client 1, :step :draw}
{:client 0, :step :end} {:client 1, :step :end}";

#[test]
fn a_text_is_played(rt: HostRuntime) -> Result<(), Fail> {
    let Ok(Played { record, refused }) = simulate(rt.alloc(), SERVED.as_bytes()) else {
        return Err(Fail::new("there is no record"));
    };
    assert_eq!(rt; refused, 0);
    assert_eq!(rt; (record.clients(), record.objects()), (2, 1));
    assert_eq!(rt; (record.journal(0).len(), record.journal(1).len()), (1, 2));
    assert_eq!(rt; record.log(0).len(), 2);
    Ok(())
}

#[test]
fn texts_that_have_no_record(rt: HostRuntime) -> Result<(), Fail> {
    let alloc = rt.alloc();
    assert!(rt;
        matches!(
            simulate(alloc, b"{:kind :queue 007"),
            Err(SimulationFault::Text(EdnFault {
                kind: FaultKind::BadToken,
                place: 14,
            }))
        )
    );
    assert!(rt;
        matches!(
            simulate(alloc, b""),
            Err(SimulationFault::Form(ScheduleFault {
                kind: ScheduleFaultKind::NoHeader,
                form: 0,
            }))
        )
    );
    let header = b"{:kind :mixed, :objects 6, :clients 3, :quota 0} {:client 0, :step :end}";
    assert!(rt; matches!(simulate(alloc, header), Err(SimulationFault::NotEnded(1))));
    Ok(())
}
