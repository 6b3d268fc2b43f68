//! A desk whose clients make the calls of a workload.

ghost use Rattle.std.specs.Prelude.{◌≡◌, ◌<◌, ◌≤◌, [], length, map, All, IfOk, IfErr, OnErr};
ghost use Rattle.std.specs.Prelude.{vec_capacity};
ghost use Rattle.model.specs.Objects.{empty, kind_with};
ghost use Rattle.clients.specs.Made.{HasWorked, IsNew, IsDeskFor, IsDone, ClosedBy, IsRunRecord};
ghost use Rattle.clients.specs.Made.{HaveTold, AreNew};

use crate::Workload;
use crate::log_room::reserve_logs;
use crate::meeting::meet_and_retire;
use crate::worker::work;
use model::Kind;
use publication::{Client, Desk, Record};
use seq_objects::{AnyObject, Gate, SeqObject};
use std::alloc::{AllocError, Global};
use std::sync::Wait;
use std::thread::{self, Promise, PromisedHandle, SpawnError, Threads};

/// Why there is no record.
#[derive(Clone, Copy, Debug, PartialEq, Eq)]
pub enum RunFault {
    /// F1: an allocation failed, before any call.
    NoMemory,
    /// F2: a thread could not be started. The threads that were started have ended.
    NoThread,
}

impl From<AllocError> for RunFault {
    ghost use Rattle.clients.specs.declared.run.RunFault.TheVariants.{NoMemory};

    ghost from_gives = { λ _ e. e ≡ NoMemory };

    fn from(_refused: AllocError) -> RunFault {
        RunFault::NoMemory
    }
}

impl<F: Drop> From<SpawnError<F>> for RunFault {
    ghost use Rattle.clients.specs.declared.run.RunFault.TheVariants.{NoThread};

    ghost from_gives = { λ _ e. e ≡ NoThread };

    fn from(_refused: SpawnError<F>) -> RunFault {
        RunFault::NoThread
    }
}

/// The client of this desk with this number has made its calls of the workload.
#[derive(Drop)]
struct WorkerOf<'a>(&'a Desk<AnyObject>, &'a Workload, u32);

impl<'a> Promise<Client<AnyObject>> for WorkerOf<'a> {
    ghost use Rattle.clients.specs.Made.{HasWorked};

    ghost kept_by = { λ p client. HasWorked p.0.now p.1.now p.2 client };
}

/// Makes the calls of the workload on a new desk, and closes it. Before the first call it makes
/// room in the log of each object for all calls on it, so that no pass allocates memory for a log;
/// no clause says that the room is kept. Client 0 runs in the calling thread, and each other in a
/// thread of its own; then client 0 meets each other on each object. If an allocation fails in a
/// client's call, the client stops, and the call is pending in the record. `IsRunRecord` lets a
/// client stop at any call. The gate is called around each call.
pub fn run_workers<R: Threads + Wait + Sync, G: Gate>(
    rt: &R,
    alloc: Global,
    workload: &Workload,
    gate: &G,
) -> Result<Record<AnyObject>, RunFault>
    ensures ran { IfOk result (IsRunRecord workload.now) }
    // No thread is started for a client alone.
    ensures alone { IfErr result (λ e. e ≡ RunFault.NoThread → 1 < length workload.now.calls) }
{
    let objects = empty_objects(alloc, workload.kinds())?;
    let (desk, clients) = Desk::new(alloc, objects, workload.clients(), workload.quota())?;
    let clients = reserve_logs(&desk, workload, clients)?;
    let threads = Vec::with_capacity(alloc, clients.len())?;
    let last = run_all(rt, gate, &desk, workload, clients, threads)?;
    Ok(close(desk, last))
}

type Worker<'a> = PromisedHandle<Client<AnyObject>, WorkerOf<'a>>;

/// Runs the clients of a new desk, and returns client 0, which has met the others. There is room
/// for their threads.
fn run_all<'a, R: Threads + Wait + Sync, G: Gate>(
    rt: &R,
    gate: &G,
    desk: &'a Desk<AnyObject>,
    workload: &'a Workload,
    mut clients: Vec<Client<AnyObject>>,
    mut workers: Vec<Worker<'a>>,
) -> Result<Client<AnyObject>, RunFault>
    requires desk { IsDeskFor desk.now workload.now }
    requires clients { (length clients.items ≡ length workload.now.calls)
        × AreNew desk.now.id clients.items }
    requires room { (workers.items ≡ []) × (length clients.items ≤ vec_capacity workers) }
    ensures done { IfOk result (IsDone desk.now workload.now) }
    ensures alone { OnErr result (1 < length workload.now.calls) }
{
    thread::scope(
        thread::scope_env(),
        rt,
        |scope| -> Result<Client<AnyObject>, RunFault>
            requires { IsDeskFor desk.now workload.now
                × (length clients.items ≡ length workload.now.calls)
                × AreNew desk.now.id clients.items × (workers.items ≡ [])
                × (length clients.items ≤ vec_capacity workers) }
            ensures { IfOk result (IsDone desk.entry.now workload.entry.now)
                × OnErr result (1 < length workload.entry.now.calls) }
        {
            for _ in 1..workload.clients() {
                let Some(client) = clients.pop() else {
                    unreachable!()
                };
                let number = client.number();
                let worker = scope.spawn_with(
                    WorkerOf(desk, workload, number),
                    || -> Client<AnyObject>
                        requires { IsNew desk.now workload.now client }
                        ensures { HasWorked desk.entry.now workload.entry.now client.knows.number
                            result }
                    { work(rt, gate, desk, workload, client) },
                )?;
                workers.push_reserved(worker);
            }
            let Some(own) = clients.pop() else {
                unreachable!()
            };
            let mut own = work(rt, gate, desk, workload, own);
            for _ in 1..workload.clients() {
                let Some(worker) = workers.pop() else {
                    unreachable!()
                };
                own = meet_and_retire(desk, own, worker.join(rt));
            }
            Ok(own)
        },
    )
}

/// Closes the desk with its last client, once the others have retired.
fn close(desk: Desk<AnyObject>, last: Client<AnyObject>) -> Record<AnyObject>
    requires desk { last.desk ≡ desk.id }
    requires told { HaveTold desk last }
    ensures { ClosedBy desk last result }
{
    match desk.close(last) {
        Ok(record) => record,
        Err(_) => unreachable!(),
    }
}

/// An object of each kind that contains nothing.
fn empty_objects(alloc: Global, kinds: &[Kind]) -> Result<Vec<AnyObject>, AllocError>
    ensures kinds { IfOk result (λ v.
        map (λ o. kind_with (⟦<AnyObject as SeqObject>⟧.content o)) v.items ≡ kinds.now) }
    ensures empty { IfOk result (λ v.
        All (λ o. ⟦<AnyObject as SeqObject>⟧.content o
        ≡ empty (kind_with (⟦<AnyObject as SeqObject>⟧.content o))) v.items) }
{
    let mut objects = Vec::new(alloc);
    for kind in kinds {
        objects.push(AnyObject::empty(alloc, *kind))?;
    }
    Ok(objects)
}
