//! A run: clients make calls on objects, and what they did is judged.

ghost use Rattle.std.specs.Prelude.{◌≡◌, ◌<◌, IfOk, IfErr};
ghost use Rattle.bench_commands.specs.Runs.{IsRunResult, work_of};
ghost use Rattle.clients.specs.Made.{IsRunRecord};

use crate::reporting::record_output;
use clients::{RunFault, run_workers, workload};
use command_line::RunOptions;
use history_commands::{Output, Status};
use recorder::Record;
use seq_objects::{AnyObject, Open};
use std::alloc::{AllocError, Global};
use std::sync::Wait;
use std::thread::Threads;

/// What the clients did, each in a thread of its own.
fn record_of<R: Threads + Wait + Sync>(
    rt: &R,
    alloc: Global,
    options: RunOptions,
) -> Result<Record<AnyObject>, RunFault>
    ensures ran { IfOk result (IsRunRecord (work_of options)) }
    // A client alone needs no thread.
    ensures alone { IfErr result (λ e. e ≡ RunFault.NoThread → 1 < options.clients) }
{
    let workload = workload(
        alloc,
        options.kinds,
        options.objects,
        options.clients,
        options.calls,
        options.seed,
    )?;
    run_workers(rt, alloc, &workload, &Open)
}

/// Runs the clients: what they did, and the verdict on it.
pub(crate) fn run<R: Threads + Wait + Sync>(
    rt: &R,
    alloc: Global,
    options: RunOptions,
) -> Result<Output, AllocError>
    ensures { IfOk result (λ o. IsRunResult options o.status o.text.items) }
{
    match record_of(rt, alloc, options) {
        Ok(record) => record_output(alloc, &record, b""),
        Err(RunFault::NoMemory) => Err(AllocError),
        Err(RunFault::NoThread) => Ok(Output {
            status: Status::NoThread,
            text: Vec::from_slice(alloc, b"no thread\n")?,
        }),
    }
}
