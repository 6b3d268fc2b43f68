//! The command that plays a schedule.

ghost use Rattle.std.specs.Prelude.{◌≡◌, IfOk};
ghost use Rattle.bench_commands.specs.Runs.{IsReported, journals_of, logs_of};
ghost use Rattle.bench_commands.specs.Simulated as spec;
ghost use Rattle.bench_commands.specs.Simulated.{IsSimulation};

use crate::reporting::record_output;
use history_commands::{Output, Status, line_with_place, text_with_number};
use simulation::{Played, SimulationFault, simulate};
use std::alloc::{AllocError, Global};

/// The line that says why there is no record. An error: an allocation failed.
fn fault_line(alloc: Global, fault: SimulationFault) -> Result<Vec<u8>, AllocError>
    ensures { IfOk result (λ v. v.items ≡ spec.simulation_fault_line fault) }
{
    match fault {
        SimulationFault::Text(e) => line_with_place(
            alloc,
            b"malformed schedule: E",
            e.kind.number(),
            b" at byte ",
            e.place,
        ),
        SimulationFault::Form(f) => line_with_place(
            alloc,
            b"malformed schedule: S",
            f.kind.number(),
            b" at form ",
            f.form,
        ),
        SimulationFault::NotEnded(client) => text_with_number(
            alloc,
            b"client ",
            u64::from(client),
            b" has not ended\n",
        ),
        SimulationFault::NoMemory => Err(AllocError),
    }
}

/// The record, and how many steps were refused.
fn played_output(alloc: Global, played: &Played) -> Result<Output, AllocError>
    ensures { IfOk result (λ o.
        IsReported (journals_of played.now.record) (logs_of played.now.record)
        (spec.refused_line played.now.refused) o.status o.text.items) }
{
    let line = text_with_number(alloc, b"; refused steps: ", played.refused as u64, b"\n")?;
    record_output(alloc, &played.record, &line)
}

/// Plays the schedule in the text.
pub(crate) fn play(alloc: Global, text: &[u8]) -> Result<Output, AllocError>
    ensures { IfOk result (λ o. IsSimulation text.now o.status o.text.items) }
{
    match simulate(alloc, text) {
        Ok(played) => played_output(alloc, &played),
        Err(fault) => Ok(Output {
            status: Status::Malformed,
            text: fault_line(alloc, fault)?,
        }),
    }
}
