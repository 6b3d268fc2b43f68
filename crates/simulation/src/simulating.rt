//! From the text of a schedule to a record.

ghost use Rattle.std.specs.Prelude.{◌≡◌, ◌≢◌, ℕ, List, IfErr, IfOk};
ghost use Rattle.simulation.specs.Schedules.{AnyStep, IsWithin};
ghost use Rattle.simulation.specs.declared.header.Header.{Header};
ghost use Rattle.edn_reader.specs.Sound.{IsShort};
ghost use Rattle.simulation.specs.Simulations.{DenotesSchedule, IsOfSteps, IsSimulated};
ghost use Rattle.simulation.specs.Simulations.{IsSimulationFault, IsScheduleTextFault, IsFormFault};

use crate::playing::{PlayFault, Played, play};
use crate::{Schedule, ScheduleFault, ScheduleFaultKind, read_schedule};
use edn::{EdnFault, FaultKind, read_forms};
use std::alloc::Global;

/// Why there is no record of a schedule's text.
#[derive(Clone, Copy, Debug, PartialEq, Eq)]
pub enum SimulationFault {
    /// The text spells no forms, or is too long.
    Text(EdnFault),
    /// The forms denote no schedule.
    Form(ScheduleFault),
    /// This client has not ended, and each before it has.
    NotEnded(u32),
    NoMemory,
}

/// What is wrong if this fault of the text was found.
fn text_fault(fault: EdnFault) -> SimulationFault
    ensures { IsScheduleTextFault fault result }
{
    match fault.kind {
        FaultKind::NoMemory => SimulationFault::NoMemory,
        _ => SimulationFault::Text(fault),
    }
}

/// What is wrong if this fault of the forms was found.
fn form_fault(fault: ScheduleFault) -> SimulationFault
    ensures { IsFormFault fault result }
{
    match fault.kind {
        ScheduleFaultKind::NoMemory => SimulationFault::NoMemory,
        _ => SimulationFault::Form(fault),
    }
}

/// The schedule that the text denotes.
fn schedule_in(alloc: Global, text: &[u8]) -> Result<Schedule, SimulationFault>
    ensures denotes { IfOk result (λ s. DenotesSchedule text.now s.header s.steps.items) }
    ensures within { IfOk result (λ s. IsWithin s.header) }
    ensures short { IfOk result (λ _. IsShort text.now) }
    ensures fault { IfErr result (IsSimulationFault text.now) }
    ensures accepts { IfErr result (λ f. (h : Header) (steps : List (ℕ × AnyStep)) →
        DenotesSchedule text.now h steps → IsShort text.now → IsOfSteps f) }
{
    let forms = match read_forms(alloc, text) {
        Ok(forms) => forms,
        Err(fault) => return Err(text_fault(fault)),
    };
    match read_schedule(alloc, &forms) {
        Ok(schedule) => Ok(schedule),
        Err(fault) => Err(form_fault(fault)),
    }
}

/// Plays the schedule that the text denotes: a machine of its own takes the steps, and its record
/// is returned once all clients have ended.
pub fn simulate(alloc: Global, text: &[u8]) -> Result<Played, SimulationFault>
    ensures simulated { IfOk result (λ p. IsSimulated text.now p.refused p.record) }
    ensures short { IfOk result (λ _. IsShort text.now) }
    ensures fault { IfErr result (IsSimulationFault text.now) }
    // A text that denotes a schedule is refused for an allocation failure, or for its steps, alone.
    ensures accepts { IfErr result (λ f. (h : Header) (steps : List (ℕ × AnyStep)) →
        DenotesSchedule text.now h steps → IsShort text.now → IsOfSteps f) }
{
    let schedule = schedule_in(alloc, text)?;
    match play(alloc, &schedule) {
        Ok(played) => Ok(played),
        Err(PlayFault::NotEnded(client)) => Err(SimulationFault::NotEnded(client)),
        Err(PlayFault::NoMemory) => Err(SimulationFault::NoMemory),
    }
}
