//! From forms to a schedule.

ghost use Rattle.std.specs.Prelude.{◌≡◌, ◌≢◌, ℕ, List, Some, None, IfOk, IfErr, map};
ghost use Rattle.edn_reader.specs.View.{views};
ghost use Rattle.simulation.specs.Schedules as spec;
ghost use Rattle.simulation.specs.Schedules.{Denotes, AnyStep, IsWithin};
ghost use Rattle.simulation.specs.Faults.{IsFirstFault, StepFaultIs};
ghost use Rattle.simulation.specs.declared.header.Header.{Header};

use crate::fault::{ScheduleFault, ScheduleFaultKind};
use crate::header::{Header, header_of};
use crate::step::step_of;
use edn::Form;
use machine::Step;
use model::AnyOp;
use std::alloc::Global;

/// The header of a schedule, and the steps of its clients.
#[derive(Drop)]
pub struct Schedule {
    pub header: Header,
    pub steps: Vec<(u32, Step<AnyOp>)>,
}

/// The steps that the forms are, which come after a header.
fn read_steps(alloc: Global, forms: &[Form]) -> Result<Vec<(u32, Step<AnyOp>)>, ScheduleFault>
    ensures steps { IfOk result (λ v. map spec.step_of (views forms.now)
        ≡ map (λ s. Some s) v.items) }
    ensures fault { IfErr result (λ e. StepFaultIs (views forms.now) e.kind e.form) }
{
    let mut steps = Vec::new(alloc);
    for (place, form) in forms.iter().enumerate() {
        let Some(step) = step_of(form) else {
            return Err(ScheduleFault {
                kind: ScheduleFaultKind::NotAStep,
                form: place + 1,
            });
        };
        let Ok(()) = steps.push(step) else {
            return Err(ScheduleFault {
                kind: ScheduleFaultKind::NoMemory,
                form: place + 1,
            });
        };
    }
    Ok(steps)
}

/// Reads the forms as a schedule: a header, and then a step for each further form. The fault is
/// that of the first faulty form; an allocation failure comes only if nothing is wrong up to and
/// including a form.
pub fn read_schedule(alloc: Global, forms: &[Form]) -> Result<Schedule, ScheduleFault>
    ensures denotes { IfOk result (λ s. Denotes (views forms.now) s.header s.steps.items) }
    // What the header asks for is within the bounds of a machine.
    ensures within { IfOk result (λ s. IsWithin s.header) }
    ensures fault { IfErr result (IsFirstFault (views forms.now)) }
    // Forms that denote a schedule are refused for an allocation failure alone.
    ensures refused { IfErr result (λ e. e.kind ≢ ScheduleFaultKind.NoMemory →
        (h : Header) (steps : List (ℕ × AnyStep)) → Denotes (views forms.now) h steps → ⊥) }
{
    let Some((first, rest)) = forms.split_first() else {
        return Err(ScheduleFault {
            kind: ScheduleFaultKind::NoHeader,
            form: 0,
        });
    };
    let Some(header) = header_of(first) else {
        return Err(ScheduleFault {
            kind: ScheduleFaultKind::NoHeader,
            form: 0,
        });
    };
    match read_steps(alloc, rest) {
        Ok(steps) => Ok(Schedule { header, steps }),
        Err(fault) => Err(fault),
    }
}
