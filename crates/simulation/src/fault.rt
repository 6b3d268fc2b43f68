//! What is wrong with a schedule.

ghost use Rattle.std.specs.Prelude.{◌≡◌};

/// What is wrong with a form.
#[derive(Clone, Copy, Debug, PartialEq, Eq)]
pub enum ScheduleFaultKind {
    /// S1: the header is missing, or not as it should be.
    NoHeader,
    /// S2: it is no step.
    NotAStep,
    /// An allocation failed at this form, in which nothing is wrong.
    NoMemory,
}

impl ScheduleFaultKind {
    ghost use Rattle.simulation.specs.Faults.{schedule_fault_number};

    /// The number after the letter S. An allocation failure is never printed.
    pub fn number(self) -> u8
        ensures { result ≡ schedule_fault_number self }
    {
        match self {
            ScheduleFaultKind::NoHeader => 1,
            ScheduleFaultKind::NotAStep => 2,
            ScheduleFaultKind::NoMemory => 3,
        }
    }
}

/// A fault, and the number of its form, from 0.
#[derive(Clone, Copy, Debug, PartialEq, Eq)]
pub struct ScheduleFault {
    pub kind: ScheduleFaultKind,
    pub form: usize,
}
