//! Schedules, the steps of clients of a machine as a text has them, and what they lead to: the
//! machine that a schedule asks for takes its steps, and returns its record.
#![tactic(auto)]

mod fault;
mod header;
mod playing;
mod reader;
mod simulating;
mod step;

pub use fault::{ScheduleFault, ScheduleFaultKind};
pub use header::Header;
pub use playing::{PlayFault, Played, machine_of, play};
pub use reader::{Schedule, read_schedule};
pub use simulating::{SimulationFault, simulate};
