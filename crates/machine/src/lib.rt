//! The pure machine of flat combining: one caller takes the steps of all clients, in any order, and
//! each step is one transition of the world.
//!
//! After Hendler, Incze, Shavit, Tzafrir, "Flat Combining and the Synchronization-Parallelism
//! Tradeoff", SPAA 2010.
#![tactic(auto)]

mod machine;
mod many_steps;
mod new_machine;
mod object_steps;
mod queries;
mod row_steps;
mod step;

pub use machine::Machine;
pub use many_steps::{NoMemoryAt, Ran};
pub use step::{Outcome, Step, StepFault};
