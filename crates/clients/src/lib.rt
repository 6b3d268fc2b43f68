//! The clients of a desk, each in a thread of its own, which make the calls of a workload; and
//! workloads, drawn from a seed, so that the same words give the same calls. Callers of the library
//! in other languages are in the folder `callers`.
#![tactic(auto)]

mod call_numbers;
mod calls;
mod kinds;
mod log_room;
mod meeting;
mod run;
mod seeded_workload;
mod worker;
mod workloads;

pub use run::{RunFault, run_workers};
pub use seeded_workload::workload;
pub use workloads::Workload;
