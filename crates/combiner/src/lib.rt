//! Combining: one pass over the rows of a desk, and calls that wait for their answers.
//!
//! The client that wins an object serves the requests for it in the listed rows. Hendler, Incze,
//! Shavit, Tzafrir, "Flat Combining and the Synchronization-Parallelism Tradeoff", SPAA 2010.
#![tactic(auto)]

mod passes;
mod waiting;

pub use passes::{Combined, combine};
pub use waiting::{CallFault, call, wait_for};
