//! Each object's operations gathered, and all certificates checked, by several workers, each in a
//! thread of its own.
#![tactic(auto)]

mod gathering;
mod share;
mod workers;

pub use workers::check_parallel;
