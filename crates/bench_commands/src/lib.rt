//! The commands of the bench: `run` and `simulate`, and those on a history that the bench has too.
#![tactic(auto)]

mod check_bytes;
mod program;
mod reporting;
mod running;
mod simulating;

pub use command_line::{Line, LineFault, RunOptions, line};
pub use file_commands::{In, NamedFile, Status, WhichSource};
pub use program::{perform, perform_over};
