//! Verdicts of a check, the counts of a history, and their lines. The lines that explain why an
//! object has no valid order are in `reason_report`.
#![tactic(auto)]

mod checked;
mod counting;
mod lines;
mod segments;
mod verdict;
mod writing;

pub use checked::verdict_on_check;
pub use counting::summary;
pub use reading::Fault;
pub use verdict::{KindCount, Summary, Verdict};
pub use writing::write_verdict;
