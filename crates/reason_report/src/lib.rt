//! The lines that explain why an object has no valid order: the operations of a part, and the
//! reason as text. The lines of verdicts are in `report`.
#![tactic(auto)]

mod operations;
mod reasons;
mod segments;

pub use operations::push_operations;
pub use reasons::push_reason;
