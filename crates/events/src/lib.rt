//! Histories as lists of client events, and the operations of each object in them.
#![tactic(auto)]

mod by_object;
mod event;
mod history;
mod operations;

pub use by_object::{split, split_share};
pub use event::{Action, Event};
pub use history::History;
pub use operations::{End, ObjectHistory, Operation};
