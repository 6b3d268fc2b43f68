//! The publication list of flat combining: which rows a combiner looks at.
//!
//! The owner of a row puts it in front of the list. A combiner walks the list, and takes rows out.
//! Hendler, Incze, Shavit, Tzafrir, "Flat Combining and the Synchronization-Parallelism Tradeoff",
//! SPAA 2010.
#![tactic(auto)]

mod list_table;
mod place;
mod plays;
mod roster;
mod shared;
mod walker;

pub use list_table::Enlist;
pub use place::Place;
pub use roster::Roster;
pub use shared::{SharedPlace, SharedRoster, SharedWalker};
pub use walker::Walker;
