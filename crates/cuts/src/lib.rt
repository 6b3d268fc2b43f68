//! Parts of an object's history that have a valid order if the whole has one, so that a small
//! part can show that no order of the whole is valid.
#![tactic(auto)]

mod absent;
mod blocking;
mod cells;
mod counting;
mod cutting;
mod keeping;
mod kinds;
mod laws;
mod prefix;
mod suffix;
mod touches;

pub use blocking::is_blocked;
pub use counting::{Count, Counted, is_overdrawn};
pub use cutting::{Cut, part_by};
pub use keeping::Values;
pub use laws::{
    ahead_is_bounded, cell_is_valid, count_is_bounded, entry_is_valid, listed_is_valid, one_part,
    prefix_is_valid, projection_is_valid, suffix_is_valid, without_is_valid,
};
