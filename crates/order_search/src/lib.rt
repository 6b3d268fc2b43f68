//! The bounded search for a valid order of the operations of one object, or for the answer that
//! there is none.
//!
//! It is the search of Wing and Gong, "Testing and Verifying Concurrent Objects", Journal of
//! Parallel and Distributed Computing 17, 1993: depth first, over objects whose operations can be
//! undone.
#![tactic(auto)]

mod dead;
mod digest;
mod kept;
mod kinds;
mod level;
mod not_done;
mod order_search;
mod pairs;
mod reversible;
mod step;
mod trials;
mod walk;

pub use kept::KeptContent;
pub use order_search::{OrderOutcome, OrderSearch, find_order, find_order_of_any_size};
pub use reversible::Reversible;
pub use step::{Step, Undo};
pub use trials::{TryFirst, call_count};
