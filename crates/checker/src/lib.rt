//! Checks whether an order of an object's operations is valid, or names its first fault.
#![tactic(auto)]

mod all;
mod laws;
mod object;
mod place;
mod refusal;
mod walk;

pub use all::{certificate_places, check_all, check_object_at, strange_object};
pub use laws::{one_first_fault, one_first_refusal};
pub use object::check_object;
pub use refusal::{OrderFault, Refusal};
pub use walk::check_order;
