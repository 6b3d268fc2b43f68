//! The bounded search for certificates: for one object, and for each object of a history, or the
//! answer that no order is valid.
#![tactic(auto)]

mod all;
mod certificate_search;
mod object;

pub use all::{search_all, search_all_by};
pub use certificate_search::{CertificateOutcome, Search};
pub use object::{search, search_by};
