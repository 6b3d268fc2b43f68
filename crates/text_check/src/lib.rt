//! The check of a history by certificates: reads both texts, in memory or from sources, has
//! `checker` check the orders, and returns a verdict.
#![tactic(auto)]

mod check;
mod decision;
mod laws;

pub use check::{ToolFault, WhichText, check_over};
pub use decision::{check_alone, judge};
pub use laws::valid_certificates_suffice;
