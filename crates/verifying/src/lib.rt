//! A decision on each object of a history by claims: an order that was checked, a reason that was
//! checked, or the answer of the bounded search for which a claim asks. Claims are read from a
//! text, and nothing is assumed of them.
#![tactic(auto)]

mod all;
mod claim;
mod decision;
mod fault;
mod note;
mod object;
mod reader;
mod text_reader;

pub use all::decide_by_claims;
pub use claim::Claim;
pub use decision::{Decision, ShownReason};
pub use fault::{ClaimFault, ClaimFaultKind, ClaimTextFault};
pub use reader::read_claims;
pub use text_reader::read_claims_text;
