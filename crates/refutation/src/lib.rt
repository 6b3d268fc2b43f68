//! Refutations: small reasons why no order of an object's operations is valid, from any source, as
//! text and in memory, and their check.
//!
//! The text of a reason is one map, as
//! `{:object 0, :cuts [{:until 120} {:keep [1 2], :numbers [4 7]}]}`.
#![tactic(auto)]

mod all;
mod basis;
mod cut;
mod fault;
mod laws;
mod reader;
mod reason;
mod refuting;
mod sets;
mod text_reader;
mod writer;

pub use all::refute_all;
pub use fault::{ReasonFault, ReasonFaultKind, ReasonTextFault};
pub use laws::{
    listed_is_not_linearizable, one_named_part, part_alone_is_not_linearizable,
    part_is_not_linearizable,
};
pub use reader::{read_reasons, reason_in};
pub use reason::{Basis, Reason, Trial};
pub use refuting::{ReasonAnswer, WhyNotShown, refute};
pub use text_reader::read_reasons_text;
pub use writer::reason_lines;
