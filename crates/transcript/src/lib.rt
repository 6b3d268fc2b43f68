//! What a record says: its history, its certificates, and the text of its history.
#![tactic(auto)]

mod accounts;
mod laws;
mod line;
mod text;

pub use accounts::{Account, account_of, certificates, check_record, history};
pub use laws::{sound_record_is_accepted, written_history_denotes};
pub use text::write_history;
