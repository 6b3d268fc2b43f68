//! What clients did: a journal for each client, and a log for each object.
#![tactic(auto)]

mod laws;
mod record;
mod serving;

pub use desk_model::{Answer, JournalEvent, LogEntry};
pub use laws::{one_history, sound_record_is_a_record};
pub use record::Record;
pub use serving::serve;
