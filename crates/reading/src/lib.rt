//! Reads what the crates above judge: bytes from sources and files, and from them the history and
//! the certificates that a text denotes, or its first fault.
#![tactic(auto)]

mod by_workers;
mod certificate_text;
mod from_source;
mod history_text;
mod named_file;
mod text_failure;
mod text_laws;
mod two_texts;

pub use by_workers::{MAX_WORKERS, history_of_text_by_workers};
pub use certificate_text::certificates_of_text;
pub use edn::{In, Source};
pub use from_source::{READ_LIMIT, ReadFault, read_text};
pub use history_text::history_of_text;
pub use named_file::NamedFile;
pub use text_failure::{Fault, TextFailure};
pub use text_laws::{one_history, one_list_of_orders};
pub use two_texts::{UnreadSource, WhichSource, read_history_and_text};
