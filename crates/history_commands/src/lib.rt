//! The commands on a history that start no thread: they search for certificates, verify the history
//! by claims, check reasons why it is not linearizable, or merge what is found of its shards. A
//! command makes an `Output`: a status and lines. The crate also writes certificates as comments.
#![tactic(auto)]

mod answers;
mod comments;
mod finding;
mod lines;
mod merging;
mod object_lines;
mod output;
mod refuting;
mod searching;
mod shard_answer;
mod shard_counts;
mod status;
mod verification;
mod version;

pub use comments::comments_text;
pub use finding::Finding;
pub use lines::{line_with_place, text_with_number};
pub use merging::Merging;
pub use output::{Output, verdict_output, with_verdict};
pub use refuting::{refute, refute_history};
pub use searching::{search, search_history};
pub use shard_answer::ShardNumber;
pub use status::{Status, status_of};
pub use verification::{verify, verify_history};
pub use version::VERSION;
