//! The commands on a history as programs do them: on files as they are read, and on a folder of
//! shards, with the output written at the end; and what programs do with their host. What a command
//! answers is in `history_commands`.
#![tactic(auto)]

mod folders;
mod host;
mod line_fault;
mod on_files;
mod trusting;
mod unread;
mod written;

pub use folders::{
    ShardFault, ShardFile, ShardFileTexts, ShardFiles, SplitEnd, SplitFailure, UnreadShard,
    merge_shards, split_history,
};
pub use history_commands::Status;
pub use host::{
    Host, print_version, report_no_memory, report_no_words, report_refusal, report_unreadable,
    report_unwritten, watched, words_of,
};
pub use on_files::{check_files, perform_on_files, search_file};
pub use reading::{In, NamedFile, ReadFault, WhichSource, read_text};
pub use shards::{Folder, TableFault, counts_in, counts_text, shards_needed};
pub use trusting::{StatusFiles, merge_statuses};
pub use unread::end_unread;
pub use written::write_output;
