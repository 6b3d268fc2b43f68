//! A desk: sequential objects served to many threads by flat combining, with one log for each
//! object. The list of the rows that a combiner looks at is in `publication_list`.
//!
//! A client posts a call in its row and polls for the answer. A client that wins an object may
//! serve the requests of the rows for it. No function waits: none takes a handle, and each ends.
//! Between `win` and `release` the client holds the object, and `win` of another client returns
//! `Held`. Hendler, Incze, Shavit, Tzafrir, "Flat Combining and the Synchronization-Parallelism
//! Tradeoff", SPAA 2010.
#![tactic(auto)]

mod client;
mod closing;
mod desk;
mod list_walk;
mod meeting;
mod new_desk;
mod one_try;
mod pass;
mod plays;

pub use client::{Client, Hand, Pass};
pub use closing::{Retired, Unretired};
pub use desk::{Desk, Picked, Post, Win};
pub use desk_model::Request;
pub use publication_list::{Enlist, Place, Roster, Walker};
pub use recorder::{Answer, JournalEvent, LogEntry, Record};
