//! Tests of the public calls of `search`, of the claims on a history, of the merge of its shards,
//! and of the library as programs use it. They are in a crate of their own, so that each of these
//! libraries is proved once, and not again for its tests. What the commands reach is tested on the
//! built program.
#![tactic(auto)]

#[cfg(test)]
mod api;
#[cfg(test)]
mod claimed;
#[cfg(test)]
mod merging;
#[cfg(test)]
mod searching;
