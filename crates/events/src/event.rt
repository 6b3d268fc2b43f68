//! Client events.

use seq_objects::{AnyOp, AnyReply};

/// What a client event says about its process.
#[derive(Clone, Copy, Debug, PartialEq, Eq)]
pub enum Action {
    /// The process invokes this operation.
    Invoke(AnyOp),
    /// Its operation returned this reply.
    Ok(AnyReply),
    /// Its operation did not happen.
    Fail,
    /// Its operation may have happened. The process does nothing more.
    Info,
}

/// An event of a client: an invocation, or the completion of the operation that is outstanding.
#[derive(Clone, Copy, Debug, PartialEq, Eq)]
pub struct Event {
    /// The place among all maps of the history's text, from 0.
    pub number: u32,
    pub object: u32,
    pub process: u64,
    pub action: Action,
}
