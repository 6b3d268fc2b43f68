//! The world of flat combining as plain data: what the logs of objects, the requests and answers of
//! clients, and their journals say. The initial world, the transitions and the invariant are in
//! `specs/`; that each transition keeps the invariant is proved in `proofs/`.
//!
//! After Hendler, Incze, Shavit, Tzafrir, "Flat Combining and the Synchronization-Parallelism
//! Tradeoff", SPAA 2010.
#![tactic(auto)]

mod laws;

pub use laws::{
    coming_keeps_soundness, initial_world_is_sound, record_is_sound, sound_record_is_linearizable,
    transitions_keep_soundness,
};

/// What the log of an object says about one operation: its client, the ticket of its invocation,
/// the operation, and its reply.
#[derive(Clone, Copy, Debug, PartialEq, Eq)]
pub struct LogEntry<O, R> {
    pub client: u32,
    pub ticket: u64,
    pub op: O,
    pub reply: R,
}

/// A call that has its ticket: the object that it is for, and the operation.
#[derive(Clone, Copy, Debug, PartialEq, Eq)]
pub struct Request<O> {
    pub object: u32,
    pub ticket: u64,
    pub op: O,
}

/// The answer to a call: the reply, or that an allocation failed for it.
#[derive(Clone, Copy, Debug, PartialEq, Eq)]
pub enum Answer<R> {
    Reply(R),
    Refused,
}

/// What a journal of a client says about one ticket.
#[derive(Clone, Copy, Debug, PartialEq, Eq)]
pub enum JournalEvent<O, R> {
    Invoked { ticket: u64, object: u32, op: O },
    Returned { ticket: u64, answer: Answer<R> },
}

/// A call that is over: its request, its answer, and the ticket of its return.
#[derive(Clone, Copy, Debug, PartialEq, Eq)]
pub struct DoneCall<O, R> {
    pub request: Request<O>,
    pub answer: Answer<R>,
    pub returned: u64,
}
