//! What the desk's table holds, and what a client knows of it.

use atomic_table::TableRule;
use desk_model::{Answer, DoneCall, JournalEvent, LogEntry, Request};
use model::{AnyOp, AnyReply, Kind};
use publication_list::{SharedRoster, SharedWalker};
use seq_objects::SeqObject;
use std::collections::LinkedList;
use std::marker::Model;

/// An object with its log, how many passes there were, and its publication list.
#[derive(Drop)]
pub struct Core<S, O, R> {
    pub object: S,
    pub log: Vec<LogEntry<O, R>>,
    pub passes: u64,
    pub list: SharedWalker,
    /// Of each row, the pass that last served it or first met it.
    pub ages: [u64; 32],
}

/// A core in a box, so that it moves as one word. Contracts see the core.
#[derive(Drop)]
pub struct BoxedCore<S, O, R> {
    pub inside: Box<Core<S, O, R>>,
}

impl<S, O, R> Model for BoxedCore<S, O, R> {
    ghost use Rattle.desk_invariant.specs.declared.board.Core.{Core};

    ghost Value = { Core S O R };

    ghost view = { λ b. b.inside.value };
}

/// What a client did.
#[derive(Drop)]
pub struct Journal<O, R> {
    pub events: Vec<JournalEvent<O, R>>,
}

#[derive(Drop)]
pub enum Slot<S, O, R> {
    Nothing,
    Core(BoxedCore<S, O, R>),
    Request(Request<O>),
    Answer(Answer<R>),
    Journal(Journal<O, R>),
}

/// A client's own call, as the client knows it.
pub enum Own {
    /// The client's slots are still at home.
    Absent,
    Idle,
    Drawn(Request<AnyOp>),
    Waiting(Request<AnyOp>),
    Taken(Request<AnyOp>, Answer<AnyReply>),
}

/// What a client holds: nothing, an object with this log, or also the request of a row.
pub enum Held {
    Free,
    Pass(u32, LinkedList<LogEntry<AnyOp, AnyReply>>),
    Hand(u32, LinkedList<LogEntry<AnyOp, AnyReply>>, u32, Request<AnyOp>),
}

/// A request that was put back into its row.
pub struct PutBack {
    pub row: u32,
    pub request: Request<AnyOp>,
}

/// The message of a client that has ended: its number and its journal.
pub struct Leaving {
    pub client: u32,
    pub journal: LinkedList<JournalEvent<AnyOp, AnyReply>>,
}

/// Whose view it is.
pub enum Role {
    /// A client's, which has a number.
    Client,
    /// That of the one that makes the clients: those below `made` are made.
    Maker,
    /// A message's, which carries what one client tells another.
    Message,
}

/// What a client knows. No value of it is made.
pub struct DeskView {
    pub role: Role,
    pub number: u32,
    pub made: u32,
    /// The kind of each object.
    pub kinds: LinkedList<Kind>,
    /// Of each object, which roster its publication list is.
    pub lists: LinkedList<SharedRoster>,
    /// The calls that are over.
    pub done: LinkedList<DoneCall<AnyOp, AnyReply>>,
    pub own: Own,
    /// The own row is answered.
    pub ready: bool,
    /// Of each object, by its number, a beginning of its log.
    pub seen: LinkedList<LinkedList<LogEntry<AnyOp, AnyReply>>>,
    /// Of each object, by its number, the beginning of its log that another client's message gave.
    pub received: LinkedList<LinkedList<LogEntry<AnyOp, AnyReply>>>,
    /// The requests that were put back into their rows while the object is held.
    pub back: LinkedList<PutBack>,
    /// The words at which a try missed: a load found nothing to do there, or an exchange found
    /// another value.
    pub missed: LinkedList<u64>,
    /// How many times the client won an object.
    pub won: u64,
    pub held: Held,
    pub ended: bool,
    /// The messages of clients that have ended.
    pub left: LinkedList<Leaving>,
    /// The clients that were found to have ended.
    pub retired: LinkedList<u32>,
    /// The clients whose end word was found unset, one for each such look.
    pub still_there: LinkedList<u32>,
}

/// What the desk is made for: objects of these kinds, with these publication lists, this many
/// clients, and this many calls for each of them.
#[derive(Drop)]
pub struct Plan {
    pub kinds: Vec<Kind>,
    pub lists: Vec<SharedRoster>,
    pub clients: u32,
    pub quota: u32,
}

pub struct DeskRule;

impl<S: SeqObject> TableRule<Slot<S, S::Op, S::Reply>, DeskView, Plan> for DeskRule {
    ghost use Rattle.desk_invariant.specs.Rule.{Kept};
    ghost use Rattle.desk_invariant.specs.Views.{first_maker};

    ghost holds = { λ k. Kept S.content S.op_in S.reply_in k.kinds.items k.clients k.quota };

    ghost first = { λ k. first_maker k.kinds.items k.lists.items };
}
