//! The operations of one object.

ghost use Rattle.std.specs.Prelude.{◌≡◌, ◌≢◌, MatchBool};

use seq_objects::{AnyOp, AnyReply, Kind};
use std::marker::Model;

/// How an operation ended.
#[derive(Clone, Copy, Debug, PartialEq, Eq)]
pub enum End {
    /// It returned: the number of the response, and the reply.
    Returned { at: u32, reply: AnyReply },
    /// Nothing is known of it: it may have happened or not.
    Pending,
    /// It did not happen.
    Failed,
}

fn is_same(left: AnyReply, right: AnyReply) -> bool
    ensures { MatchBool result (left ≡ right) (left ≢ right) }
{
    left == right
}

impl End {
    ghost use Rattle.std.specs.Prelude.{is_some};
    ghost use Rattle.events.specs.Operations.{return_of, Agrees, ReplyDiffers};

    /// Whether the operation returned.
    pub fn has_returned(&self) -> bool
        ensures { result ≡ is_some (return_of self.now) }
    {
        matches!(self, End::Returned { .. })
    }

    /// Whether it returned with another reply than `gives`.
    pub fn differs(&self, gives: AnyReply) -> bool
        ensures { MatchBool result (ReplyDiffers (return_of self.now) gives)
            (Agrees (return_of self.now) gives) }
    {
        match self {
            End::Returned { reply, .. } => !is_same(*reply, gives),
            _ => false,
        }
    }
}

/// An operation of an object, with the number of its invocation.
#[derive(Clone, Copy, Debug, PartialEq, Eq)]
pub struct Operation {
    pub number: u32,
    pub op: AnyOp,
    pub end: End,
}

/// The operations of one object of a history, in the order of their invocations, which is that of
/// their numbers.
#[derive(Debug, Drop)]
pub struct ObjectHistory {
    object: u32,
    kind: Kind,
    ops: Vec<Operation>,
}

impl Model for ObjectHistory {
    ghost use Rattle.events.specs.Operations.{ObjectCalls, IsObjectHistory};

    ghost Value = { ObjectCalls };

    ghost view = { λ h. record { object = h.object; kind = h.kind; ops = h.ops.items } };

    ghost invariant = { λ h. IsObjectHistory
        (record { object = h.object; kind = h.kind; ops = h.ops.items }) };
}

impl ObjectHistory {
    ghost use Rattle.events.specs.Operations.{IsObjectHistory};

    pub fn new(object: u32, kind: Kind, ops: Vec<Operation>) -> ObjectHistory
        requires { IsObjectHistory (record { object = object; kind = kind; ops = ops.items }) }
        ensures { result ≡ record { object = object; kind = kind; ops = ops.items } }
    {
        ObjectHistory { object, kind, ops }
    }

    pub fn object(&self) -> u32
        ensures { result ≡ self.now.object }
    {
        self.object
    }

    pub fn kind(&self) -> Kind
        ensures { result ≡ self.now.kind }
    {
        self.kind
    }

    /// The operations, failed ones too.
    pub fn ops(&self) -> &[Operation]
        ensures ops { result.now ≡ self.now.ops }
        ensures kept { IsObjectHistory self.now }
    {
        self.ops.as_slice()
    }
}
