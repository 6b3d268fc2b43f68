//! Queues.

ghost use Rattle.std.specs.Prelude.{◌≡◌};
ghost use Rattle.model.specs.Objects.{empty, kind_of};

use crate::object::SeqObject;
use model::{AnyOp, AnyReply, Kind};
use std::alloc::{AllocError, Global};
use std::collections::VecDeque;
use std::marker::Model;

/// An operation of a queue.
#[derive(Clone, Copy, Debug, PartialEq, Eq)]
pub enum QueueOp {
    Enqueue(i64),
    Dequeue,
}

impl QueueOp {
    ghost use Rattle.seq_objects.specs.Operations.{queue_op};

    /// The operation of all kinds as one of a queue.
    pub(crate) fn from_any(op: &AnyOp) -> QueueOp
        requires { kind_of op.now ≡ Kind.Queue }
        ensures { queue_op result ≡ op.now }
    {
        match *op {
            AnyOp::Enqueue(v) => QueueOp::Enqueue(v),
            AnyOp::Dequeue => QueueOp::Dequeue,
            _ => unreachable!(),
        }
    }
}

/// A queue, in a ring. Each operation takes constant time, except when the ring grows. The
/// reply is the value that went in or out.
#[derive(Debug, Drop)]
pub struct Queue {
    values: VecDeque<i64>,
}

impl Model for Queue {
    ghost use Rattle.std.specs.Prelude.{ℤ, List};

    ghost Value = { List ℤ };

    ghost view = { λ q. q.values.items };
}

impl Queue {
    /// An empty queue. It takes no memory.
    pub fn new(alloc: Global) -> Queue
        ensures { ⟦<Queue as SeqObject>⟧.content result ≡ empty Kind.Queue }
    {
        Queue {
            values: VecDeque::new(alloc),
        }
    }
}

impl SeqObject for Queue {
    ghost use Rattle.model.specs.Objects.{queue};
    ghost use Rattle.model.specs.declared.AnyReply.TheVariants.{Value};
    ghost use Rattle.seq_objects.specs.Operations.{queue_op};

    type Op = QueueOp;

    type Reply = Option<i64>;

    ghost content = { queue };

    ghost op_in = { queue_op };

    ghost reply_in = { Value };

    fn kind(&self) -> Kind {
        Kind::Queue
    }

    fn kind_of(_op: &QueueOp) -> Kind {
        Kind::Queue
    }

    fn possible(&self, _op: &QueueOp) -> bool {
        true
    }

    fn apply(&mut self, op: &QueueOp) -> Result<Option<i64>, AllocError> {
        match *op {
            QueueOp::Enqueue(v) => {
                self.values.push_back(v)?;
                Ok(Some(v))
            }
            QueueOp::Dequeue => Ok(self.values.pop_front()),
        }
    }

    fn try_copy(&self) -> Result<Queue, AllocError> {
        Ok(Queue {
            values: self.values.clone()?,
        })
    }

    fn same(&self, other: &Queue) -> bool {
        self.values == other.values
    }

    fn any_op(op: &QueueOp) -> AnyOp {
        match *op {
            QueueOp::Enqueue(v) => AnyOp::Enqueue(v),
            QueueOp::Dequeue => AnyOp::Dequeue,
        }
    }

    fn any_reply(reply: &Option<i64>) -> AnyReply {
        AnyReply::Value(*reply)
    }

    ghost use Rattle.std.proofs.Common.{rules};

    ghost ops_apart = { Prim.search rules };

    ghost replies_apart = { Prim.search rules };
}
