//! Counters.

ghost use Rattle.std.specs.Prelude.{◌≡◌};
ghost use Rattle.model.specs.Objects.{empty, kind_of};

use crate::object::SeqObject;
use model::{AnyOp, AnyReply, Kind};
use std::alloc::{AllocError, Global};
use std::marker::Model;

/// An operation of a counter. An addition whose sum is not an integer of 64 bits is not possible.
#[derive(Clone, Copy, Debug, PartialEq, Eq)]
pub enum CounterOp {
    FetchAdd(i64),
    GetCount,
}

impl CounterOp {
    ghost use Rattle.seq_objects.specs.Operations.{counter_op};

    /// The operation of all kinds as one of a counter.
    pub(crate) fn from_any(op: &AnyOp) -> CounterOp
        requires { kind_of op.now ≡ Kind.Counter }
        ensures { counter_op result ≡ op.now }
    {
        match *op {
            AnyOp::FetchAdd(n) => CounterOp::FetchAdd(n),
            AnyOp::GetCount => CounterOp::GetCount,
            _ => unreachable!(),
        }
    }
}

/// A counter. It allocates nothing. The reply of each operation is the number before it.
#[derive(Debug, Drop)]
pub struct Counter {
    count: i64,
}

impl Model for Counter {
    ghost use Rattle.std.specs.Prelude.{ℤ};

    ghost Value = { ℤ };

    ghost view = { λ c. c.count };
}

impl Counter {
    /// A counter at 0.
    pub fn new(_alloc: Global) -> Counter
        ensures { ⟦<Counter as SeqObject>⟧.content result ≡ empty Kind.Counter }
    {
        Counter { count: 0 }
    }
}

impl SeqObject for Counter {
    ghost use Rattle.std.specs.Prelude.{Some};
    ghost use Rattle.model.specs.Objects.{count};
    ghost use Rattle.model.specs.declared.AnyReply.TheVariants.{Value};
    ghost use Rattle.seq_objects.specs.Operations.{counter_op};

    type Op = CounterOp;

    type Reply = i64;

    ghost content = { count };

    ghost op_in = { counter_op };

    ghost reply_in = { λ n. Value (Some n) };

    fn kind(&self) -> Kind {
        Kind::Counter
    }

    fn kind_of(_op: &CounterOp) -> Kind {
        Kind::Counter
    }

    fn possible(&self, op: &CounterOp) -> bool {
        match *op {
            CounterOp::FetchAdd(n) => self.count.checked_add(n).is_some(),
            CounterOp::GetCount => true,
        }
    }

    fn apply(&mut self, op: &CounterOp) -> Result<i64, AllocError> {
        let before = self.count;
        match *op {
            // The sum does not overflow: the operation is possible, by the `requires` of `apply`.
            CounterOp::FetchAdd(n) => self.count = before + n,
            CounterOp::GetCount => {}
        }
        Ok(before)
    }

    fn try_copy(&self) -> Result<Counter, AllocError> {
        Ok(Counter { count: self.count })
    }

    fn same(&self, other: &Counter) -> bool {
        self.count == other.count
    }

    fn any_op(op: &CounterOp) -> AnyOp {
        match *op {
            CounterOp::FetchAdd(n) => AnyOp::FetchAdd(n),
            CounterOp::GetCount => AnyOp::GetCount,
        }
    }

    fn any_reply(reply: &i64) -> AnyReply {
        AnyReply::Value(Some(*reply))
    }

    ghost use Rattle.std.proofs.Common.{rules};

    ghost ops_apart = { Prim.search rules };

    ghost replies_apart = { Prim.search rules };
}
