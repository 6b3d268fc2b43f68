//! Stacks.

ghost use Rattle.std.specs.Prelude.{◌≡◌};
ghost use Rattle.model.specs.Objects.{empty, kind_of};

use crate::object::SeqObject;
use model::{AnyOp, AnyReply, Kind};
use std::alloc::{AllocError, Global};
use std::marker::Model;

/// An operation of a stack.
#[derive(Clone, Copy, Debug, PartialEq, Eq)]
pub enum StackOp {
    Push(i64),
    Pop,
}

impl StackOp {
    ghost use Rattle.seq_objects.specs.Operations.{stack_op};

    /// The operation of all kinds as one of a stack.
    pub(crate) fn from_any(op: &AnyOp) -> StackOp
        requires { kind_of op.now ≡ Kind.Stack }
        ensures { stack_op result ≡ op.now }
    {
        match *op {
            AnyOp::Push(v) => StackOp::Push(v),
            AnyOp::Pop => StackOp::Pop,
            _ => unreachable!(),
        }
    }
}

/// A stack. Each operation takes constant time, except when it grows. The reply is the value that
/// went on top or came off.
#[derive(Debug, Drop)]
pub struct Stack {
    // from the bottom on
    values: Vec<i64>,
}

impl Model for Stack {
    ghost use Rattle.std.specs.Prelude.{ℤ, List, reverse};

    ghost Value = { List ℤ };

    ghost view = { λ s. reverse s.values.items };
}

impl Stack {
    /// An empty stack. It takes no memory.
    pub fn new(alloc: Global) -> Stack
        ensures { ⟦<Stack as SeqObject>⟧.content result ≡ empty Kind.Stack }
    {
        Stack {
            values: Vec::new(alloc),
        }
    }
}

impl SeqObject for Stack {
    ghost use Rattle.model.specs.Objects.{stack};
    ghost use Rattle.model.specs.declared.AnyReply.TheVariants.{Value};
    ghost use Rattle.seq_objects.specs.Operations.{stack_op};

    type Op = StackOp;

    type Reply = Option<i64>;

    ghost content = { stack };

    ghost op_in = { stack_op };

    ghost reply_in = { Value };

    fn kind(&self) -> Kind {
        Kind::Stack
    }

    fn kind_of(_op: &StackOp) -> Kind {
        Kind::Stack
    }

    fn possible(&self, _op: &StackOp) -> bool {
        true
    }

    fn apply(&mut self, op: &StackOp) -> Result<Option<i64>, AllocError> {
        match *op {
            StackOp::Push(v) => {
                self.values.push(v)?;
                Ok(Some(v))
            }
            StackOp::Pop => Ok(self.values.pop()),
        }
    }

    fn try_copy(&self) -> Result<Stack, AllocError> {
        Ok(Stack {
            values: self.values.clone()?,
        })
    }

    fn same(&self, other: &Stack) -> bool {
        self.values == other.values
    }

    fn any_op(op: &StackOp) -> AnyOp {
        match *op {
            StackOp::Push(v) => AnyOp::Push(v),
            StackOp::Pop => AnyOp::Pop,
        }
    }

    fn any_reply(reply: &Option<i64>) -> AnyReply {
        AnyReply::Value(*reply)
    }

    ghost use Rattle.std.proofs.Common.{rules};

    ghost ops_apart = { Prim.search rules };

    ghost replies_apart = { Prim.search rules };
}
