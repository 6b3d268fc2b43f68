//! Registers.

ghost use Rattle.std.specs.Prelude.{◌≡◌};
ghost use Rattle.model.specs.Objects.{empty, kind_of};

use crate::object::SeqObject;
use model::{AnyOp, AnyReply, Kind};
use std::alloc::{AllocError, Global};
use std::marker::Model;

/// An operation of a register.
#[derive(Clone, Copy, Debug, PartialEq, Eq)]
pub enum RegisterOp {
    Write(i64),
    Read,
    /// Writes the new value if the register contains the expected one.
    Cas { expected: i64, new: i64 },
    /// Leaves nothing.
    Clear,
    /// Writes the value if the register contains nothing.
    Create(i64),
}

impl RegisterOp {
    ghost use Rattle.seq_objects.specs.Operations.{register_op};

    /// The operation of all kinds as one of a register.
    pub(crate) fn from_any(op: &AnyOp) -> RegisterOp
        requires { kind_of op.now ≡ Kind.Register }
        ensures { register_op result ≡ op.now }
    {
        match *op {
            AnyOp::Write(v) => RegisterOp::Write(v),
            AnyOp::Read => RegisterOp::Read,
            AnyOp::Cas(expected, new) => RegisterOp::Cas { expected, new },
            AnyOp::Clear => RegisterOp::Clear,
            AnyOp::Create(v) => RegisterOp::Create(v),
            _ => unreachable!(),
        }
    }
}

/// The reply of a register.
#[derive(Clone, Copy, Debug, PartialEq, Eq)]
pub enum RegisterReply {
    /// The value that was written or read; none if nothing is there.
    Value(Option<i64>),
    Swapped { expected: i64, new: i64 },
    NotSwapped,
    /// Whether the value was created.
    Created(bool),
}

/// A register, which contains a value or none. It takes no memory.
#[derive(Debug, Drop)]
pub struct Register {
    value: Option<i64>,
}

impl Model for Register {
    ghost use Rattle.std.specs.Prelude.{ℤ, Option};

    ghost Value = { Option ℤ };

    ghost view = { λ r. r.value };
}

impl Register {
    /// A register that contains nothing.
    pub fn new(_alloc: Global) -> Register
        ensures { ⟦<Register as SeqObject>⟧.content result ≡ empty Kind.Register }
    {
        Register { value: None }
    }
}

impl SeqObject for Register {
    ghost use Rattle.model.specs.Objects.{register};
    ghost use Rattle.seq_objects.specs.Operations.{register_op, register_reply};

    type Op = RegisterOp;

    type Reply = RegisterReply;

    ghost content = { register };

    ghost op_in = { register_op };

    ghost reply_in = { register_reply };

    fn kind(&self) -> Kind {
        Kind::Register
    }

    fn kind_of(_op: &RegisterOp) -> Kind {
        Kind::Register
    }

    fn possible(&self, _op: &RegisterOp) -> bool {
        true
    }

    fn apply(&mut self, op: &RegisterOp) -> Result<RegisterReply, AllocError> {
        match *op {
            RegisterOp::Write(v) => {
                self.value = Some(v);
                Ok(RegisterReply::Value(Some(v)))
            }
            RegisterOp::Read => Ok(RegisterReply::Value(self.value)),
            RegisterOp::Cas { expected, new } => {
                if self.value == Some(expected) {
                    self.value = Some(new);
                    Ok(RegisterReply::Swapped { expected, new })
                } else {
                    Ok(RegisterReply::NotSwapped)
                }
            }
            RegisterOp::Clear => {
                self.value = None;
                Ok(RegisterReply::Value(None))
            }
            RegisterOp::Create(v) => match self.value {
                Some(_) => Ok(RegisterReply::Created(false)),
                None => {
                    self.value = Some(v);
                    Ok(RegisterReply::Created(true))
                }
            },
        }
    }

    fn try_copy(&self) -> Result<Register, AllocError> {
        Ok(Register { value: self.value })
    }

    fn same(&self, other: &Register) -> bool {
        self.value == other.value
    }

    fn any_op(op: &RegisterOp) -> AnyOp {
        match *op {
            RegisterOp::Write(v) => AnyOp::Write(v),
            RegisterOp::Read => AnyOp::Read,
            RegisterOp::Cas { expected, new } => AnyOp::Cas(expected, new),
            RegisterOp::Clear => AnyOp::Clear,
            RegisterOp::Create(v) => AnyOp::Create(v),
        }
    }

    fn any_reply(reply: &RegisterReply) -> AnyReply {
        match *reply {
            RegisterReply::Value(v) => AnyReply::Value(v),
            RegisterReply::Swapped { expected, new } => AnyReply::Swapped(expected, new),
            RegisterReply::NotSwapped => AnyReply::NotSwapped,
            RegisterReply::Created(so) => AnyReply::Flag(so),
        }
    }

    ghost use Rattle.std.proofs.Common.{rules};

    ghost ops_apart = { Prim.search rules };

    ghost replies_apart = { Prim.search rules };
}
