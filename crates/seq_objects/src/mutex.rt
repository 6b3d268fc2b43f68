//! Mutexes, as objects of one caller at a time.

ghost use Rattle.std.specs.Prelude.{◌≡◌};
ghost use Rattle.model.specs.Objects.{empty, kind_of};

use crate::object::SeqObject;
use model::{AnyOp, AnyReply, Kind};
use std::alloc::{AllocError, Global};
use std::marker::Model;

/// An operation of a mutex: acquire is possible only while it is free, and release only while it is
/// held.
#[derive(Clone, Copy, Debug, PartialEq, Eq)]
pub enum MutexOp {
    Acquire,
    Release,
}

impl MutexOp {
    ghost use Rattle.seq_objects.specs.Operations.{mutex_op};

    /// The operation of all kinds as one of a mutex.
    pub(crate) fn from_any(op: &AnyOp) -> MutexOp
        requires { kind_of op.now ≡ Kind.Mutex }
        ensures { mutex_op result ≡ op.now }
    {
        match *op {
            AnyOp::Acquire => MutexOp::Acquire,
            AnyOp::Release => MutexOp::Release,
            _ => unreachable!(),
        }
    }
}

/// A mutex, which is free or held. It takes no memory.
#[derive(Debug, Drop)]
pub struct Mutex {
    held: bool,
}

impl Model for Mutex {
    ghost use Rattle.std.specs.Prelude.{Bool};

    ghost Value = { Bool };

    ghost view = { λ m. m.held };
}

impl Mutex {
    /// A mutex that is free.
    pub fn new(_alloc: Global) -> Mutex
        ensures { ⟦<Mutex as SeqObject>⟧.content result ≡ empty Kind.Mutex }
    {
        Mutex { held: false }
    }
}

impl SeqObject for Mutex {
    ghost use Rattle.std.specs.Prelude.{None};
    ghost use Rattle.model.specs.Objects.{mutex};
    ghost use Rattle.model.specs.declared.AnyReply.TheVariants.{Value};
    ghost use Rattle.seq_objects.specs.Operations.{mutex_op};

    type Op = MutexOp;

    type Reply = ();

    ghost content = { mutex };

    ghost op_in = { mutex_op };

    ghost reply_in = { λ _. Value None };

    fn kind(&self) -> Kind {
        Kind::Mutex
    }

    fn kind_of(_op: &MutexOp) -> Kind {
        Kind::Mutex
    }

    fn possible(&self, op: &MutexOp) -> bool {
        match op {
            MutexOp::Acquire => !self.held,
            MutexOp::Release => self.held,
        }
    }

    fn apply(&mut self, op: &MutexOp) -> Result<(), AllocError> {
        self.held = match op {
            MutexOp::Acquire => true,
            MutexOp::Release => false,
        };
        Ok(())
    }

    fn try_copy(&self) -> Result<Mutex, AllocError> {
        Ok(Mutex { held: self.held })
    }

    fn same(&self, other: &Mutex) -> bool {
        self.held == other.held
    }

    fn any_op(op: &MutexOp) -> AnyOp {
        match op {
            MutexOp::Acquire => AnyOp::Acquire,
            MutexOp::Release => AnyOp::Release,
        }
    }

    fn any_reply(_reply: &()) -> AnyReply {
        AnyReply::Value(None)
    }

    ghost use Rattle.std.proofs.Common.{rules};

    ghost ops_apart = { Prim.search rules };

    ghost replies_apart = { Prim.search rules };
}
