//! Locks that know their owner.

ghost use Rattle.std.specs.Prelude.{◌≡◌};
ghost use Rattle.model.specs.Objects.{empty, kind_of};

use crate::object::SeqObject;
use model::{AnyOp, AnyReply, Kind};
use std::alloc::{AllocError, Global};
use std::marker::Model;

/// An operation of a lock, by an owner. It is locked only while it has no owner, and unlocked only
/// by its owner.
#[derive(Clone, Copy, Debug, PartialEq, Eq)]
pub enum LockOp {
    Lock(i64),
    Unlock(i64),
}

impl LockOp {
    ghost use Rattle.seq_objects.specs.Operations.{lock_op};

    /// The operation of all kinds as one of a lock.
    pub(crate) fn from_any(op: &AnyOp) -> LockOp
        requires { kind_of op.now ≡ Kind.Lock }
        ensures { lock_op result ≡ op.now }
    {
        match *op {
            AnyOp::LockBy(owner) => LockOp::Lock(owner),
            AnyOp::UnlockBy(owner) => LockOp::Unlock(owner),
            _ => unreachable!(),
        }
    }
}

/// A lock, which has an owner or none. It takes no memory.
#[derive(Debug, Drop)]
pub struct Lock {
    owner: Option<i64>,
}

impl Model for Lock {
    ghost use Rattle.std.specs.Prelude.{ℤ, Option};

    ghost Value = { Option ℤ };

    ghost view = { λ l. l.owner };
}

impl Lock {
    /// A lock without an owner.
    pub fn new(_alloc: Global) -> Lock
        ensures { ⟦<Lock as SeqObject>⟧.content result ≡ empty Kind.Lock }
    {
        Lock { owner: None }
    }
}

impl SeqObject for Lock {
    ghost use Rattle.std.specs.Prelude.{None};
    ghost use Rattle.model.specs.Objects.{owner};
    ghost use Rattle.model.specs.declared.AnyReply.TheVariants.{Value};
    ghost use Rattle.seq_objects.specs.Operations.{lock_op};

    type Op = LockOp;

    type Reply = ();

    ghost content = { owner };

    ghost op_in = { lock_op };

    ghost reply_in = { λ _. Value None };

    fn kind(&self) -> Kind {
        Kind::Lock
    }

    fn kind_of(_op: &LockOp) -> Kind {
        Kind::Lock
    }

    fn possible(&self, op: &LockOp) -> bool {
        match *op {
            LockOp::Lock(_) => self.owner.is_none(),
            LockOp::Unlock(owner) => self.owner == Some(owner),
        }
    }

    fn apply(&mut self, op: &LockOp) -> Result<(), AllocError> {
        self.owner = match *op {
            LockOp::Lock(owner) => Some(owner),
            LockOp::Unlock(_) => None,
        };
        Ok(())
    }

    fn try_copy(&self) -> Result<Lock, AllocError> {
        Ok(Lock { owner: self.owner })
    }

    fn same(&self, other: &Lock) -> bool {
        self.owner == other.owner
    }

    fn any_op(op: &LockOp) -> AnyOp {
        match *op {
            LockOp::Lock(owner) => AnyOp::LockBy(owner),
            LockOp::Unlock(owner) => AnyOp::UnlockBy(owner),
        }
    }

    fn any_reply(_reply: &()) -> AnyReply {
        AnyReply::Value(None)
    }

    ghost use Rattle.std.proofs.Common.{rules};

    ghost ops_apart = { Prim.search rules };

    ghost replies_apart = { Prim.search rules };
}
