//! Sets.

ghost use Rattle.std.specs.Prelude.{◌≡◌};
ghost use Rattle.model.specs.Objects.{empty, kind_of};

use crate::object::SeqObject;
use model::{AnyOp, AnyReply, Kind};
use std::alloc::{AllocError, Global};
use std::collections::BTreeSet;
use std::marker::Model;

/// An operation of a set.
#[derive(Clone, Copy, Debug, PartialEq, Eq)]
pub enum SetOp {
    Add(i64),
    Remove(i64),
    Has(i64),
}

impl SetOp {
    ghost use Rattle.seq_objects.specs.Operations.{set_op};

    /// The operation of all kinds as one of a set.
    pub(crate) fn from_any(op: &AnyOp) -> SetOp
        requires { kind_of op.now ≡ Kind.Set }
        ensures { set_op result ≡ op.now }
    {
        match *op {
            AnyOp::Add(v) => SetOp::Add(v),
            AnyOp::Remove(v) => SetOp::Remove(v),
            AnyOp::Has(v) => SetOp::Has(v),
            _ => unreachable!(),
        }
    }
}

/// A set of integers. Each operation takes logarithmic time. The reply says whether the element was
/// added, was removed, or is in it.
#[derive(Debug, Drop)]
pub struct Set {
    values: BTreeSet<i64>,
}

impl Model for Set {
    ghost use Rattle.std.specs.Coded.{coded_ℤ};
    ghost use Rattle.std.specs.FinSet.{FinSet, code, from_list};
    ghost use Rattle.std.specs.Ordering.{int_cmp};
    ghost use Rattle.std.specs.BTreeSet.{IsOrdered};

    ghost Value = { FinSet int_cmp };

    ghost coded = { code coded_ℤ };

    ghost view = { λ s. from_list s.values.keys };

    ghost invariant = { λ s. IsOrdered int_cmp s.values };
}

impl Set {
    /// A set with no element. It takes no memory.
    pub fn new(alloc: Global) -> Set
        ensures { ⟦<Set as SeqObject>⟧.content result ≡ empty Kind.Set }
    {
        Set {
            values: BTreeSet::new(alloc),
        }
    }
}

impl SeqObject for Set {
    ghost use Rattle.model.specs.Objects.{elements};
    ghost use Rattle.model.specs.declared.AnyReply.TheVariants.{Flag};
    ghost use Rattle.seq_objects.specs.Operations.{set_op};

    type Op = SetOp;

    type Reply = bool;

    ghost content = { elements };

    ghost op_in = { set_op };

    ghost reply_in = { Flag };

    fn kind(&self) -> Kind {
        Kind::Set
    }

    fn kind_of(_op: &SetOp) -> Kind {
        Kind::Set
    }

    fn possible(&self, _op: &SetOp) -> bool {
        true
    }

    fn apply(&mut self, op: &SetOp) -> Result<bool, AllocError> {
        match op {
            SetOp::Add(v) => Ok(self.values.insert(*v)?),
            SetOp::Remove(v) => Ok(self.values.remove(v)),
            SetOp::Has(v) => Ok(self.values.contains(v)),
        }
    }

    fn try_copy(&self) -> Result<Set, AllocError> {
        Ok(Set {
            values: self.values.clone()?,
        })
    }

    fn same(&self, other: &Set) -> bool {
        self.values == other.values
    }

    fn any_op(op: &SetOp) -> AnyOp {
        match *op {
            SetOp::Add(v) => AnyOp::Add(v),
            SetOp::Remove(v) => AnyOp::Remove(v),
            SetOp::Has(v) => AnyOp::Has(v),
        }
    }

    fn any_reply(reply: &bool) -> AnyReply {
        AnyReply::Flag(*reply)
    }

    ghost use Rattle.std.proofs.Common.{rules};

    ghost ops_apart = { Prim.search rules };

    ghost replies_apart = { Prim.search rules };
}
