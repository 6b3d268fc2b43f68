//! Heaps.

ghost use Rattle.std.specs.Prelude.{◌≡◌};
ghost use Rattle.model.specs.Objects.{empty, kind_of};

use crate::object::SeqObject;
use model::{AnyOp, AnyReply, Kind};
use pairing_heap::PairingHeap;
use std::alloc::{AllocError, Global};
use std::marker::Model;

/// An operation of a heap.
#[derive(Clone, Copy, Debug, PartialEq, Eq)]
pub enum HeapOp {
    Insert(i64),
    ExtractMin,
}

impl HeapOp {
    ghost use Rattle.seq_objects.specs.Operations.{heap_op};

    /// The operation of all kinds as one of a heap.
    pub(crate) fn from_any(op: &AnyOp) -> HeapOp
        requires { kind_of op.now ≡ Kind.Heap }
        ensures { heap_op result ≡ op.now }
    {
        match *op {
            AnyOp::Insert(v) => HeapOp::Insert(v),
            AnyOp::ExtractMin => HeapOp::ExtractMin,
            _ => unreachable!(),
        }
    }
}

/// A min-heap: a bag of integers that returns its least first. An insert takes constant time,
/// except when the vector grows, and an extract logarithmic time, amortized. The reply is the value
/// that went in or out. Two heaps are the same if their bags are, whatever was done to them.
#[derive(Drop)]
pub struct Heap {
    values: PairingHeap,
}

impl Model for Heap {
    ghost use Rattle.std.specs.Prelude.{ℤ, List};

    ghost Value = { List ℤ };

    ghost view = { λ h. h.values };
}

impl Heap {
    /// An empty heap. It takes no memory.
    pub fn new(alloc: Global) -> Heap
        ensures { ⟦<Heap as SeqObject>⟧.content result ≡ empty Kind.Heap }
    {
        Heap {
            values: PairingHeap::new(alloc),
        }
    }
}

impl SeqObject for Heap {
    ghost use Rattle.model.specs.Objects.{heap};
    ghost use Rattle.model.specs.declared.AnyReply.TheVariants.{Value};
    ghost use Rattle.seq_objects.specs.Operations.{heap_op};

    type Op = HeapOp;

    type Reply = Option<i64>;

    ghost content = { heap };

    ghost op_in = { heap_op };

    ghost reply_in = { Value };

    fn kind(&self) -> Kind {
        Kind::Heap
    }

    fn kind_of(_op: &HeapOp) -> Kind {
        Kind::Heap
    }

    fn possible(&self, _op: &HeapOp) -> bool {
        true
    }

    fn apply(&mut self, op: &HeapOp) -> Result<Option<i64>, AllocError> {
        match *op {
            HeapOp::Insert(v) => {
                self.values.insert(v)?;
                Ok(Some(v))
            }
            HeapOp::ExtractMin => Ok(self.values.extract_min()),
        }
    }

    fn try_copy(&self) -> Result<Heap, AllocError> {
        Ok(Heap {
            values: self.values.try_copy()?,
        })
    }

    fn same(&self, other: &Heap) -> bool {
        self.values.same(&other.values)
    }

    fn any_op(op: &HeapOp) -> AnyOp {
        match *op {
            HeapOp::Insert(v) => AnyOp::Insert(v),
            HeapOp::ExtractMin => AnyOp::ExtractMin,
        }
    }

    fn any_reply(reply: &Option<i64>) -> AnyReply {
        AnyReply::Value(*reply)
    }

    ghost use Rattle.std.proofs.Common.{rules};

    ghost ops_apart = { Prim.search rules };

    ghost replies_apart = { Prim.search rules };
}
