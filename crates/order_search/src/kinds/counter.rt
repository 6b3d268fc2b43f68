//! Counters.

use crate::digest::{Digest, bits};
use crate::kinds::ReversibleKind;
use crate::step::{Step, Undo};
use model::{AnyOp, AnyReply};
use std::alloc::AllocError;

pub(crate) struct Counters;

impl ReversibleKind for Counters {
    ghost use Rattle.model.specs.Objects as objects;

    type State = i64;

    ghost content = { objects.count };

    fn is_possible(count: &i64, op: &AnyOp) -> bool {
        match *op {
            AnyOp::FetchAdd(n) => count.checked_add(n).is_some(),
            AnyOp::GetCount => true,
            _ => false,
        }
    }

    fn step(count: &mut i64, op: &AnyOp) -> Result<Step, AllocError> {
        let before = *count;
        let reply = AnyReply::Value(Some(before));
        match *op {
            AnyOp::FetchAdd(n) => {
                *count = before + n;
                Ok(Step::new(reply, Undo::SetCount(before)))
            }
            AnyOp::GetCount => Ok(Step::new(reply, Undo::Nothing)),
            _ => unreachable!(),
        }
    }

    fn undo(count: &mut i64, undo: Undo) -> Result<(), AllocError> {
        if let Undo::SetCount(before) = undo {
            *count = before;
        }
        Ok(())
    }

    fn digest(count: &i64, digest: Digest, _op: &AnyOp, _step: &Step) -> Digest {
        digest.only(bits(*count))
    }
}
