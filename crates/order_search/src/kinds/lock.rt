//! Locks: the owner, if there is one.

use crate::digest::{Digest, of_value};
use crate::kinds::ReversibleKind;
use crate::step::{Step, Undo};
use model::{AnyOp, AnyReply};
use std::alloc::AllocError;

pub(crate) struct Locks;

impl ReversibleKind for Locks {
    ghost use Rattle.model.specs.Objects as objects;

    type State = Option<i64>;

    ghost content = { objects.owner };

    fn is_possible(owner: &Option<i64>, op: &AnyOp) -> bool {
        match *op {
            AnyOp::LockBy(_) => owner.is_none(),
            AnyOp::UnlockBy(holder) => *owner == Some(holder),
            _ => false,
        }
    }

    fn step(owner: &mut Option<i64>, op: &AnyOp) -> Result<Step, AllocError> {
        let before = *owner;
        *owner = match *op {
            AnyOp::LockBy(taker) => Some(taker),
            AnyOp::UnlockBy(_) => None,
            _ => unreachable!(),
        };
        Ok(Step::new(AnyReply::Value(None), Undo::SetOwner(before)))
    }

    fn undo(owner: &mut Option<i64>, undo: Undo) -> Result<(), AllocError> {
        if let Undo::SetOwner(before) = undo {
            *owner = before;
        }
        Ok(())
    }

    fn digest(owner: &Option<i64>, digest: Digest, _op: &AnyOp, _step: &Step) -> Digest {
        digest.only(match *owner {
            Some(holder) => of_value(holder, 1),
            None => 0,
        })
    }
}
