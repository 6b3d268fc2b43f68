//! Mutexes: whether one is held.

use crate::digest::Digest;
use crate::kinds::ReversibleKind;
use crate::step::{Step, Undo};
use model::{AnyOp, AnyReply};
use std::alloc::AllocError;

pub(crate) struct Mutexes;

impl ReversibleKind for Mutexes {
    ghost use Rattle.model.specs.Objects.{mutex};

    type State = bool;

    ghost content = { mutex };

    fn is_possible(held: &bool, op: &AnyOp) -> bool {
        match *op {
            AnyOp::Acquire => !*held,
            AnyOp::Release => *held,
            _ => false,
        }
    }

    fn step(held: &mut bool, _op: &AnyOp) -> Result<Step, AllocError> {
        let before = *held;
        *held = !before;
        Ok(Step::new(AnyReply::Value(None), Undo::SetHeld(before)))
    }

    fn undo(held: &mut bool, undo: Undo) -> Result<(), AllocError> {
        if let Undo::SetHeld(before) = undo {
            *held = before;
        }
        Ok(())
    }

    fn digest(held: &bool, digest: Digest, _op: &AnyOp, _step: &Step) -> Digest {
        digest.only(u64::from(*held))
    }
}
