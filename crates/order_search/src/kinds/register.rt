//! Registers.

use crate::digest::{Digest, of_value};
use crate::kinds::ReversibleKind;
use crate::step::{Step, Undo};
use model::{AnyOp, AnyReply};
use std::alloc::AllocError;

pub(crate) struct Registers;

impl ReversibleKind for Registers {
    ghost use Rattle.model.specs.Objects.{register};

    type State = Option<i64>;

    ghost content = { register };

    fn is_possible(_value: &Option<i64>, op: &AnyOp) -> bool {
        match *op {
            AnyOp::Write(_) | AnyOp::Read | AnyOp::Cas(_, _) => true,
            AnyOp::Clear | AnyOp::Create(_) => true,
            _ => false,
        }
    }

    fn step(value: &mut Option<i64>, op: &AnyOp) -> Result<Step, AllocError> {
        let before = *value;
        let back = Undo::SetRegister(before);
        match *op {
            AnyOp::Write(v) => {
                *value = Some(v);
                Ok(Step::new(AnyReply::Value(Some(v)), back))
            }
            AnyOp::Read => Ok(Step::new(AnyReply::Value(before), Undo::Nothing)),
            AnyOp::Cas(expected, new) if before == Some(expected) => {
                *value = Some(new);
                Ok(Step::new(AnyReply::Swapped(expected, new), back))
            }
            AnyOp::Cas(_, _) => Ok(Step::new(AnyReply::NotSwapped, Undo::Nothing)),
            AnyOp::Clear => {
                *value = None;
                Ok(Step::new(AnyReply::Value(None), back))
            }
            AnyOp::Create(v) => {
                *value = before.or(Some(v));
                Ok(Step::new(AnyReply::Flag(before.is_none()), back))
            }
            _ => unreachable!(),
        }
    }

    fn undo(value: &mut Option<i64>, undo: Undo) -> Result<(), AllocError> {
        if let Undo::SetRegister(before) = undo {
            *value = before;
        }
        Ok(())
    }

    fn digest(value: &Option<i64>, digest: Digest, _op: &AnyOp, _step: &Step) -> Digest {
        digest.only(match *value {
            Some(v) => of_value(v, 0),
            None => 0,
        })
    }
}
