//! Queues, from the first value to go out on.

use crate::digest::Digest;
use crate::kinds::ReversibleKind;
use crate::kinds::values::{bytes_of, take_first, undo_values};
use crate::step::{Step, Undo};
use model::{AnyOp, AnyReply};
use std::alloc::AllocError;
use std::collections::VecDeque;

pub(crate) struct Queues;

impl ReversibleKind for Queues {
    ghost use Rattle.model.specs.Objects.{queue};

    type State = VecDeque<i64>;

    ghost content = { λ values. queue values.items };

    fn is_possible(_values: &VecDeque<i64>, op: &AnyOp) -> bool {
        matches!(*op, AnyOp::Enqueue(_) | AnyOp::Dequeue)
    }

    fn step(values: &mut VecDeque<i64>, op: &AnyOp) -> Result<Step, AllocError> {
        match *op {
            AnyOp::Enqueue(v) => {
                values.push_back(v)?;
                Ok(Step::new(AnyReply::Value(Some(v)), Undo::TakeLast))
            }
            AnyOp::Dequeue => Ok(take_first(values)),
            _ => unreachable!(),
        }
    }

    fn undo(values: &mut VecDeque<i64>, undo: Undo) -> Result<(), AllocError> {
        undo_values(values, undo)
    }

    fn digest(_values: &VecDeque<i64>, digest: Digest, op: &AnyOp, step: &Step) -> Digest {
        match (*op, step.reply) {
            (AnyOp::Enqueue(v), _) => digest.in_at_back(v),
            (AnyOp::Dequeue, AnyReply::Value(Some(v))) => digest.out_at_front(v),
            _ => digest,
        }
    }

    fn bytes(values: &VecDeque<i64>, _keys: usize) -> usize {
        bytes_of(values)
    }
}
